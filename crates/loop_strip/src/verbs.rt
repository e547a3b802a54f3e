//! What a verb does to a loop: presses and waiting verbs (`acting`), and the moves that a verb is
//! made of.

mod acting;
mod closing;
mod history;
mod moves;
mod opening;
