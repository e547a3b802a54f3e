//! What a verb does to a loop, as a short list of moves that its face decides.
//!
//! - A face is what a loop shows to its verbs: its mode, place, direction, lengths and numbers of
//!   layers, and no frames.
//! - `decide` gives at most four moves. Carried out in order on any loop with that face, they are
//!   the verb.
//! - `state_number` is the number that a get of `state` answers.
//! - Nothing here takes memory or can fail.
//!
//! Begin with `act`, then `verbs`; its rows stand in `rows`. What a move does is in `specs/Moves`.
//! The rules are "Verbs" and "Values" in docs/rules.md.
#![tactic(auto)]

mod act;
mod rows;
mod state;
#[cfg(test)]
mod tests;
mod verbs;

pub use act::{Act, Move};
pub use sl_commands::{Face, Mode};
pub use state::state_number;
pub use verbs::decide;
