//! The activity of the saver: blocks of saves are taken from a ring, and the outcomes of the saves
//! are put on another.
//!
//! - `serve_saver` gives each block that it takes to the saver, and puts the outcome of each save
//!   that ends, in the order of the saves. An outcome that finds its ring full is held, and put
//!   before another block is taken.
//! - Where there is nothing to do it pauses, and asks whether audio is over. Only then it ends, and
//!   gives back the outcome that is still held. Blocks may be left in the ring then, put since.
//! - No call takes memory but the saver, whose want of it is the outcome of a save.
//!
//! Begin with `specs/Serving`, then `serving`. The rules are "The activity of the saver" in
//! docs/rules.md.
#![tactic(auto)]

mod serving;
#[cfg(test)]
mod tests;

pub use serving::serve_saver;
