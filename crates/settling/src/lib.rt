//! Settling: a session is brought to its end, once its activities have returned.
//!
//! - The two ends of each ring have met. What is left in the rings of OSC, MIDI and the saver is
//!   given to the engine, what is left in the ring of blocks to the saver, and behind them the
//!   blocks that the engine has left. Each reply is told, in order.
//! - Nothing is skipped: no block is left behind it, and each save has its release, with the
//!   outcome that the saver gave.
//! - Entries that are made here have the number of frames done. No call takes memory but the saver,
//!   whose want of it is the outcome of a save.
//!
//! Begin with `specs/Settled`, then `whole`. The rules are "Settling" in docs/rules.md.
#![tactic(auto)]

mod commands;
mod feeding;
mod outcomes;
mod replies;
mod teller;
#[cfg(test)]
mod tests;
mod whole;

pub use teller::Teller;
pub use whole::settle;
