//! The layer that is being written, as addresses on a tape.
//!
//! - `Fill` owns the open layer's list of addresses, in pieces, with room for 65536 of them. Only
//!   `new` takes memory.
//! - A cell is fresh where its address is at or above the floor. So one number keeps the marks of
//!   all cells, and `freeze` clears them by raising it.
//! - A write puts the next address over a cell, before it or at the end: a fresh cell, in the place
//!   that the rules say.
//! - The pieces are at most the seams: a write adds at most two, and none while its streak goes on.
//!
//! Begin with `fill`, then `write`.
//! The rules are "Writing", "Pieces" and "The layer that is written" in docs/rules.md.
#![tactic(auto)]

mod fill;
#[cfg(test)]
mod tests;
mod write;

pub use fill::Fill;
