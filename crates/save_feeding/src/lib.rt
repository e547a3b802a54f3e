//! The blocks of an engine's saves, given to the saver.
//!
//! - `feed` gives all blocks that are left to a saver, one after another, until none is left or a
//!   save has ended that isn't written. So the files of the saves are written in the order of
//!   their blocks: all of them, or the first.
//! - `Stopped` says why they aren't all written: a write of the keeper failed, or memory was
//!   wanted.
//! - What the engine was in step with stays so, but for the blocks that were sent.
//!
//! Begin with `feeding`. The rules are "Saves" in docs/rules.md and "Files of a save" in
//! docs/formats.md.
#![tactic(auto)]

mod feeding;
mod stopped;

pub use feeding::feed;
pub use stopped::Stopped;
