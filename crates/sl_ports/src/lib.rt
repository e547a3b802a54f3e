//! What stands outside of the looper: where bytes go, and where files are kept.
//!
//! - Whatever may fail keeps a count of its faults, one for each kind of call. A count never falls,
//!   and it rises in the calls that answer `Failed`. So a caller that hands a failure on can say
//!   whose it was.
//! - A sink takes bytes in order. A write that is done took all of them, one that failed a prefix.
//! - A keeper has files by name. A reading changes no file, and a write changes the one that it
//!   names, or none.
//! - What a sink holds and a keeper has is told by those in memory. Nothing is said of it where it
//!   isn't told.
//! - Want of memory is an answer of its own, and no count tells of it.
//! - `MemSink` and `MemKeeper` stand in memory, and fail at the calls whose numbers they are given.
//!   `StdSink` and `DirKeeper` are the real ones, which remember the first call that failed, for
//!   the program to tell.
//!
//! Begin with `sinks` and `keepers`. The rules are "The outside" in docs/rules.md.
#![tactic(auto)]

mod calls;
mod dir_keeper;
mod first_fault;
mod keepers;
mod mem_keeper;
mod mem_sink;
mod new_file;
mod sinks;
mod std_sink;
mod transfer;

pub use dir_keeper::DirKeeper;
pub use first_fault::{FirstFault, Tried};
pub use keepers::{FileAnswer, KeepAnswer, Keeper};
pub use mem_keeper::MemKeeper;
pub use mem_sink::MemSink;
pub use sinks::{Sink, SinkAnswer};
pub use std_sink::StdSink;

#[cfg(test)]
mod tests;
