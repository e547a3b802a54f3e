//! What a run tells the console, and how it ends.
//!
//! - A run ends with a `Status`, each with its number and the line that tells it. A run that isn't
//!   done has a `RunFault`; `fault_of` gives that of files that aren't read.
//! - `tell_fault` tells why a run isn't done: of a bad file its name, its fault and its line. Want
//!   of memory tells nothing.
//! - `tell_done` tells the text of a run that is done.
//! - No call here takes memory. A console that fails has a prefix of the text.
//!
//! Begin with `status`, then `telling`. The forms are "The console" and "Statuses" in
//! docs/formats.md.
#![tactic(auto)]

mod faults;
mod status;
mod telling;

pub use faults::fault_of;
pub use status::{RunFault, Status};
pub use telling::{tell, tell_done, tell_fault};
