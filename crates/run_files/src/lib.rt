//! The files of a run: all that `render` goes over, read in order, and the first bad one told
//! exactly.
//!
//! - `read_run` reads IN, then a session with its WAV files where one is named, and then JOURNAL,
//!   for as many loops as there are. Where no session is named the run begins with empty loops at
//!   IN's rate.
//! - The first file that is missing or not in its form is told by its name, the number of what is
//!   wrong and the line.
//! - The limits are judged behind all files: IN's frames, and the chunks that the session's lists
//!   need.
//! - Nothing is written. A failed reading and want of memory are answers of their own, and say
//!   nothing of the files.
//!
//! A live session begins with the same session or empty loops: `read_beginning`, `has_chunks` and
//! `fault_of` serve the reading of its files too.
//!
//! Begin with `sources`, then `run`; `reading` reads each file, `limits` judges the chunks, and
//! `laws` has what holds of the definitions.
//! The rules are "The files of a run" in docs/formats.md.
#![tactic(auto)]

mod laws;
mod limits;
mod reading;
mod run;
mod sources;
#[cfg(test)]
mod tests;

pub use laws::{a_run_has_one_first_bad_file, a_run_has_one_reading, a_run_is_read_or_refused};
pub use limits::has_chunks;
pub use reading::read_beginning;
pub use run::{FilesFault, RunFiles, fault_of, read_run};
pub use sources::Sources;
