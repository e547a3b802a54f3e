//! The files of a live session, read before a device is used, and the first bad one told exactly.
//!
//! - `read_live` reads a session with its WAV files where one is named, and then the bindings where
//!   their file is named, for as many loops as there are. Where no session is named there are so
//!   many empty loops at a rate, and where no bindings are named there are none.
//! - The first file that is missing or not in its form is told by its name, the number of what is
//!   wrong and the line.
//! - The chunks that the session's lists need are judged behind all files.
//! - Nothing is written. A failed reading and want of memory are answers of their own, and say
//!   nothing of the files.
//!
//! Begin with `sources`, then `live`; `bound` reads the bindings, and `laws` has what holds of the
//! definitions.
//! The rules are "The files of a live session" in docs/formats.md.
#![tactic(auto)]

mod bound;
mod laws;
mod live;
mod sources;
#[cfg(test)]
mod tests;

pub use laws::{
    live_files_are_read_or_refused, live_files_have_one_first_bad_file, live_files_have_one_reading,
};
pub use live::{LiveFiles, read_live};
pub use sources::LiveSources;
