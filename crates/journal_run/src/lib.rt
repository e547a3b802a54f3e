//! A journal, played over an input.
//!
//! - `play` plays entries over an input from settings and the lists of loops: each entry at its
//!   frame, and those behind the last frame after it. It gives OUT's bytes, and the text of the
//!   replies and the numbers. What comes out is the run of the rules, whatever the period.
//! - Right behind the entry of a save all its blocks go to the saver, so the files of saves are
//!   written in the order of their entries. The first write that fails ends the run, and so does
//!   want of memory: then the first of these files are written.
//! - An `Input` is a WAV file whose frames are read a span after another. OUT's samples are made so
//!   too. So a run holds IN's bytes, OUT's bytes, a period of frames, and the engine.
//!
//! Begin with `starting`, then `ending` and `entries`; `run` has what goes on in a run, `playing`
//! plays frames, `texts` writes lines. The rules are "The run" and "Saves" in docs/rules.md, and
//! "Files of a save" and "The console" in docs/formats.md.
#![tactic(auto)]

mod ending;
mod entries;
mod laws;
mod playing;
mod quota;
mod run;
mod starting;
#[cfg(test)]
mod tests;
mod texts;

pub use ending::{Performed, perform};
pub use laws::a_run_is_as_long_as_its_input;
pub use quota::quota_of;
pub use starting::play;
