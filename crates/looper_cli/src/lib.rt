//! The commands: what they do, printing and the top calls.
//!
//! - `plain_run` does what the words ask for, over a keeper of files and a console, and gives the
//!   exit status. How it ends is said for each status in `specs/Endings`: what was written, what
//!   was told, and whose count of faults rose.
//! - `render` reads all files, and writes nothing before all are good and within the limits. Then
//!   the run writes the files of its saves, and OUT behind them. The first write that fails, and
//!   want of memory, end all writing. It gives the text that tells of the run, or the one fault.
//! - What is heard, told and saved is the run of the rules over what the files held, whatever the
//!   period.
//! - The console is told last, by calls that take no memory.
//! - `drill` runs the steps that a number makes, and gives the line of their numbers. It touches no
//!   file.
//! - `show` loads a session, and gives the text that tells of its loops. It writes nothing.
//!
//! Begin with `top`, then `render`; `program` has the call of the program, `run`, which plays a
//! live session or hands its words to `plain_run`. The forms are "The words of the command line",
//! "The console" and "Statuses" in docs/formats.md, and what is heard is "The run" in
//! docs/rules.md.
#![tactic(auto)]

mod drill;
mod program;
mod render;
mod show;
mod sources;
mod top;

pub use console_lines::Status;
pub use program::{asks_for_live, run};
pub use top::plain_run;
