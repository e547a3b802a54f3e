//! `live`: a session that is played, from the words to the last line.
//!
//! - `live_run` reads the session and the bindings that the words name, before any device is used.
//!   It then plays the session over its devices to the end, writes the journal where it is asked
//!   for, and tells the console the closing lines.
//! - A session that was played is whole: its journal holds each accepted command once, in its
//!   sender's order, and output, replies and saved files are those of one looper that replays that
//!   journal (`specs/Playing`, `HasPlayed`).
//! - A session that wasn't used no device, wrote no file, and its `session` is None.
//! - The status is the first that holds in the order of the rules, and each has its cause.
//!
//! Begin with `live`, then `playing`; `outside` has what stands outside and what comes back,
//! `journal` and `closing` the last steps, and `status` their order. The rules are "How a session
//! ends" in docs/rules.md, and "Statuses" and "The console" in docs/formats.md.
#![tactic(auto)]

mod closing;
mod journal;
mod live;
mod outside;
mod playing;
mod status;

pub use closing::Numbers;
pub use live::live_run;
pub use outside::{End, Outside, Session};
