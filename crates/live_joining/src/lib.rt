//! The four activities of a live session, joined.
//!
//! - Each activity is a trait with one call whose contract is its promise: of what it owns it says
//!   what was read, accepted, put, taken, sent and written, and why it ended. None speaks of
//!   another activity. So what is joined is proved whatever serves, and a test puts in activities
//!   that do nothing.
//! - `join_all` runs the four, each over its own part, and gives their parts back. Audio runs on
//!   the thread that calls, and tells the others when it is over; where no thread can be made for
//!   one of them, its work is done behind that of audio.
//!
//! Begin with `activities` and `parts`, then `joining`. The rules are "The activities of a session"
//! in docs/rules.md.
#![tactic(auto)]

mod activities;
mod joining;
mod parts;
mod running;

pub use activities::{OscOver, ServesAudio, ServesMidi, ServesOsc, ServesSaver};
pub use joining::join_all;
pub use parts::{
    AllBack, AudioBack, AudioPart, MidiBack, MidiPart, OscBack, OscPart, Overs, SaverPart,
    ThreeBack, TwoBack,
};
