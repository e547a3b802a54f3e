//! The four activities of a session, as they are joined.
//!
//! - `Activities` serves audio, OSC, MIDI and the saver by the calls of their own crates: each
//!   keeps the promise that the session is composed of, which says less than the call's own.
//!
//! The rules are "The activities of a session" in docs/rules.md.
#![tactic(auto)]

mod activities;

pub use activities::Activities;
