//! Serving MIDI: bytes are read, and the sender hears each.
//!
//! - `serve_midi` reads bytes from a source and has a sender hear each, in order, until the end of
//!   the session is told, the source is at its end, or a read fails.
//! - It reads at least once before it looks for the session's end, and answers why it ended. What
//!   it did is one relation of what it was given and what it leaves, `MidiDid` in
//!   `specs/Serving.antt`.
//! - What it has accepted gives a verb or sets a control of a loop, where what is bound may be.
//! - No call takes memory. It never pauses of its own: a read gives bytes, or has waited, or ends
//!   it.
//!
//! Begin with `serving`; `laws` has what holds of the definitions.
//! The rules are "Serving" in docs/rules.md.
#![tactic(auto)]

mod laws;
mod serving;
#[cfg(test)]
mod tests;

pub use laws::what_midi_plays_may_be_played;
pub use serving::{MidiEnd, serve_midi};
