//! The turn of the activity of audio: commands, one period, blocks.
//!
//! - `audio_turn` puts the held reply; takes commands of OSC and MIDI and outcomes of saves, gives
//!   each to the engine and puts its reply; reads, plays and writes at most one period; and puts
//!   blocks. Nothing is taken behind a reply that is held, and at most 256 items of a ring.
//! - It leaves engine and rings in step, whatever they were in step with, and tells why each of its
//!   parts ended and how the audio stands (`Turned`).
//! - No call takes memory.
//!
//! Begin with `turn`; what the parts do is in `takes`, `play` and `blocks`. The rules are "The
//! engine between its rings" and "The turn of audio" in docs/rules.md.
#![tactic(auto)]

mod blocks;
mod play;
mod takes;
mod turn;

pub use turn::{audio_turn, audio_turn_by};
