//! What the activity of audio owns beside the engine, and what it does: no engine is called here.
//!
//! - `RingEnds` are its ends of the five rings, with the reply that found its ring full and whether
//!   a quit was taken. Each call says what passed, and how the counts of the ring changed.
//! - `fill_bytes` reads bytes from a source behind those that were kept, and says why no more came.
//! - `Turn` is what a turn tells, with how the audio stands. `specs/Turns` says what the parts of a
//!   turn do and why each ends, `specs/Turned` what a whole turn does, and `specs/Did` what the
//!   activity does in any number of them.
//!
//! Begin with `rings`, then `fill`; `laws` says that turns compose and that each state has its
//! cause. The rules are "The engine between its rings" and "The turn of audio" in docs/rules.md.
#![tactic(auto)]

mod audio;
mod fill;
mod laws;
mod rings;
mod state;
mod stop;
mod way;

pub use audio::{AudioEnds, MOST_BYTES, MOST_FRAMES};
pub use fill::{Came, Halt, fill_bytes, kept_of};
pub use laws::{
    a_short_turn_has_its_cause, each_state_has_its_cause, turns_may_begin, what_audio_did_composes,
};
pub use rings::{RingEnds, is_quit};
pub use state::{AudioState, Turn, state_of};
pub use stop::{Stop, Stops};
pub use way::{Waiting, Way};
