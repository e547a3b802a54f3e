//! MIDI bytes as events.
//!
//! - `feed` takes one byte after another, and gives the event that is whole with it, if one is.
//!   What it gives is decided by the last status in force and the data bytes since it, over all
//!   bytes fed so far.
//! - Real-time bytes may stand anywhere and change nothing; those of the clock and of start,
//!   continue and stop give events of their own. System exclusive and all other bytes of the system
//!   are passed over.
//! - A note on with velocity 0 is a note off.
//! - Any bytes at all may be fed. A reader takes no memory.
//!
//! Begin with `event`, then `reader`; `laws` has what holds of the definitions.
//! The rules are "MIDI" in docs/formats.md.
#![tactic(auto)]

mod event;
pub mod laws;
mod reader;
#[cfg(test)]
mod tests;

pub use event::MidiEvent;
pub use reader::MidiReader;
