//! The rings of a live session: made all at once, and met once the activities have given their ends
//! back.
//!
//! - Five rings carry what passes between the activity of audio and the others: commands of OSC and
//!   of MIDI, outcomes of saves, replies, and blocks of saves. Each has its capacity, and its limit
//!   or its bound by the quota.
//! - Three more carry one number each, which tells an activity that audio is over.
//! - Where the ends of each of the five have met, what was sent on it is what was taken, followed
//!   by what is left.
//!
//! Begin with `rings`, then `meeting`. The rules are "Rings" and "The rings of a session" in
//! docs/rules.md.
#![tactic(auto)]

mod meeting;
mod rings;

pub use meeting::{MetRings, meet_rings};
pub use rings::{OverRings, Ring, Rings, live_rings, over_rings};
