//! The activity of audio: turns, one behind another, until the audio is at its end.
//!
//! - `serve_audio` makes turns until one tells a state other than `More`, and gives that state.
//!   What it did from the first turn on is one doing over all frames that were read and played
//!   (`Served`). Where a turn found nothing to do it pauses.
//!
//! Begin with `serving`; the rules are "The turn of audio" and "The activity of audio" in
//! docs/rules.md.
#![tactic(auto)]

mod serving;

pub use serving::serve_audio;
