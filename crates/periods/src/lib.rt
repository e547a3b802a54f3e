//! The buffers of a period: its frames as they are taken in, as they are heard, and the bytes that
//! spell them.
//!
//! - A `Period` is made once, for so many frames in 1 or 2 channels of 16 or 24 bits. Only that
//!   takes memory for them.
//! - `read` takes in a span of an input, and `write` puts the samples of what is heard behind a
//!   list of bytes. Both use the front of the buffers where a period is shorter. What plays the
//!   frames borrows `frames` and `heard`.
//! - Contracts see its form, the frames taken in and the frames heard; what stands in `bytes`
//!   between two periods means nothing.
//! - The buffers stay as long as each other: `frames` and `heard` have a place for each frame, and
//!   `bytes` for all of their samples.
//!
//! Begin with `period`. The rules are "The run" in docs/rules.md and "WAV" in docs/formats.md.
#![tactic(auto)]

mod period;
#[cfg(test)]
mod tests;

pub use period::Period;
