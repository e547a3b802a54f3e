//! The base: frames, names and the arithmetic of samples.
//!
//! - A sample is a whole number of 24 bits, -8388608 to 8388607. A frame has two, left and right,
//!   and keeps both in this range.
//! - `clamp24` gives the nearest sample, `scale` so many thousandths of one, divided toward zero.
//! - A list of frames is seen by contracts as a list of sounds, each a pair of whole numbers.
//! - Each limit of the product stands once in `limits`, by its name, and `specs/Counting` says what
//!   a count of failures is.
//! - A name is 1 to 64 bytes of `A-Z a-z 0-9 . _ -`, the first not `.`. `Name::read` answers
//!   exactly for such bytes.
//!
//! Begin with `arithmetic`, then `frame` and `frames`; `name` has the name rule, `laws` what holds
//! of the definitions. The rules are "Frames and arithmetic", "Names", "Limits" and "Counts of
//! failures" in docs/rules.md.
#![tactic(auto)]

mod addr;
mod arithmetic;
mod frame;
mod frames;
mod laws;
mod limits;
mod memory;
mod name;

pub use addr::Addr;
pub use arithmetic::{clamp24, narrow, scale, widen};
pub use frame::Frame;
pub use frames::Frames;
pub use laws::{
    clamped_is_a_sample, clamped_is_nearest, full_level_changes_nothing, narrowed_rounds_down,
    widened_comes_back,
};
pub use limits::{
    CHUNK_FRAMES, MAX_BINDING_LINES, MAX_CHUNKS, MAX_FILE_FRAMES, MAX_LAYERS, MAX_LIST_FRAMES,
    MAX_LOOPS, MAX_PERIOD, MAX_QUOTA, MAX_RATE, MAX_SAVER_QUOTA, MAX_SEAMS, MAX_SESSION_FRAMES,
    MAX_SESSION_NAME, MAX_VALUE, limits_are_those_of_contracts,
};
pub use memory::{Memory, Shortage};
pub use name::Name;
