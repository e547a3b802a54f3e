//! Gains that move by steps, and sums that are clamped once.
//!
//! - A gain is a number of thousandths, 0 to 1000. `step` moves it toward a target by at most a
//!   step.
//! - `clear_span` begins the sums of a span at zero, `add_span` adds one list of frames, scaled
//!   frame by frame by a gain that moves at each frame, and `close_span` gives the nearest frames.
//! - Up to 17 lists may be added, each of 16 loops and the input.
//!
//! Begin with `gain`, then `span`. The rules are "Gains and the mix" in docs/rules.md.
#![tactic(auto)]

mod gain;
mod span;
#[cfg(test)]
mod tests;

pub use gain::Gain;
pub use span::{Sum, add_span, clear_span, close_span};
