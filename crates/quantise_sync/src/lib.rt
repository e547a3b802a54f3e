//! Boundaries: the frames at which a waiting verb acts.
//!
//! - `boundary` tells whether a frame is one, by the faces of that moment.
//! - `next_boundary` tells how many frames it is to the next one, while the faces go on frame by
//!   frame as faces do where every write and extension fits and no layer closes.
//! - No call takes memory or can fail.
//!
//! Begin with `setup`, then `moment` and `next`; `laws` has what holds of the definitions. The
//! rules are "Boundaries" in docs/rules.md.
#![tactic(auto)]

mod laws;
mod moment;
mod next;
mod setup;
#[cfg(test)]
mod tests;

pub use laws::faces_of_loops_are_placed;
pub use moment::boundary;
pub use next::next_boundary;
pub use setup::SyncSetup;
