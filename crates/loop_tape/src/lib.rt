//! Tapes: lists of frames in chunks of one pool.
//!
//! - A pool has chunks of 4096 frames, 32768 at most. `Pool::new` takes all memory that they will
//!   need, and touches none of it: a chunk is filled with silence when a tape takes it for the
//!   first time, and a chunk that was given back is taken before the next new one. `Pool::fill`
//!   fills the rest at once; contracts see no difference.
//! - A tape grows by one frame, has frames set and read by address, and is cut to a length, which
//!   gives its last chunks back. `Tape::push` refuses exactly where the tape ends with a chunk and
//!   no chunk is free. Free chunks are exact.
//! - Tapes over one pool have different chunks: that is the caller's to keep. Then a call on one
//!   leaves the frames and chunks of every other as they were.
//! - `read_forward` and `read_backward` copy frames chunk by chunk.
//!
//! Begin with `pool`, then `tape` and `spans`. The rules are "Room" and "The stack" in
//! docs/rules.md.
#![tactic(auto)]

mod filling;
mod pool;
mod spans;
mod tape;
#[cfg(test)]
mod tests;

pub use pool::Pool;
pub use tape::Tape;
