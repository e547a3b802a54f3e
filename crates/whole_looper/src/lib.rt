//! All loops of a looper over one pool of chunks: a whole looper but for its journal and the
//! sending of its saves.
//!
//! - `Looper` is seen as the rules' looper. `new` makes the one that a run begins with, or answers
//!   `Limit` exactly where the lists need more chunks than there are.
//! - `apply` does what the rules say of an entry, valid or not, and gives its reply and whether it
//!   made a save.
//! - `frames` plays any number of frames with no entry among them: the looper and the output are
//!   those of so many frames of the rules, one by one. Inside, frames go in spans, one loop after
//!   another: a span ends where a boundary may act, where a loop may take a chunk, open or close a
//!   layer or be refused, or behind 1024 frames.
//! - What a save sends is read from the pins (`saved`).
//! - Only `new` takes memory.
//!
//! Begin with `looper`, then `apply`, `save` and `load`. Below them looper_tracks has all loops
//! over their pool. The rules are
//! "The looper" to "The run" in docs/rules.md.
#![tactic(auto)]

mod applied;
mod apply;
mod fault;
mod load;
mod looper;
mod mix;
mod save;
mod saved;
#[cfg(test)]
mod tests;

pub use applied::Applied;
pub use fault::BeginFault;
pub use looper::Looper;
