//! The layers of one loop, on a tape that they share.
//!
//! - `Layers` is seen as the rule book's stack of layers: with the frames of a pool at the
//!   addresses of its cells (`seen`), each call is the rule book's definition on it. Contracts also
//!   see the addresses themselves.
//! - Only `Layers::new` takes memory. An opening copies a list of pieces, undo and redo move one
//!   number, a write puts one frame on the tape or over a fresh one, and nothing depends on how
//!   long the lists are.
//! - An opening is refused exactly as the rules say, and a write exactly where it doesn't fit. A
//!   refusal changes nothing.
//! - What layers share is stated in public (`IsShared`): addresses below the tape length, ends in
//!   order, a fresh cell's address nobody else's, the pinned list below the pin, pieces at most
//!   seams, exactly the chunks that the tape fills.
//! - A call changes no other tape of the pool. The caller keeps tapes apart.
//! - Reads and writes in order, forward or backward, search nothing: hints that contracts don't see
//!   move along.
//!
//! Begin with `layers`, then `opening`, `writing`, `closing`, `moving`, `pinning`, `loading` and
//! `reading`; `laws` has what holds of several calls together. The rules are "Layers" to "Writing",
//! "Closing" and "History" in docs/rules.md.
#![tactic(auto)]

mod closing;
mod laws;
mod layers;
mod loading;
mod moving;
mod opening;
mod pinning;
mod reading;
mod rows;
mod sizes;
mod spans;
#[cfg(test)]
mod tests;
mod writing;

pub use laws::{
    undo_gives_back_the_list_before_an_opening, undo_then_redo_changes_nothing,
    what_was_pinned_is_saved,
};
pub use layers::Layers;
pub use sizes::Sizes;
pub use sl_commands::{How, Started};
