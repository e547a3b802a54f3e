//! All tracks of a looper over one pool of chunks: each a loop with its gain and, while a save pins
//! it, who asked for that save.
//!
//! - `Tracks` is seen as the rules' list of tracks, with how many chunks there are. `Tracks::new`
//!   makes those that a run begins with; `chunks_needed` tells before how many chunks the lists
//!   need.
//! - A verb, a control, a boundary, a pin and a release do to the loops of a target what the rules'
//!   sweep does: one after another by index, each with the chunks that the others leave it
//!   (`sweep`).
//! - `play` has some frames of one loop after another, and adds what each gives to the sums.
//!   `quiet_frames` and `calm_frames` tell for how many frames that is what they do one by one: as
//!   long as no loop takes a chunk, opens or closes a layer or is refused, and as long as no
//!   boundary acts.
//! - A call that changes some tracks leaves the others, and the free chunks and those of all tracks
//!   stay as many together.
//! - Only `Tracks::new` takes memory.
//!
//! Begin with `tracks`. Below it `sweep` has what is done to all in turn, and `track` one loop with
//! its gain. The rules are "The looper", "Room" and "One frame of the looper" in docs/rules.md.
#![tactic(auto)]

mod asker;
mod calm;
mod faces;
mod load;
mod read;
mod saved;
mod span;
mod sweep;
#[cfg(test)]
mod tests;
mod track;
mod tracks;

pub use asker::Asker;
pub use load::chunks_needed;
pub use tracks::Tracks;
