//! One loop over a pool of chunks that it shares with other loops.
//!
//! - A strip is seen as a loop whose cells are addresses on its tape. With the pool it is the rule
//!   book's loop of frames (`seen`), and each call says what it did to that loop, by the chunks
//!   that the loop reaches (`Did`).
//! - After each call the strip still owns its chunks, reaches as many as before, and every other
//!   strip of the pool is as it was (`OthersStay`).
//! - A new loop may begin with a list (`load`), and `settings` is what a save tells of it.
//! - `give` gives a verb, `boundary_act` lets the waiting one act, `play` has any number of frames
//!   pass one after another.
//! - `quiet` and `quiet_over` tell for how many frames only the first can take a chunk, open or
//!   close a layer, be refused or change the mode. So spans of several loops may be played one loop
//!   after another.
//! - Only `Strip::new` takes memory. What is refused for want of room, layers or seams is counted,
//!   as the rules say.
//!
//! Begin with `strip`, and `parts` behind it; `verbs` has what a verb does, `frames` one frame step
//! by step, `spans` frames in a row and how long a loop is quiet, `laws` what holds of several
//! calls. The rules are "The loop" to "Frames in a row" in docs/rules.md.
#![tactic(auto)]

mod controls;
mod deck;
mod frames;
mod given;
mod laws;
mod loading;
mod modes;
mod parts;
mod saving;
mod spans;
mod strip;
#[cfg(test)]
mod tests;
mod verbs;

pub use given::{Given, Press};
pub use laws::{
    a_recording_is_what_was_played, an_overdub_of_one_turn_is_on_top,
    redo_gives_an_undone_layer_back, undo_takes_an_overdub_back,
};
pub use loop_states::{Face, Mode};
pub use loop_tape::Pool;
pub use strip::Strip;
