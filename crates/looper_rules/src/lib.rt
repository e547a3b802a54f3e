//! What the looper does: definitions and worked runs, no code.
//!
//! - A loop is a stack of whole lists of frames, with a mode and a place. `specs/Layers` to
//!   `specs/LoopFrame` say what verbs, presses and frames do to it, `specs/Values` what is read of
//!   it.
//! - A looper is its loops with their gains, saves and chunks. `specs/Looper` to `specs/Frame` say
//!   what entries and frames do to it, `specs/Run` what a whole run gives: output, replies, saves
//!   and the last looper.
//! - `specs/Cuts` and `specs/Pins` have the parts of a run, and what holds a list that is saved.
//! - `specs/States` has what holds of every loop and looper that a run reaches, `specs/Reached`
//!   what makes it last, and `specs/Sharing` how loops share the chunks.
//!
//! Begin with `specs/Layers` and follow the order of `specs/Lib`. The functions here are worked
//! runs, whose clauses compute. What holds of the definitions is proved in the crate `looper_laws`.
//! The rules are docs/rules.md, under the same headings.
#![tactic(auto)]

mod runs_of_controls;
mod runs_of_lengths;
mod runs_of_loops;
mod runs_of_one_loop;

pub use runs_of_controls::{
    a_gain_moves_by_steps, a_long_press_ends_its_overdub, a_recording_waits_for_its_threshold,
    a_short_press_leaves_its_overdub_on, the_dry_gain_moves_by_steps,
};
pub use runs_of_lengths::{
    a_multiply_ends_at_once, a_rounded_multiply_ends_with_its_cycle,
    an_insert_goes_before_the_first_frame, an_insert_goes_before_the_last_frame,
};
pub use runs_of_loops::{
    a_save_holds_its_list, a_session_is_saved_whole, the_last_chunk_goes_to_the_first_loop,
    two_loops_wait_for_one_cycle,
};
pub use runs_of_one_loop::{
    a_loud_negative_overdub_is_clamped, a_loud_overdub_is_clamped,
    a_recording_of_length_0_is_no_layer, a_recording_repeats, an_overdub_goes_backward,
    undo_and_redo_go_between_two_lists, undo_takes_back_half_an_overdub,
};
