//! What holds of every loop and looper under the rules: laws of the definitions in `looper_rules`,
//! each the contract of a function with an empty body.
//!
//! - `reached`: what always holds of every loop and looper that a run reaches, and what each step
//!   keeps of it.
//! - `other_layers`: nothing changes a layer but the current one.
//! - `undoing`: undo and redo give back what stood before.
//! - `shared_room`: loops share the chunks.
//! - `spans`: a span of frames may be played one loop after another.
//!
//! What holds of whole runs stands in run_laws above. `specs/` has the words that only these laws
//! need. The proofs stand in `proofs/`, a folder a notion. The rules are docs/rules.md, and
//! docs/proved/looper_laws.md says which folder carries which law.
#![tactic(auto)]

mod other_layers;
mod reached;
mod shared_room;
mod spans;
mod undoing;

pub use other_layers::{
    a_frame_outside_a_writing_mode_keeps_every_list, a_get_changes_nothing,
    a_refused_opening_is_counted_alone, only_the_current_layer_changes,
};
pub use reached::{
    a_closing_keeps_the_loop, a_frame_keeps_the_loop, a_frame_keeps_the_looper,
    a_kept_loop_is_a_loop, a_kept_looper_is_a_looper, a_kept_looper_selects_one_of_its_loops,
    a_loop_of_addresses_is_kept, a_run_begins_with_a_looper, a_run_keeps_its_rate_and_its_chunks,
    a_verb_keeps_the_loop, an_entry_keeps_the_looper, an_opening_keeps_the_loop,
    each_state_of_a_run_is_a_looper,
};
pub use shared_room::{
    a_reached_looper_shares_its_chunks, the_room_that_passes_on_is_what_the_others_leave,
    what_is_done_to_a_loop_stays_in_reach,
};
pub use spans::{
    a_span_is_its_frames, frames_before_the_next_boundary_are_calm,
    frames_without_a_waiting_verb_are_calm,
};
pub use undoing::{
    a_closed_layer_keeps_its_list, a_verb_leaves_wait_start_first, a_writing_verb_opens_a_loop,
    redo_gives_back_the_layer_that_undo_moved, undo_and_redo_move_one_layer,
    undo_gives_back_the_list_before_an_opening,
};
