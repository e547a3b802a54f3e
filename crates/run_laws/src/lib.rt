//! What holds of whole runs: laws of `run` in `looper_rules`, each the contract of a function with
//! an empty body.
//!
//! - `cut_runs`: a run may be cut into two at any frame and at any entry.
//! - `replies`: one frame comes out for each that goes in, and replies answer gets and saves.
//! - `saved_lists`: a save has the lists at its entry's place, whatever follows.
//! - `sent_saves`: each save is one whose blocks may follow, and blocks that may follow are those
//!   of saves.
//! - `standing_pins`: the pins that stand are those of the saves that no release has answered.
//!
//! What each step keeps of a looper stands in looper_laws below. `specs/` has the words that only
//! these laws need. The proofs stand in `proofs/`, a folder a notion. The rules are docs/rules.md,
//! and docs/proved/run_laws.md says which folder carries which law.
#![tactic(auto)]

mod cut_runs;
mod replies;
mod saved_lists;
mod sent_saves;
mod standing_pins;

pub use cut_runs::{
    a_run_cut_at_a_frame_is_the_run, a_run_cut_at_an_entry_is_the_run,
    a_run_cut_between_entries_is_the_run, a_run_goes_on_where_its_first_frames_left_off,
    entries_to_come_change_nothing_before,
};
pub use replies::{
    a_frame_comes_out_for_each_that_goes_in, a_get_or_a_save_is_answered_once,
    an_entry_gives_at_most_one_reply_and_one_save,
    each_is_answered_once_where_no_save_is_unanswered,
    each_reply_answers_a_get_or_a_save_before_it, gets_are_answered_in_their_order,
};
pub use saved_lists::{
    a_pin_holds_its_list_until_the_release, a_save_is_what_its_entry_met, no_save_changes_later,
    saves_are_numbered_in_order, saves_are_those_at_their_entries,
};
pub use sent_saves::{
    a_save_ends_with_its_last_block, a_save_has_so_many_blocks_at_most,
    blocks_that_may_follow_begin_those_of_saves, each_save_of_a_run_may_be_sent,
    the_blocks_of_saves_may_follow, the_settings_of_a_looper_lie_in_their_ranges,
};
pub use standing_pins::{
    a_frame_leaves_all_holds, a_release_takes_the_pins_that_it_names,
    a_worked_run_leaves_a_save_unanswered_until_its_release, standing_pins_are_of_unanswered_saves,
    unanswered_saves_are_of_different_loops,
};
