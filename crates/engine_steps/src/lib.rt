//! What an engine does, step by step: definitions and laws, no code.
//!
//! - An engine is a looper with its journal, the number of frames done, and the saves that no
//!   release has answered. It takes commands (`took`), plays frames (`went_on`, `put_out`) and
//!   sends the blocks of saves (`next_block`, `block_sent`).
//! - Each step keeps it in step (`IsInStep`): output, replies and saves so far are those of the run
//!   of its journal over the input so far, and the blocks that were sent, followed by those that
//!   are left, are the blocks of all its saves.
//! - It may take every command of OSC and MIDI at any time, and a release once the blocks of the
//!   oldest unanswered save were all sent. Nothing here knows of periods: frames may be cut in any
//!   way.
//! - Saves are answered one after another: a release of what is due takes exactly the oldest one,
//!   and as many saves end in the blocks that were sent as are answered or due.
//! - With more loops than its journal speaks of, it sounds the same.
//!
//! Begin with `specs/Engines`, then `specs/InStep`; `laws` has what holds. The rules are "The run"
//! and "Saves" in docs/rules.md.
#![tactic(auto)]

mod laws;
mod more_loops;

pub use laws::{
    a_command_leaves_what_is_due, a_release_of_what_is_due_answers_the_oldest_save,
    a_sent_block_changes_nothing_else, a_sent_block_keeps_an_engine_in_step,
    a_taken_entry_keeps_an_engine_in_step, an_engine_begins_in_step,
    an_engine_in_step_keeps_its_looper, an_engine_may_take_commands_and_what_is_due,
    frames_keep_an_engine_in_step, frames_may_be_cut, so_many_come_from_an_engine,
    the_blocks_of_an_engine_may_follow, the_lists_of_waiting_saves_are_pinned,
    the_saves_that_ended_are_answered_or_due, waiting_saves_are_of_different_loops,
};
pub use more_loops::more_loops_sound_the_same;
