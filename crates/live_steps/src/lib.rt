//! The engine between its rings, step by step: definitions and laws, no code.
//!
//! - `Passed` is what the engine's side knows of the five rings: the commands of OSC and MIDI and
//!   the outcomes of saves that were taken, the replies and blocks that were put, and the reply
//!   that is held because its ring was full.
//! - Engine and rings are in step (`AreInStep`) where output, replies, saves and blocks are those
//!   of the run of the journal, the commands that were taken stand in the journal in order, and
//!   each outcome that was taken released the oldest unanswered save.
//! - Each step keeps it: a command, an outcome, frames, a held reply, a block. Steps compose, since
//!   the relation speaks of all frames that ever went in and came out.
//! - As long as no more commands of OSC and of MIDI were taken than the quota, journal and rings
//!   have room, and the next block may follow.
//!
//! Begin with `specs/Passed`, then `specs/InStep`; `laws` has what holds. The rules are "The engine
//! between its rings" in docs/rules.md.
#![tactic(auto)]

mod laws;

pub use laws::{
    a_command_keeps_them_in_step, a_held_reply_keeps_them_in_step, a_sent_block_keeps_them_in_step,
    an_outcome_keeps_them_in_step, as_many_saves_end_as_are_answered_or_due,
    engine_and_rings_begin_in_step, frames_keep_them_in_step, there_is_room,
};
