//! Putting commands, replies and outcomes on their rings.

ghost use Rattle.std.specs.Prelude.{◌≡◌, Ok, slice_get};
ghost use Rattle.ring_world.specs.declared.step.Outcome.TheVariants.{Full};
ghost use Rattle.ring_world.specs.Rings.{has_room};
ghost use Rattle.ring_world.specs.Stepping.{put_osc_by, put_midi_by, put_held_by, put_outcome_by, counted_full, Does};

use crate::lists::Lists;
use crate::step::Outcome;
use sl_commands::Command;

/// Counts a command that found its ring full.
fn count_full(lists: &mut Lists) -> Outcome
    ensures value { result ≡ Full }
    ensures lists { lists.new ≡ (counted_full lists.old).lists }
{
    lists.full = lists.full.saturating_add(1);
    Outcome::Full
}

/// Puts a command of sender 0.
pub fn put_osc(lists: &mut Lists, command: Command) -> Outcome
    ensures { Does (Ok result) lists.old lists.new
        (put_osc_by (has_room lists.old.osc) command lists.old) }
{
    if lists.osc.put(command) {
        Outcome::Done
    } else {
        count_full(lists)
    }
}

/// Puts a command of sender 1.
pub fn put_midi(lists: &mut Lists, command: Command) -> Outcome
    ensures { Does (Ok result) lists.old lists.new
        (put_midi_by (has_room lists.old.midi) command lists.old) }
{
    if lists.midi.put(command) {
        Outcome::Done
    } else {
        count_full(lists)
    }
}

/// Puts the held reply.
pub fn put_held(lists: &mut Lists) -> Outcome
    ensures { Does (Ok result) lists.old lists.new
        (put_held_by lists.old.held (has_room lists.old.replies) lists.old) }
{
    let Some(reply) = lists.held else {
        return Outcome::Nothing;
    };
    if !lists.replies.put(reply) {
        return Outcome::Full;
    }
    lists.held = None;
    Outcome::Done
}

/// Puts the oldest remembered outcome.
pub fn put_outcome(lists: &mut Lists) -> Outcome
    ensures { Does (Ok result) lists.old lists.new
        (put_outcome_by (slice_get lists.old.remembered 0) (has_room lists.old.saver) lists.old) }
{
    let Some(outcome) = lists.remembered.first() else {
        return Outcome::Nothing;
    };
    if !lists.saver.put(outcome) {
        return Outcome::Full;
    }
    lists.remembered.forget();
    Outcome::Done
}
