//! What the engine takes from its rings, and what is taken of its replies.

ghost use Rattle.std.specs.Prelude.{◌≡◌};
ghost use Rattle.ring_world.specs.Rings.{next_of, passed_on};
ghost use Rattle.ring_world.specs.Stepping.{replied, take_by, take_outcome_by, take_reply_by, Does};
ghost use Rattle.ring_world.specs.Standing.{IsWorld};

use crate::lists::Lists;
use crate::step::Outcome;
use sl_base::Memory;
use sl_commands::{Command, MIDI, OSC, Reply, SAVER};

/// Puts a reply on its ring, or holds it where there is no room.
fn reply_with(lists: &mut Lists, answer: Option<Reply>)
    ensures { lists.new ≡ replied answer lists.old }
{
    if let Some(reply) = answer {
        if !lists.replies.put(reply) {
            lists.held = Some(reply);
        }
    }
}

/// Takes a command of sender 0.
pub fn take_osc(lists: &mut Lists) -> Result<Outcome, Memory>
    requires { IsWorld lists.old }
    ensures { Does result lists.old lists.new
        (take_by 0 lists.old.held (next_of lists.old.osc) lists.old
        (record lists.old { osc = passed_on lists.old.osc })) }
{
    if lists.held.is_some() {
        return Ok(Outcome::Held);
    }
    let Some(command) = lists.osc.first() else {
        return Ok(Outcome::Empty);
    };
    let command = command.duplicate();
    lists.osc.pass()?;
    let answer = lists.engine.take(OSC, command);
    reply_with(lists, answer);
    Ok(Outcome::Done)
}

/// Takes a command of sender 1.
pub fn take_midi(lists: &mut Lists) -> Result<Outcome, Memory>
    requires { IsWorld lists.old }
    ensures { Does result lists.old lists.new
        (take_by 1 lists.old.held (next_of lists.old.midi) lists.old
        (record lists.old { midi = passed_on lists.old.midi })) }
{
    if lists.held.is_some() {
        return Ok(Outcome::Held);
    }
    let Some(command) = lists.midi.first() else {
        return Ok(Outcome::Empty);
    };
    let command = command.duplicate();
    lists.midi.pass()?;
    let answer = lists.engine.take(MIDI, command);
    reply_with(lists, answer);
    Ok(Outcome::Done)
}

/// Takes an outcome, as the release of the save that is due.
pub fn take_saver(lists: &mut Lists) -> Result<Outcome, Memory>
    requires { IsWorld lists.old }
    ensures { Does result lists.old lists.new
        (take_outcome_by lists.old.held (next_of lists.old.saver) lists.old
        (record lists.old { saver = passed_on lists.old.saver })) }
{
    if lists.held.is_some() {
        return Ok(Outcome::Held);
    }
    let Some(outcome) = lists.saver.first() else {
        return Ok(Outcome::Empty);
    };
    let outcome = *outcome;
    match lists.engine.due() {
        None => unreachable!(),
        Some(target) => {
            lists.saver.pass()?;
            let answer = lists.engine.take(SAVER, Command::Release(target, outcome));
            reply_with(lists, answer);
            Ok(Outcome::Done)
        }
    }
}

/// Takes a reply.
pub fn take_reply(lists: &mut Lists) -> Result<Outcome, Memory>
    ensures { Does result lists.old lists.new
        (take_reply_by (next_of lists.old.replies) lists.old) }
{
    if lists.replies.first().is_none() {
        return Ok(Outcome::Empty);
    }
    lists.replies.pass()?;
    Ok(Outcome::Done)
}
