//! One command, accepted or refused.

ghost use Rattle.std.specs.Prelude.{◌≡◌, ◌<◌, ◌≤◌, [], ◌∷◌, Some, None};
ghost use Rattle.event_rings.specs.Ends.{SamePutRing};
ghost use Rattle.senders.specs.Hearing.{plays, Hears};
ghost use Rattle.senders.specs.Senders.{AreInStep};

use crate::decision::Decision;
use crate::tally::Tally;
use event_rings::Putter;
use osc_paths::ReturnTo;
use sl_commands::Command;
use std::sync::Wait;

/// Puts a command on the ring and accepts it, or refuses it. No memory is taken.
pub(crate) fn play<R: Wait>(
    wait: &R,
    tally: &mut Tally,
    ring: &mut Putter<Command>,
    command: Command,
    answer: Option<ReturnTo>,
) -> Decision
    requires step { AreInStep tally.old ring.old }
    ensures step { AreInStep tally.new ring.new }
    ensures ring { SamePutRing ring.old ring.new }
    ensures heard { Hears ring.old.capacity (plays command answer ∷ []) tally.old tally.new
        (result ∷ []) }
{
    if tally.has_quit() {
        tally.refuse_ended();
        return Decision::Ended;
    }
    let number = tally.count();
    if number >= tally.quota() {
        tally.refuse_used_up();
        return Decision::SessionFull;
    }
    match ring.put(wait, command.duplicate()) {
        Ok(()) => {
            tally.accept(command, answer);
            Decision::Accepted(number)
        }
        Err(_) => {
            tally.refuse_full();
            Decision::RingFull
        }
    }
}
