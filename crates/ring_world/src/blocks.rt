//! The blocks of saves, put by the engine and taken by the saver.

ghost use Rattle.std.specs.Prelude.{◌≡◌, Ok, IfOk, IfSome, OnOk, option_to_list};
ghost use Rattle.engine_steps.specs.Engines.{next_block};
ghost use Rattle.loop_saver.specs.Keeping.{outcome_in};
ghost use Rattle.ring_world.specs.Rings.{has_room, next_of};
ghost use Rattle.ring_world.specs.Stepping.{put_block_by, take_block_by, Does};
ghost use Rattle.ring_world.specs.Standing.{IsWorld};
ghost use Rattle.ring_world.specs.Saving.{AreKept, KeepsSaves};

use crate::lists::Lists;
use crate::step::Outcome;
use loop_saver::{Saved, Saver};
use sl_base::Memory;
use sl_commands::Block;
use sl_ports::Keeper;
use std::alloc::Global;

/// Puts the engine's next block.
pub fn put_block(lists: &mut Lists) -> Outcome
    ensures { Does (Ok result) lists.old lists.new
        (put_block_by (next_block lists.old.engine) (has_room lists.old.blocks) lists.old) }
{
    let Some(block) = lists.engine.next_block() else {
        return Outcome::Nothing;
    };
    if !lists.blocks.put(block) {
        return Outcome::Full;
    }
    lists.engine.block_sent();
    Outcome::Done
}

/// The outcome of a save that ended, where it is whole. Else memory was wanted.
fn whole_outcome(saved: Saved) -> Result<Option<u8>, Memory>
    ensures value { IfOk result (λ o. option_to_list o ≡ outcome_in saved) }
    ensures whole { IfOk result (λ o. IfSome o (λ outcome. outcome ≡ 0)) }
{
    match saved {
        Saved::Continue => Ok(None),
        Saved::Finished(_, outcome) => if outcome == 0 {
            Ok(Some(0))
        } else {
            Err(Memory)
        },
    }
}

/// Takes a block, and remembers the outcome of a save that has ended. A save that wants memory ends
/// the world.
pub fn take_block<P: Keeper>(
    alloc: Global,
    keeper: &mut P,
    lists: &mut Lists,
    saver: &mut Saver,
) -> Result<Outcome, Memory>
    requires world { IsWorld lists.old }
    requires kept { AreKept P.Keeper keeper.old saver.old lists.old }
    ensures does { Does result lists.old lists.new
        (take_block_by (next_of lists.old.blocks) lists.old) }
    ensures kept { (first : P) → KeepsSaves P.Keeper first keeper.old saver.old lists.old →
        OnOk result (KeepsSaves P.Keeper first keeper.new saver.new lists.new) }
    ensures rate { saver.new.rate ≡ saver.old.rate }
{
    let Some(block) = lists.blocks.first() else {
        return Ok(Outcome::Empty);
    };
    let saved = saver.accept(alloc, keeper, block);
    let outcome = whole_outcome(saved)?;
    lists.remembered.keep(outcome, &mut lists.blocks)?;
    Ok(Outcome::Done)
}
