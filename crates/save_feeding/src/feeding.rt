//! The blocks of saves, from the engine to the saver.

ghost use Rattle.std.specs.Prelude.{◌≡◌, ◌∷◌, [], ℕ, List, Some, None, OnOk};
ghost use Rattle.loop_saver.specs.SavedFiles.{SavedFile};
ghost use Rattle.loop_saver.specs.Savers.{due_for_all};
ghost use Rattle.loop_saver.specs.Coming.{Feeds, MayEnd};
ghost use Rattle.engine_steps.specs.Engines.{Beginning, next_block, left};
ghost use Rattle.engine_steps.specs.InStep.{SoFar, IsInStep};
ghost use Rattle.save_feeding.specs.Feeding.{EndedBy, FeedsOrStops, IsSomehowInStep, SentOn, WritesAll};

use crate::stopped::Stopped;
use loop_saver::{Saved, Saver};
use looper_engine::Engine;
use sl_commands::Block;
use sl_ports::Keeper;
use std::alloc::Global;

/// Whether a save that ended with this outcome lets the writing go on.
fn ended(outcome: u8) -> Result<(), Stopped>
    ensures { EndedBy outcome result }
{
    match outcome {
        0 => Ok(()),
        1 => Err(Stopped::Writing),
        _ => Err(Stopped::Memory),
    }
}

/// Gives the block that is next to the saver.
#[tactic(auto, using(crate::proofs::FeedLemmas::left_behind, crate::proofs::FeedLemmas::some_left, crate::proofs::FeedLemmas::sent_one, crate::proofs::FeedLemmas::journal_sent))]
fn feed_one<P: Keeper>(
    alloc: Global,
    keeper: &mut P,
    engine: &mut Engine,
    saver: &mut Saver,
    block: &Block,
) -> Result<(), Stopped>
    requires next { next_block engine.old ≡ Some block.now }
    requires step { IsSomehowInStep engine.old }
    requires may { MayEnd saver.old.saving (left engine.old) }
    ensures rate { saver.new.rate ≡ saver.old.rate }
    ensures reads { P.read_faults keeper.new ≡ P.read_faults keeper.old }
    ensures fed { (all : List SavedFile) → (start : P) →
        Feeds P.Keeper saver.old.rate all start keeper.old saver.old.saving (left engine.old) →
        FeedsOrStops P.Keeper saver.old.rate all start keeper.new saver.new.saving (left engine.new)
        result }
    ensures left { left engine.old ≡ block.now ∷ left engine.new }
    ensures sent { (b : Beginning) → (s : SoFar) → IsInStep b s engine.old → SentOn b s engine.new }
    ensures journal { engine.new.journal ≡ engine.old.journal }
{
    engine.block_sent();
    match saver.accept(alloc, keeper, block) {
        Saved::Continue => Ok(()),
        Saved::Finished(_, outcome) => ended(outcome),
    }
}

/// Gives all blocks that are left to the saver, and stops at the end of the first save that isn't
/// written.
pub fn feed<P: Keeper>(
    alloc: Global,
    keeper: &mut P,
    engine: &mut Engine,
    saver: &mut Saver,
) -> Result<(), Stopped>
    requires idle { saver.old.saving ≡ None }
    requires step { IsSomehowInStep engine.old }
    requires may { MayEnd None (left engine.old) }
    ensures rate { saver.new.rate ≡ saver.old.rate }
    ensures reads { P.read_faults keeper.new ≡ P.read_faults keeper.old }
    ensures files { WritesAll P.Keeper (due_for_all saver.old.rate None (left engine.old))
        keeper.old keeper.new result }
    ensures idle { OnOk result (saver.new.saving ≡ None) }
    ensures none { OnOk result (left engine.new ≡ []) }
    ensures sent { (b : Beginning) → (s : SoFar) → IsInStep b s engine.old → SentOn b s engine.new }
    ensures journal { engine.new.journal ≡ engine.old.journal }
{
    'feeding: while let Some(block) = engine.next_block() {
        feed_one(alloc, keeper, engine, saver, &block)?;
    }
    Ok(())
}
