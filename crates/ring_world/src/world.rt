//! The world.

ghost use Rattle.std.specs.Prelude.{◌≡◌, ◌≢◌, ◌≤◌, ◌++◌, [], List, Err, is_err, IfOk, OnOk, IsErr, IsTrue, IsFalse};
ghost use Rattle.sl_base.specs.Sounds.{Sound};
ghost use Rattle.sl_base.specs.Limits.{max_chunks, max_quota};
ghost use Rattle.looper_rules.specs.Reached.{AreLists};
ghost use Rattle.engine_steps.specs.Engines.{Beginning};
ghost use Rattle.whole_looper.specs.declared.fault.BeginFault.TheVariants.{Limit};
ghost use Rattle.looper_engine.specs.Beginnings.{beginning_of};
ghost use Rattle.ring_world.specs.Worlds.{first_world, no_files};
ghost use Rattle.ring_world.specs.Stepping.{did, heard, Does, MayDo};
ghost use Rattle.ring_world.specs.Standing.{IsInStep, IsWorld};
ghost use Rattle.ring_world.specs.Saving.{AreKept, KeepsSaves};
ghost use Rattle.ring_world.specs.Summaries.{summary_of};

use crate::blocks::{put_block, take_block};
use crate::lists::Lists;
use crate::plays::play;
use crate::puts::{put_held, put_midi, put_osc, put_outcome};
use crate::step::{Outcome, Step};
use crate::summary::{Summary, summary_of};
use crate::takes::{take_midi, take_osc, take_reply, take_saver};
use loop_saver::Saver;
use looper_engine::{Engine, EngineFault, Setup};
use sl_base::Memory;
use sl_commands::Initial;
use sl_ports::{Keeper, MemKeeper};
use std::alloc::Global;
use std::marker::Model;

/// A whole session on one thread: an engine with its rings, and a saver that writes to a keeper in
/// memory.
#[derive(Drop)]
pub struct World {
    /// What the input is made from. It is 0 in a new world.
    pub number: u32,
    lists: Lists,
    saver: Saver,
    keeper: MemKeeper,
    spent: bool,
}

impl Model for World {
    ghost use Rattle.std.specs.Prelude.{IsFalse};
    ghost use Rattle.ring_world.specs.Worlds.{WorldOf, no_files};
    ghost use Rattle.ring_world.specs.Standing.{IsWorld};
    ghost use Rattle.ring_world.specs.Saving.{KeepsSaves};

    ghost Value = { WorldOf };

    ghost view = { λ w.
        record {
          number = w.number;
          lists = w.lists;
          saver = w.saver;
          keeper = w.keeper;
          spent = w.spent;
        } };

    ghost invariant = { λ w. IsWorld w.lists × (IsFalse w.spent →
        KeepsSaves ⟦<MemKeeper as Keeper>⟧ no_files w.keeper w.saver w.lists) };
}

/// One step, in a world of this number.
fn one_step<P: Keeper>(
    alloc: Global,
    number: u32,
    keeper: &mut P,
    lists: &mut Lists,
    saver: &mut Saver,
    step: Step,
) -> Result<Outcome, Memory>
    requires may { MayDo step lists.old }
    requires world { IsWorld lists.old }
    requires kept { AreKept P.Keeper keeper.old saver.old lists.old }
    ensures does { Does result lists.old lists.new (did step number lists.old) }
    ensures kept { (first : P) → KeepsSaves P.Keeper first keeper.old saver.old lists.old →
        OnOk result (KeepsSaves P.Keeper first keeper.new saver.new lists.new) }
{
    match step {
        Step::PutOsc(command) => Ok(put_osc(lists, command)),
        Step::PutMidi(command) => Ok(put_midi(lists, command)),
        Step::TakeOsc => take_osc(lists),
        Step::TakeMidi => take_midi(lists),
        Step::TakeSaver => take_saver(lists),
        Step::Period(frames) => play(alloc, number, lists, frames),
        Step::ReplyTake => take_reply(lists),
        Step::BlockPut => Ok(put_block(lists)),
        Step::BlockTake => take_block(alloc, keeper, lists, saver),
        Step::ReplyPut => Ok(put_held(lists)),
        Step::PutSaver => Ok(put_outcome(lists)),
    }
}

impl World {
    /// A world before all steps, over loops that begin empty.
    pub fn new(alloc: Global, setup: &Setup) -> Result<World, EngineFault>
        requires lists { AreLists setup.now.settings.strips [] }
        requires chunks { setup.now.chunks ≤ max_chunks }
        requires some { 1 ≤ setup.now.quota }
        requires quota { setup.now.quota ≤ max_quota }
        ensures value { IfOk result (λ world. world ≡ first_world (beginning_of setup.now [])) }
        ensures limit { result ≢ Err Limit }
    {
        let engine = Engine::new(alloc, setup, &Initial::new(alloc))?;
        let Ok(lists) = Lists::new(alloc, engine) else {
            return Err(EngineFault::Memory);
        };
        Ok(World {
            number: 0,
            lists,
            saver: Saver::new(setup.settings.rate),
            keeper: MemKeeper::new(alloc, Vec::new(alloc), Vec::new(alloc)),
            spent: false,
        })
    }

    /// Does one step. `Memory` leaves the lists as they were, and every later step answers it too.
    #[tactic(auto, using(crate::proofs::WorldLemmas::world_kept, crate::proofs::WorldLemmas::in_step_on))]
    pub fn step(&mut self, alloc: Global, step: Step) -> Result<Outcome, Memory>
        requires may { MayDo step self.old.lists }
        ensures does { Does result self.old.lists self.new.lists
            (did step self.old.number self.old.lists) }
        ensures in_step { (b : Beginning) → (input : List Sound) →
            IsInStep b input self.old.lists → OnOk result
            (IsInStep b (input ++ heard step self.old.number self.old.lists) self.new.lists) }
        ensures spent { self.new.spent ≡ is_err result }
        ensures later { IsTrue self.old.spent → IsErr result }
        ensures number { self.new.number ≡ self.old.number }
    {
        if self.spent {
            return Err(Memory);
        }
        let result = one_step(
            alloc,
            self.number,
            &mut self.keeper,
            &mut self.lists,
            &mut self.saver,
            step,
        );
        self.spent = result.is_err();
        result
    }

    /// What always holds: engine and rings are in step with something, and the saver has accepted
    /// exactly the blocks that were taken.
    pub fn facts(&self)
        ensures world { IsWorld self.now.lists }
        ensures saves { IsFalse self.now.spent →
            KeepsSaves ⟦<MemKeeper as Keeper>⟧ no_files self.now.keeper self.now.saver
            self.now.lists }
    {
        let _number = self.number;
    }

    /// The numbers. No memory is taken.
    pub fn summary(&self) -> Summary
        ensures { result ≡ summary_of self.now.lists }
    {
        summary_of(&self.lists)
    }
}
