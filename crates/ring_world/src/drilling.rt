//! The drill: a large list of steps, made from a number.

ghost use Rattle.std.specs.Prelude.{◌≡◌, ◌≤◌, [], IfOk, OnOk};
ghost use Rattle.looper_engine.specs.Beginnings.{beginning_of};
ghost use Rattle.looper_rules.specs.Reached.{AreLists};
ghost use Rattle.ring_world.specs.Running.{ran, MayDoAll};
ghost use Rattle.ring_world.specs.Drills.{max_drill_steps, drill_beginning, drill_summary};

use crate::generator::steps_of;
use crate::step::Step;
use crate::summary::Summary;
use crate::world::World;
use looper_engine::Setup;
use sl_base::{MAX_QUOTA, Memory};
use sl_commands::Settings;
use std::alloc::Global;

/// The most steps of a drill.
pub const MAX_DRILL_STEPS: u32 = 1000000;

/// The setup of a drill.
fn setup() -> Setup
    ensures value { beginning_of result [] ≡ drill_beginning }
    ensures lists { AreLists result.settings.strips [] }
{
    Setup {
        settings: Settings::with_defaults(48000, 4),
        chunks: 64,
        quota: MAX_QUOTA,
    }
}

/// Does all these steps.
#[tactic(auto, using(crate::proofs::RunLemmas::next_may, crate::proofs::RunLemmas::rest_may, crate::proofs::RunLemmas::ran_more))]
fn do_all(alloc: Global, world: &mut World, steps: &[Step]) -> Result<(), Memory>
    requires { MayDoAll steps.now world.old.number world.old.lists }
    ensures { OnOk result (world.new.lists ≡ ran steps.now world.old.number world.old.lists) }
{
    for index in 0..steps.len() {
        world.step(alloc, steps[index].duplicate())?;
    }
    Ok(())
}

/// The numbers behind so many steps, made from a number: 1000000 steps at most.
#[tactic(auto, using(crate::proofs::LeaveLemmas::may_drill))]
pub fn drill(alloc: Global, number: u32, count: u32) -> Result<Summary, Memory>
    requires { count ≤ max_drill_steps }
    ensures { IfOk result (λ summary. summary ≡ drill_summary number count) }
{
    let steps = steps_of(alloc, number, count)?;
    let Ok(mut world) = World::new(alloc, &setup()) else {
        return Err(Memory);
    };
    world.number = number;
    do_all(alloc, &mut world, steps.as_slice())?;
    Ok(world.summary())
}
