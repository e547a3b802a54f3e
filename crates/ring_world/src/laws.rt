//! What holds of steps, and runs that are worked out.

ghost use Rattle.std.specs.Prelude.{◌≡◌, ◌++◌, ◌∷◌, [], ℕ, List, pos, negsuc};
ghost use Rattle.sl_base.specs.Sounds.{Sound};
ghost use Rattle.looper_rules.specs.Reached.{IsBeginning};
ghost use Rattle.engine_steps.specs.Engines.{Beginning, first_engine};
ghost use Rattle.ring_world.specs.declared.lists.Lists.{Lists};
ghost use Rattle.ring_world.specs.declared.step.Step.{Step};
ghost use Rattle.ring_world.specs.declared.step.Step.TheVariants.{Period};
ghost use Rattle.ring_world.specs.Worlds.{first_lists};
ghost use Rattle.ring_world.specs.Stepping.{did, heard, MayDo};
ghost use Rattle.ring_world.specs.Standing.{IsInStep};
ghost use Rattle.ring_world.specs.Running.{ran, outcomes_of, all_heard, MayDoAll};
ghost use Rattle.ring_world.specs.Summaries.{summary_of};
ghost use Rattle.ring_world.specs.Generating.{steps_of};
ghost use Rattle.ring_world.specs.Drills.{drill_summary};
ghost use Rattle.ring_world.specs.WorkedRuns.{one_loop_lists, save_steps, save_outcomes, save_replies, narrow_lists, held_steps, held_outcomes, held_replies};

/// A world begins in step with nothing.
pub fn a_world_begins_in_step()
    ensures { (b : Beginning) → IsBeginning b.settings b.chunks b.initial →
        IsInStep b [] (first_lists (first_engine b)) }
{}

/// Each step keeps it in step, with what the step plays behind what was played.
pub fn each_step_keeps_a_world_in_step()
    ensures { (b : Beginning) → (input : List Sound) → (step : Step) → (number : ℕ) → (w : Lists) →
        MayDo step w → IsInStep b input w →
        IsInStep b (input ++ heard step number w) (did step number w).lists }
{}

/// So does every list of steps.
pub fn every_list_of_steps_keeps_a_world_in_step()
    ensures { (b : Beginning) → (input : List Sound) → (steps : List Step) → (number : ℕ) →
        (w : Lists) → MayDoAll steps number w → IsInStep b input w →
        IsInStep b (input ++ all_heard steps number w) (ran steps number w) }
{}

/// One loop is recorded and saved while it plays: 30 steps, with their outcomes, the replies that
/// were taken, and the numbers.
pub fn a_save_passes_the_rings()
    ensures outcomes { outcomes_of save_steps 0 one_loop_lists ≡ save_outcomes }
    ensures replies { (ran save_steps 0 one_loop_lists).replies.taken ≡ save_replies }
    ensures numbers { summary_of (ran save_steps 0 one_loop_lists) ≡ record {
      accepted = 5;
      full = 0;
      stamped = 6;
      frames = 6;
      replies = 2;
      saves = 1;
      refused = 0;
      left = negsuc 6242;
    } }
{}

/// A ring of one reply is full: the next reply is held, and the engine takes nothing until that is
/// put.
pub fn a_held_reply_holds_the_engine()
    ensures outcomes { outcomes_of held_steps 0 narrow_lists ≡ held_outcomes }
    ensures replies { (ran held_steps 0 narrow_lists).replies.taken ≡ held_replies }
    ensures numbers { summary_of (ran held_steps 0 narrow_lists) ≡ record {
      accepted = 2;
      full = 1;
      stamped = 2;
      frames = 0;
      replies = 2;
      saves = 0;
      refused = 0;
      left = pos 0;
    } }
{}

/// The one step that 2 makes, the numbers behind it, and those behind 100 steps that 4081367803
/// makes.
pub fn a_number_makes_its_steps()
    ensures step { steps_of 2 1 ≡ Period 42 ∷ [] }
    ensures first { drill_summary 2 1 ≡ record {
      accepted = 0;
      full = 0;
      stamped = 0;
      frames = 42;
      replies = 0;
      saves = 0;
      refused = 0;
      left = pos 0;
    } }
    ensures numbers { drill_summary 4081367803 100 ≡ record {
      accepted = 29;
      full = 0;
      stamped = 17;
      frames = 546;
      replies = 1;
      saves = 0;
      refused = 0;
      left = pos 0;
    } }
{}
