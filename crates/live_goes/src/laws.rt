//! What an engine does behind what has passed.

ghost use Rattle.std.specs.Prelude.{◌≡◌, ◌≢◌, ◌<◌, ◌≤◌, ◌++◌, ℕ, Some, None, length, IsTrue};
ghost use Rattle.sl_commands.specs.declared.Target.{Target};
ghost use Rattle.sl_commands.specs.declared.Command.{Command};
ghost use Rattle.sl_commands.specs.declared.Command.TheVariants.{Release};
ghost use Rattle.sl_commands.specs.declared.Block.{Block};
ghost use Rattle.sl_commands.specs.Commands.{is_release_target, is_outcome};
ghost use Rattle.looper_rules.specs.Entries.{reply};
ghost use Rattle.frame_stamp.specs.Journals.{HasRoom};
ghost use Rattle.engine_steps.specs.Engines.{EngineOf, entry_of, next_block, due_target, took, block_sent};
ghost use Rattle.live_steps.specs.Passed.{Passed};
ghost use Rattle.live_steps.specs.InStep.{StayInStep};
ghost use Rattle.live_goes.specs.Going.{More, no_more, and_then, one_command, one_outcome, one_block, more_passed, put_held, Goes, Stands, Owes};

/// It goes on by nothing.
pub fn nothing_goes_on()
    ensures { (e : EngineOf) → Goes e e no_more }
{}

/// It goes on by this and then by that.
pub fn going_on_composes()
    ensures { (e mid next : EngineOf) → (m n : More) → Goes e mid m → Goes mid next n →
        Goes e next (and_then m n) }
{}

/// It takes a command of OSC or MIDI, and its reply comes behind the others.
pub fn a_command_goes_on()
    ensures { (sender : ℕ) → (c : Command) → (e : EngineOf) → sender < 2 →
        let en = entry_of sender c e in
        Goes e (took en e) (one_command sender c (reply en e.looper)) }
{}

/// It takes the outcome of the save that is due, as its release.
pub fn an_outcome_goes_on()
    ensures { (target : Target) → (o : ℕ) → (e : EngineOf) → due_target e ≡ Some target →
        IsTrue (is_release_target (length e.looper.tracks) target) → IsTrue (is_outcome o) →
        let en = entry_of 2 (Release target o) e in
        Goes e (took en e) (one_outcome o (reply en e.looper)) }
{}

/// It sends a block.
pub fn a_block_goes_on()
    ensures { (block : Block) → (e : EngineOf) → next_block e ≡ Some block →
        Goes e (block_sent e) (one_block block) }
{}

/// A held reply joins those that were put.
pub fn a_held_reply_joins_the_others()
    ensures { (e : EngineOf) → (p : Passed) → StayInStep e p e (put_held p) }
{}

/// Where the outcome of a save is owed, a save is due, and there is room for its release.
pub fn what_is_owed_is_due()
    ensures due { (e : EngineOf) → (p : Passed) → Owes e p → due_target e ≢ None }
    ensures room { (e : EngineOf) → (p : Passed) → (target : Target) → Owes e p →
        due_target e ≡ Some target → HasRoom 2 e.journal }
{}

/// An engine that goes on stands behind more, as long as no sender is beyond its quota.
pub fn an_engine_that_goes_on_stands()
    ensures { (e next : EngineOf) → (p : Passed) → (m : More) → Stands e p → Goes e next m →
        length (p.osc ++ m.osc) ≤ e.journal.quota → length (p.midi ++ m.midi) ≤ e.journal.quota →
        Stands next (more_passed m p) }
{}
