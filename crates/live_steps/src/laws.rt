//! Each step of a live looper keeps engine and rings in step.

ghost use Rattle.std.specs.Prelude.{◌≡◌, ◌≢◌, ◌<◌, ◌≤◌, ◌+◌, ◌*◌, ◌++◌, ℕ, List, [], Some, None, length, IsTrue, option_to_list};
ghost use Rattle.sl_base.specs.Sounds.{Sound};
ghost use Rattle.sl_commands.specs.declared.Target.{Target};
ghost use Rattle.sl_commands.specs.declared.Command.{Command};
ghost use Rattle.sl_commands.specs.declared.Command.TheVariants.{Release};
ghost use Rattle.sl_commands.specs.declared.Block.{Block};
ghost use Rattle.sl_commands.specs.Commands.{is_release_target, is_outcome};
ghost use Rattle.sl_commands.specs.Blocks.{may_follow};
ghost use Rattle.looper_rules.specs.Entries.{reply};
ghost use Rattle.looper_rules.specs.SaveBlocks.{ends_in};
ghost use Rattle.looper_rules.specs.Reached.{IsBeginning};
ghost use Rattle.frame_stamp.specs.Journals.{HasRoom, next_seq};
ghost use Rattle.engine_steps.specs.Engines.{EngineOf, Beginning, first_engine, entry_of, waiting, left, next_block, due_target, ClearsSent, took, went_on, put_out, block_sent};
ghost use Rattle.live_steps.specs.Passed.{Passed, none_passed, with_command, with_outcome, with_block, PutsHeld};
ghost use Rattle.live_steps.specs.InStep.{AreInStep, StayInStep, GoOnInStep};

/// They begin in step with nothing.
pub fn engine_and_rings_begin_in_step()
    ensures { (b : Beginning) → IsBeginning b.settings b.chunks b.initial →
        AreInStep b [] [] (first_engine b) none_passed }
{}

/// A command of OSC or MIDI that is taken and given to the engine, whose reply is held.
pub fn a_command_keeps_them_in_step()
    ensures { (sender : ℕ) → (c : Command) → (e : EngineOf) → (p : Passed) →
        sender < 2 → p.held ≡ None →
        let en = entry_of sender c e in
        StayInStep e p (took en e) (with_command sender c (reply en e.looper) p) }
{}

/// An outcome that is taken while a save is due, and given to the engine as its release.
pub fn an_outcome_keeps_them_in_step()
    ensures steps { (target : Target) → (o : ℕ) → (e : EngineOf) → (p : Passed) →
        due_target e ≡ Some target →
        IsTrue (is_release_target (length e.looper.tracks) target) → IsTrue (is_outcome o) →
        p.held ≡ None →
        let en = entry_of 2 (Release target o) e in
        StayInStep e p (took en e) (with_outcome o (reply en e.looper) p) }
    ensures clears { (b : Beginning) → (input output : List Sound) → (target : Target) → (o : ℕ) →
        (e : EngineOf) → (p : Passed) → AreInStep b input output e p → due_target e ≡ Some target →
        ClearsSent (entry_of 2 (Release target o) e) e }
{}

/// Frames that are played.
pub fn frames_keep_them_in_step()
    ensures { (xs : List Sound) → (e : EngineOf) → (p : Passed) →
        GoOnInStep xs (put_out xs e) e p (went_on xs e) p }
{}

/// A held reply that is put.
pub fn a_held_reply_keeps_them_in_step()
    ensures { (e : EngineOf) → (p next : Passed) → PutsHeld p next → StayInStep e p e next }
{}

/// A block that is put.
pub fn a_sent_block_keeps_them_in_step()
    ensures { (b : Block) → (e : EngineOf) → (p : Passed) → next_block e ≡ Some b →
        StayInStep e p (block_sent e) (with_block b p) }
{}

/// There is room in the journal and on the rings, and a block may follow, as long as no more
/// commands of OSC and of MIDI were taken than the quota.
pub fn there_is_room()
    ensures commands { (b : Beginning) → (input output : List Sound) → (e : EngineOf) →
        (p : Passed) → AreInStep b input output e p →
        (next_seq 0 e.journal.entries ≡ length p.osc)
        × (next_seq 1 e.journal.entries ≡ length p.midi) }
    ensures outcomes { (b : Beginning) → (input output : List Sound) → (e : EngineOf) →
        (p : Passed) → (target : Target) → AreInStep b input output e p →
        length p.osc ≤ e.journal.quota → length p.midi ≤ e.journal.quota →
        due_target e ≡ Some target → HasRoom 2 e.journal }
    ensures replies { (b : Beginning) → (input output : List Sound) → (e : EngineOf) →
        (p : Passed) → (quota : ℕ) → AreInStep b input output e p →
        length p.osc ≤ quota → length p.midi ≤ quota →
        length p.replies + length (option_to_list p.held) ≤ 4 * quota }
    ensures blocks { (b : Beginning) → (input output : List Sound) → (e : EngineOf) →
        (p : Passed) → (quota : ℕ) → AreInStep b input output e p →
        length p.osc ≤ quota → length p.midi ≤ quota →
        length p.blocks + length (left e) ≤ 2 * quota * 1048578 }
    ensures follow { (b : Beginning) → (input output : List Sound) → (e : EngineOf) →
        (p : Passed) → (quota bound : ℕ) → (block : Block) → AreInStep b input output e p →
        length p.osc ≤ quota → length p.midi ≤ quota → 2 * quota ≤ bound →
        next_block e ≡ Some block → IsTrue (may_follow p.blocks block bound) }
{}

/// As many saves end in the blocks that were put as outcomes were taken and saves are due. So a
/// save is due where fewer outcomes were taken, and where no block is left and the outcome of each
/// save that ended was taken, every save was released once.
pub fn as_many_saves_end_as_are_answered_or_due()
    ensures ends { (b : Beginning) → (input output : List Sound) → (e : EngineOf) →
        (p : Passed) → AreInStep b input output e p →
        ends_in p.blocks ≡ length p.saver + length e.due }
    ensures owed { (b : Beginning) → (input output : List Sound) → (e : EngineOf) →
        (p : Passed) → AreInStep b input output e p → length p.saver < ends_in p.blocks →
        due_target e ≢ None }
    ensures all { (b : Beginning) → (input output : List Sound) → (e : EngineOf) →
        (p : Passed) → AreInStep b input output e p → e.sending ≡ [] →
        length p.saver ≡ ends_in p.blocks → waiting e ≡ [] }
{}
