//! Each step of an engine keeps it in step with the run of its journal.

ghost use Rattle.std.specs.Prelude.{◌≡◌, ◌<◌, ◌≤◌, ◌+◌, ◌*◌, ◌++◌, ℕ, List, [], Some, length, take, option_to_list, IsTrue};
ghost use Rattle.sl_base.specs.Sounds.{Sound};
ghost use Rattle.sl_commands.specs.declared.Target.{Target};
ghost use Rattle.sl_commands.specs.declared.Block.{Block};
ghost use Rattle.sl_commands.specs.declared.Command.TheVariants.{Release};
ghost use Rattle.sl_commands.specs.declared.Entry.{Entry};
ghost use Rattle.sl_commands.specs.Commands.{is_release_target, is_outcome};
ghost use Rattle.sl_commands.specs.Blocks.{may_follow, may_all_follow};
ghost use Rattle.looper_rules.specs.Saves.{Save};
ghost use Rattle.looper_rules.specs.SaveBlocks.{blocks_for_all, ends_in};
ghost use Rattle.looper_rules.specs.Reached.{IsBeginning, KeepsLooper};
ghost use Rattle.looper_rules.specs.Entries.{reply, save};
ghost use Rattle.looper_rules.specs.Unanswered.{holds_of, HoldPins};
ghost use Rattle.run_laws.specs.Apart.{AreAllApart};
ghost use Rattle.frame_stamp.specs.Journals.{next_seq};
ghost use Rattle.engine_steps.specs.Engines.{EngineOf, Beginning, first_engine, entry_of, waiting, left, next_block, due_target, ClearsSent, took, went_on, put_out, block_sent};
ghost use Rattle.engine_steps.specs.InStep.{SoFar, IsInStep, nothing, with_taken, with_frames, with_block};
ghost use Rattle.engine_steps.specs.Answering.{AnswersOldest, OnlySends};

/// An engine begins in step with nothing.
pub fn an_engine_begins_in_step()
    ensures { (b : Beginning) → IsInStep b nothing (first_engine b) }
{}

/// An entry of the moment, with its sender's next number, that answers no save whose blocks weren't
/// all sent keeps it in step: its reply and its save come behind those before.
pub fn a_taken_entry_keeps_an_engine_in_step()
    ensures { (b : Beginning) → (s : SoFar) → (en : Entry) → (e : EngineOf) → en.frame ≡ e.frames →
        en.seq ≡ next_seq en.sender e.journal.entries → ClearsSent en e → IsInStep b s e →
        IsInStep b (with_taken (reply en e.looper) (save en e.looper) s) (took en e) }
{}

/// Frames keep it in step.
pub fn frames_keep_an_engine_in_step()
    ensures { (b : Beginning) → (s : SoFar) → (xs : List Sound) → (e : EngineOf) → IsInStep b s e →
        IsInStep b (with_frames xs (put_out xs e) s) (went_on xs e) }
{}

/// So does a block that was sent. Where none is left nothing changes.
pub fn a_sent_block_keeps_an_engine_in_step()
    ensures { (b : Beginning) → (s : SoFar) → (e : EngineOf) → IsInStep b s e →
        IsInStep b (with_block (next_block e) s) (block_sent e) }
{}

/// What may be taken: every command of OSC and MIDI, a release of the save that is due, and
/// anything where no block is left.
pub fn an_engine_may_take_commands_and_what_is_due()
    ensures commands { (en : Entry) → (e : EngineOf) → en.sender < 2 → ClearsSent en e }
    ensures rest { (en : Entry) → (e : EngineOf) → e.sending ≡ [] → ClearsSent en e }
    ensures due { (b : Beginning) → (s : SoFar) → (en : Entry) → (e : EngineOf) →
        (target : Target) → (outcome : ℕ) →
        IsBeginning b.settings b.chunks b.initial → IsInStep b s e → due_target e ≡ Some target →
        en.command ≡ Release target outcome → ClearsSent en e }
{}

/// The blocks that were sent may follow one another, and so may those that are left behind them, on
/// a ring for as many saves. So the next one may follow those that were sent.
pub fn the_blocks_of_an_engine_may_follow()
    ensures next { (b : Beginning) → (s : SoFar) → (e : EngineOf) → (bound : ℕ) → (block : Block) →
        IsBeginning b.settings b.chunks b.initial →
        IsInStep b s e → length s.saves ≤ bound → next_block e ≡ Some block →
        IsTrue (may_follow s.sent block bound) }
    ensures all { (b : Beginning) → (s : SoFar) → (e : EngineOf) → (bound : ℕ) →
        IsBeginning b.settings b.chunks b.initial →
        IsInStep b s e → length s.saves ≤ bound →
        IsTrue (may_all_follow [] (s.sent ++ left e) bound) }
{}

/// The looper of an engine keeps what always holds, counts the saves so far, and has the first rate
/// and number of chunks.
pub fn an_engine_in_step_keeps_its_looper()
    ensures kept { (b : Beginning) → (s : SoFar) → (e : EngineOf) →
        IsBeginning b.settings b.chunks b.initial → IsInStep b s e →
        KeepsLooper e.frames e.looper }
    ensures saves { (b : Beginning) → (s : SoFar) → (e : EngineOf) →
        IsBeginning b.settings b.chunks b.initial → IsInStep b s e →
        e.looper.saves ≡ length s.saves }
{}

/// Frames over a list are frames over its parts, however it is cut.
pub fn frames_may_be_cut()
    ensures engine { (xs ys : List Sound) → (e : EngineOf) →
        went_on (xs ++ ys) e ≡ went_on ys (went_on xs e) }
    ensures output { (xs ys : List Sound) → (e : EngineOf) →
        put_out (xs ++ ys) e ≡ put_out xs e ++ put_out ys (went_on xs e) }
{}

/// The lists of the saves that no release has answered are those that the pins hold: each as it was
/// at its entry, whatever was entered and played since.
pub fn the_lists_of_waiting_saves_are_pinned()
    ensures { (b : Beginning) → (s : SoFar) → (e : EngineOf) →
        IsBeginning b.settings b.chunks b.initial → IsInStep b s e →
        HoldPins (waiting e) (holds_of e.looper) }
{}

/// The saves that no release has answered are of different loops, and a session's is alone.
pub fn waiting_saves_are_of_different_loops()
    ensures { (b : Beginning) → (s : SoFar) → (e : EngineOf) →
        IsBeginning b.settings b.chunks b.initial → IsInStep b s e → AreAllApart (waiting e) }
{}

/// A valid release of the target that is due takes exactly the oldest unanswered save, leaves those
/// whose blocks are still sent, and gives its reply.
pub fn a_release_of_what_is_due_answers_the_oldest_save()
    ensures { (b : Beginning) → (s : SoFar) → (target : Target) → (outcome : ℕ) →
        (e : EngineOf) → IsBeginning b.settings b.chunks b.initial → IsInStep b s e →
        due_target e ≡ Some target →
        IsTrue (is_release_target (length e.looper.tracks) target) → IsTrue (is_outcome outcome) →
        AnswersOldest target (entry_of 2 (Release target outcome) e) e }
{}

/// A command of OSC or MIDI answers no save, and the one that it makes waits behind the others.
pub fn a_command_leaves_what_is_due()
    ensures due { (en : Entry) → (e : EngineOf) → en.sender < 2 → (took en e).due ≡ e.due }
    ensures waiting { (en : Entry) → (e : EngineOf) → en.sender < 2 →
        waiting (took en e) ≡ waiting e ++ option_to_list (save en e.looper) }
{}

/// A block that is sent leaves the looper, the journal, the frames and the saves that wait.
pub fn a_sent_block_changes_nothing_else()
    ensures { (e : EngineOf) → OnlySends e (block_sent e) }
{}

/// Where releases answered the first saves one after another, what was sent is the blocks of these
/// and of those that are due, and a part of the next one's. So as many saves end in it as are
/// answered or due.
pub fn the_saves_that_ended_are_answered_or_due()
    ensures sent { (b : Beginning) → (s : SoFar) → (e : EngineOf) → (answered : List Save) →
        IsInStep b s e → s.saves ≡ answered ++ waiting e →
        s.sent ≡ blocks_for_all (answered ++ e.due) ++ take e.part (blocks_for_all e.sending) }
    ensures ends { (b : Beginning) → (s : SoFar) → (e : EngineOf) → (answered : List Save) →
        IsInStep b s e → s.saves ≡ answered ++ waiting e →
        ends_in s.sent ≡ length answered + length e.due }
{}

/// How many there are at most: replies as entries, saves as entries of OSC and MIDI, and 1048578
/// blocks a save.
pub fn so_many_come_from_an_engine()
    ensures replies { (b : Beginning) → (s : SoFar) → (e : EngineOf) → IsInStep b s e →
        length s.replies ≤ length e.journal.entries }
    ensures saves { (b : Beginning) → (s : SoFar) → (e : EngineOf) → IsInStep b s e →
        length s.saves ≤ next_seq 0 e.journal.entries + next_seq 1 e.journal.entries }
    ensures blocks { (b : Beginning) → (s : SoFar) → (e : EngineOf) →
        IsBeginning b.settings b.chunks b.initial → IsInStep b s e →
        length s.sent + length (left e) ≤ length s.saves * 1048578 }
{}
