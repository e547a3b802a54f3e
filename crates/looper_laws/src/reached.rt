//! What holds of every loop and every looper that a run reaches, and what each step keeps of it.

ghost use Rattle.std.specs.Prelude.{ℕ, ◌+◌, true, IsTrue, List, [], length};
ghost use Rattle.sl_base.specs.Sounds.{Sound};
ghost use Rattle.sl_commands.specs.declared.Verb.{Verb};
ghost use Rattle.sl_commands.specs.declared.Mode.{Mode};
ghost use Rattle.sl_commands.specs.declared.Entry.{Entry};
ghost use Rattle.sl_commands.specs.Settings.{LooperSettings, default_settings, is_loop_count, is_rate};
ghost use Rattle.looper_rules.specs.Opening.{opening};
ghost use Rattle.looper_rules.specs.Loop.{Loop, is_writing};
ghost use Rattle.looper_rules.specs.Closing.{closed};
ghost use Rattle.looper_rules.specs.Starting.{records, starts};
ghost use Rattle.looper_rules.specs.Verbs.{acts};
ghost use Rattle.looper_rules.specs.Presses.{given, waiting_acts};
ghost use Rattle.looper_rules.specs.LoopFrame.{ready, after};
ghost use Rattle.looper_rules.specs.Looper.{Looper};
ghost use Rattle.looper_rules.specs.Entries.{applied};
ghost use Rattle.looper_rules.specs.Frame.{at_boundaries, framed_from, framed};
ghost use Rattle.looper_rules.specs.Run.{entered, begun, run, start};
ghost use Rattle.looper_rules.specs.Cuts.{run_from};
ghost use Rattle.looper_laws.specs.Selecting.{SelectsALoop};
ghost use Rattle.looper_rules.specs.States.{AreClosed, ArePlayable, IsLoop, IsLooper};
ghost use Rattle.looper_rules.specs.Reached.{Unchanged, IsLayering, KeepsLoops, Keeps, KeepsLooper, SameRateAndChunks, IsBeginning};

/// What a loop keeps is more than what always holds of it.
pub fn a_kept_loop_is_a_loop()
    ensures { (a : Unchanged) (l : Loop Sound) → Keeps a l → IsLoop l }
{}

/// A loop keeps it where a layer is opened over closed ones.
pub fn an_opening_keeps_the_loop()
    ensures recorded { (a : Unchanged) (l : Loop Sound) → Keeps a l → AreClosed l.stack.layers →
        Keeps a (records (opening a.reach true l.stack) l) }
    ensures copied { (a : Unchanged) (mode : Mode) (l : Loop Sound) → Keeps a l →
        ArePlayable l.stack.layers l.deck.pos → IsLayering mode l.deck.backward →
        Keeps a (starts mode a.reach l) }
{}

/// It keeps it where its open layer is closed.
pub fn a_closing_keeps_the_loop()
    ensures { (a : Unchanged) (l : Loop Sound) → Keeps a l → IsTrue (is_writing l.deck.mode) →
        Keeps a (closed l) }
{}

/// Every verb keeps it, in every mode, and a verb that is given or has waited.
pub fn a_verb_keeps_the_loop()
    ensures acts { (verb : Verb) → KeepsLoops (acts verb) }
    ensures given { (verb : Verb) → KeepsLoops (given verb) }
    ensures waited { KeepsLoops waiting_acts }
{}

/// All this holds too of a loop whose cells are addresses on a tape.
pub fn a_loop_of_addresses_is_kept()
    ensures recorded { (a : Unchanged) (l : Loop ℕ) → Keeps a l → AreClosed l.stack.layers →
        Keeps a (records (opening a.reach true l.stack) l) }
    ensures copied { (a : Unchanged) (mode : Mode) (l : Loop ℕ) → Keeps a l →
        ArePlayable l.stack.layers l.deck.pos → IsLayering mode l.deck.backward →
        Keeps a (starts mode a.reach l) }
    ensures closing { (a : Unchanged) (l : Loop ℕ) → Keeps a l → IsTrue (is_writing l.deck.mode) →
        Keeps a (closed l) }
    ensures acts { (verb : Verb) (a : Unchanged) (l : Loop ℕ) → Keeps a l →
        Keeps a (acts verb a.reach l) }
    ensures given { (verb : Verb) (a : Unchanged) (l : Loop ℕ) → Keeps a l →
        Keeps a (given verb a.reach l) }
    ensures waited { (a : Unchanged) (l : Loop ℕ) → Keeps a l → Keeps a (waiting_acts a.reach l) }
{}

/// A frame keeps it, in every mode.
pub fn a_frame_keeps_the_loop()
    ensures { (x : Sound) → KeepsLoops (λ reach l. after x reach (ready x reach l)) }
{}

/// What a looper keeps is more than what always holds of it.
pub fn a_kept_looper_is_a_looper()
    ensures { (frame : ℕ) (l : Looper) → KeepsLooper frame l → IsLooper frame l }
{}

/// A looper that keeps it selects one of its loops.
pub fn a_kept_looper_selects_one_of_its_loops()
    ensures { (frame : ℕ) (l : Looper) → KeepsLooper frame l → SelectsALoop l }
{}

/// Every entry keeps it, valid or not.
pub fn an_entry_keeps_the_looper()
    ensures { (frame : ℕ) (e : Entry) (l : Looper) → KeepsLooper frame l →
        KeepsLooper frame (applied frame e l) }
{}

/// A frame keeps it, and then one frame more is done. So does each half of it: first the waiting
/// verbs act at their boundaries, and then the frame is played.
pub fn a_frame_keeps_the_looper()
    ensures whole { (done frame : ℕ) (x : Sound) (l : Looper) → KeepsLooper done l →
        KeepsLooper (done + 1) (framed frame x l).looper }
    ensures boundaries { (done frame : ℕ) (l : Looper) → KeepsLooper done l →
        KeepsLooper done (at_boundaries frame l) }
    ensures behind { (done : ℕ) (x : Sound) (l : Looper) → KeepsLooper done l →
        KeepsLooper (done + 1) (framed_from x l).looper }
{}

/// A run begins with it, and new loops may begin a run.
pub fn a_run_begins_with_a_looper()
    ensures kept { (s : LooperSettings) (chunks : ℕ) (lists : List (List Sound)) →
        IsBeginning s chunks lists →
        KeepsLooper 0 (start s chunks lists) }
    ensures empty { (rate loops chunks : ℕ) → IsTrue (is_rate rate) → IsTrue (is_loop_count loops) →
        IsBeginning (default_settings rate loops) chunks [] }
{}

/// Each state of a run keeps it, and so is a looper: after any frames, after any entries behind
/// them, and at the end.
pub fn each_state_of_a_run_is_a_looper()
    ensures frames { (s : LooperSettings) (chunks : ℕ) (lists : List (List Sound)) (es : List Entry)
        (xs : List Sound) →
        IsBeginning s chunks lists →
        KeepsLooper (length xs) (begun 0 es xs (start s chunks lists)).looper }
    ensures entries { (s : LooperSettings) (chunks : ℕ) (lists : List (List Sound))
        (es more : List Entry) (xs : List Sound) →
        IsBeginning s chunks lists →
        KeepsLooper (length xs)
        (entered (length xs) more (begun 0 es xs (start s chunks lists)).looper).looper }
    ensures end { (s : LooperSettings) (chunks : ℕ) (lists : List (List Sound)) (es : List Entry)
        (xs : List Sound) →
        IsBeginning s chunks lists →
        KeepsLooper (length xs) (run es xs (start s chunks lists)).looper }

    // The same from any looper that keeps it.
    ensures begun { (frame : ℕ) (es : List Entry) (xs : List Sound) (l : Looper) →
        KeepsLooper frame l →
        KeepsLooper (frame + length xs) (begun frame es xs l).looper }
    ensures entered { (frame : ℕ) (es : List Entry) (l : Looper) → KeepsLooper frame l →
        KeepsLooper frame (entered frame es l).looper }
    ensures from { (frame : ℕ) (es : List Entry) (xs : List Sound) (l : Looper) →
        KeepsLooper frame l →
        KeepsLooper (frame + length xs) (run_from frame es xs l).looper }
{}

/// The rate and the number of chunks stay as they are.
pub fn a_run_keeps_its_rate_and_its_chunks()
    ensures entry { (frame : ℕ) (e : Entry) (l : Looper) → SameRateAndChunks l (applied frame e l) }
    ensures frame { (frame : ℕ) (x : Sound) (l : Looper) →
        SameRateAndChunks l (framed frame x l).looper }
    ensures entered { (frame : ℕ) (es : List Entry) (l : Looper) →
        SameRateAndChunks l (entered frame es l).looper }
    ensures begun { (frame : ℕ) (es : List Entry) (xs : List Sound) (l : Looper) →
        SameRateAndChunks l (begun frame es xs l).looper }
    ensures run { (frame : ℕ) (es : List Entry) (xs : List Sound) (l : Looper) →
        SameRateAndChunks l (run_from frame es xs l).looper }
{}
