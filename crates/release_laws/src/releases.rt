//! A release answers a save before it.

ghost use Rattle.std.specs.Prelude.{◌≡◌, ℕ, ◌+◌, ◌≤◌, ◌<◌, List, ◌∷◌, ◌++◌, length, Some};
ghost use Rattle.sl_base.specs.Sounds.{Sound};
ghost use Rattle.sl_commands.specs.declared.Entry.{Entry};
ghost use Rattle.sl_commands.specs.declared.Reply.{Reply};
ghost use Rattle.sl_commands.specs.Entries.{entries_of, FramesNeverFall};
ghost use Rattle.sl_commands.specs.Settings.{LooperSettings};
ghost use Rattle.looper_rules.specs.Entries.{reply};
ghost use Rattle.looper_rules.specs.Run.{start, run};
ghost use Rattle.looper_rules.specs.Reached.{IsBeginning};
ghost use Rattle.looper_rules.specs.Unanswered.{unanswered};
ghost use Rattle.run_laws.specs.Places.{run_before, met};
ghost use Rattle.release_laws.specs.Releases.{AnswersASaveBefore, StandsBehindItsSave, AsManyAnswered};

/// Where an entry of the saver gives a reply, this answers a save whose entry stands before it, at
/// no later frame: the reply has this entry's sender and number, and the save was unanswered up to
/// there.
pub fn a_release_answers_a_save_before_it()
    ensures { (settings : LooperSettings) → (chunks : ℕ) → (initial : List (List Sound)) →
        (before : List Entry) → (e : Entry) → (after : List Entry) → (input : List Sound) →
        (answer : Reply) →
        IsBeginning settings chunks initial → FramesNeverFall 0 (before ++ e ∷ after) →
        let first = start settings chunks initial in
        e.sender ≡ 2 → reply e (met before e input first) ≡ Some answer →
        AnswersASaveBefore before e input first answer }
{}

/// No more saves are answered than the saver has entries. Where as many are, each of its entries
/// answers the save of an entry before it, and more saves than entries of the saver stand before
/// each.
pub fn each_release_answers_one_where_as_many_are_answered()
    ensures most { (settings : LooperSettings) → (chunks : ℕ) → (initial : List (List Sound)) →
        (es : List Entry) → (input : List Sound) →
        IsBeginning settings chunks initial → FramesNeverFall 0 es →
        let first = start settings chunks initial in
        length (run es input first).saves
        ≤ length (unanswered es input first) + length (entries_of 2 es) }
    ensures each { (settings : LooperSettings) → (chunks : ℕ) → (initial : List (List Sound)) →
        (before : List Entry) → (e : Entry) → (after : List Entry) → (input : List Sound) →
        IsBeginning settings chunks initial → FramesNeverFall 0 (before ++ e ∷ after) →
        let first = start settings chunks initial in
        AsManyAnswered (before ++ e ∷ after) input first → e.sender ≡ 2 →
        StandsBehindItsSave before e input first }
    ensures more { (settings : LooperSettings) → (chunks : ℕ) → (initial : List (List Sound)) →
        (before : List Entry) → (e : Entry) → (after : List Entry) → (input : List Sound) →
        IsBeginning settings chunks initial → FramesNeverFall 0 (before ++ e ∷ after) →
        let first = start settings chunks initial in
        AsManyAnswered (before ++ e ∷ after) input first → e.sender ≡ 2 →
        length (entries_of 2 before) < length (run_before before e input first).saves }
{}
