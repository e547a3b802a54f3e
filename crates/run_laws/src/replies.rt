//! A run's output is as long as its input, and its replies answer its gets and saves.

ghost use Rattle.std.specs.Prelude.{◌≡◌, ℕ, ◌+◌, ◌≤◌, Bool, List, [], ◌∷◌, ◌++◌, length, map, filter, All, Contains, count_by, Some, option_to_list, IsTrue};
ghost use Rattle.sl_base.specs.Sounds.{Sound};
ghost use Rattle.sl_commands.specs.declared.Entry.{Entry};
ghost use Rattle.sl_commands.specs.Entries.{entries_of, FramesNeverFall, are_stamped};
ghost use Rattle.sl_commands.specs.Settings.{LooperSettings, are_settings};
ghost use Rattle.looper_rules.specs.Looper.{Looper};
ghost use Rattle.looper_rules.specs.Entries.{reply};
ghost use Rattle.looper_rules.specs.Run.{begun, start, run};
ghost use Rattle.looper_rules.specs.Cuts.{run_from};
ghost use Rattle.looper_rules.specs.Reached.{IsBeginning};
ghost use Rattle.looper_rules.specs.Unanswered.{unanswered};
ghost use Rattle.run_laws.specs.Places.{run_before, met, run_behind, ComesWithEntry};
ghost use Rattle.run_laws.specs.Questions.{Question, question, questions, answered, AnswersInTime, is_of, is_get, valid_ones};
ghost use Rattle.looper_laws.specs.Selecting.{SelectsALoop};

/// One frame comes out for each that goes in, and a run keeps its loops.
pub fn a_frame_comes_out_for_each_that_goes_in()
    ensures output { (es : List Entry) → (input : List Sound) → (l : Looper) →
        length (run es input l).output ≡ length input }
    ensures loops { (es : List Entry) → (input : List Sound) → (l : Looper) → SelectsALoop l →
        (length (run es input l).looper.tracks ≡ length l.tracks)
        × SelectsALoop (run es input l).looper }
{}

/// Each entry gives at most one reply and makes at most one save, so there are no more of either
/// than entries.
pub fn an_entry_gives_at_most_one_reply_and_one_save()
    ensures replies { (frame : ℕ) → (es : List Entry) → (input : List Sound) → (l : Looper) →
        length (run_from frame es input l).replies ≤ length es }
    ensures saves { (frame : ℕ) → (es : List Entry) → (input : List Sound) → (l : Looper) →
        length (run_from frame es input l).saves ≤ length es }

    // And no more saves than entries of OSC and MIDI.
    ensures players { (frame : ℕ) → (es : List Entry) → (input : List Sound) → (l : Looper) →
        length (run_from frame es input l).saves
        ≤ length (entries_of 0 es) + length (entries_of 1 es) }

    // Of entries of which some are left, no more than of the others.
    ensures begun_replies { (frame : ℕ) → (es : List Entry) → (input : List Sound) → (l : Looper) →
        length (begun frame es input l).replies + length (begun frame es input l).left ≤ length es }
    ensures begun_saves { (frame : ℕ) → (es : List Entry) → (input : List Sound) → (l : Looper) →
        length (begun frame es input l).saves + length (begun frame es input l).left ≤ length es }
{}

/// Each reply comes with an entry, in the order of the entries, and has the sender and seq of a get
/// or a save that was entered before it or is that entry, and tells what this one asked for.
pub fn each_reply_answers_a_get_or_a_save_before_it()
    ensures made { (before : List Entry) → (e : Entry) → (after : List Entry) →
        (input : List Sound) → (l : Looper) →
        FramesNeverFall 0 (before ++ e ∷ after) →
        (run (before ++ e ∷ after) input l).replies
        ≡ (run_before before e input l).replies
        ++ (option_to_list (reply e (met before e input l))
        ++ (run_behind before e after input l).replies) }
    ensures comes { (es : List Entry) → (input : List Sound) → (l : Looper) → FramesNeverFall 0 es →
        All (ComesWithEntry reply es input l) (run es input l).replies }
    ensures in_time { (settings : LooperSettings) → (chunks : ℕ) → (initial : List (List Sound)) →
        (es : List Entry) → (input : List Sound) → FramesNeverFall 0 es →
        let first = start settings chunks initial in
        All (AnswersInTime es input first) (run es input first).replies }

    // Whatever the order of the entries is.
    ensures asked { (settings : LooperSettings) → (chunks : ℕ) → (initial : List (List Sound)) →
        (es : List Entry) → (input : List Sound) →
        All (λ r. Contains (questions es) (answered r))
        (run es input (start settings chunks initial)).replies }
{}

/// The replies to gets are one for each valid get, in the order of the gets.
pub fn gets_are_answered_in_their_order()
    ensures gets { (es : List Entry) → (input : List Sound) → (l : Looper) → SelectsALoop l →
        filter is_get (map answered (run es input l).replies)
        ≡ filter is_get (questions (valid_ones (length l.tracks) es)) }
    ensures start { (settings : LooperSettings) → (chunks : ℕ) → (initial : List (List Sound)) →
        IsTrue (are_settings settings) → SelectsALoop (start settings chunks initial) }
{}

/// A get or a save has at most one reply: of stamped entries no two replies have the same sender
/// and seq. Of others, no more replies pass a test of what they answer than gets and saves do.
pub fn a_get_or_a_save_is_answered_once()
    ensures once { (settings : LooperSettings) → (chunks : ℕ) → (initial : List (List Sound)) →
        (es : List Entry) → (input : List Sound) → (sender seq : ℕ) → IsTrue (are_stamped es) →
        count_by (is_of sender seq)
        (map answered (run es input (start settings chunks initial)).replies) ≤ 1 }
    ensures counted { (settings : LooperSettings) → (chunks : ℕ) → (initial : List (List Sound)) →
        (es : List Entry) → (input : List Sound) → (test : Question → Bool) →
        count_by test (map answered (run es input (start settings chunks initial)).replies)
        ≤ count_by test (questions es) }
{}

/// In a run in which no save is left unanswered, each valid get and each valid save has its one
/// reply: as many replies pass a test of what they answer as valid gets and saves do.
pub fn each_is_answered_once_where_no_save_is_unanswered()
    ensures counted { (settings : LooperSettings) → (chunks : ℕ) → (initial : List (List Sound)) →
        (es : List Entry) → (input : List Sound) → (test : Question → Bool) →
        IsBeginning settings chunks initial →
        let first = start settings chunks initial in
        unanswered es input first ≡ [] →
        count_by test (map answered (run es input first).replies)
        ≡ count_by test (questions (valid_ones (length settings.strips) es)) }
    ensures once { (settings : LooperSettings) → (chunks : ℕ) → (initial : List (List Sound)) →
        (es : List Entry) → (input : List Sound) → (e : Entry) → (q : Question) →
        IsBeginning settings chunks initial →
        let first = start settings chunks initial in
        unanswered es input first ≡ [] → IsTrue (are_stamped es) →
        Contains (valid_ones (length settings.strips) es) e → question e ≡ Some q →
        count_by (is_of e.sender e.seq) (map answered (run es input first).replies) ≡ 1 }
{}
