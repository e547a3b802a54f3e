//! The pins that stand are those of the saves that no release has answered.

ghost use Rattle.std.specs.Prelude.{◌≡◌, ℕ, IsTrue, List, [], ◌∷◌, ◌++◌, codes, map, slice_get, option_map, if◌then◌else◌};
ghost use Rattle.sl_base.specs.Sounds.{Sound};
ghost use Rattle.sl_commands.specs.declared.Verb.TheVariants.{Rec};
ghost use Rattle.sl_commands.specs.declared.Target.{Target};
ghost use Rattle.sl_commands.specs.declared.Target.TheVariants.{One, All};
ghost use Rattle.sl_commands.specs.declared.Command.TheVariants.{SaveLoop, Release};
ghost use Rattle.sl_commands.specs.declared.Entry.{Entry};
ghost use Rattle.sl_commands.specs.Settings.{LooperSettings, default_strip, default_settings};
ghost use Rattle.looper_rules.specs.Looper.{Track, Looper};
ghost use Rattle.looper_rules.specs.Saves.{Save, freed};
ghost use Rattle.looper_rules.specs.Entries.{is_taken, applied};
ghost use Rattle.looper_rules.specs.Frame.{at_boundaries, framed_from, framed};
ghost use Rattle.looper_rules.specs.Run.{entered, begun, run, start};
ghost use Rattle.looper_rules.specs.Worked.{samples, hit, journal, new_looper, saved};
ghost use Rattle.looper_rules.specs.Pins.{names_pin};
ghost use Rattle.looper_rules.specs.Unanswered.{unanswered_after, unanswered_entered, unanswered_begun, unanswered, holds_of, HoldPins};
ghost use Rattle.looper_rules.specs.Reached.{KeepsLooper, IsBeginning};
ghost use Rattle.run_laws.specs.Apart.{AreAllApart, AreSomeOf};

/// A valid release takes away the pins that it names and no others, and changes nothing else of any
/// track.
pub fn a_release_takes_the_pins_that_it_names()
    ensures { (frame : ℕ) → (e : Entry) → (l : Looper) → (target : Target) → (outcome index : ℕ) →
        e.command ≡ Release target outcome → IsTrue (is_taken e l) →
        slice_get (applied frame e l).tracks index
        ≡ option_map (λ (t : Track). if names_pin target index t.asker then freed t else t)
        (slice_get l.tracks index) }
{}

/// The pins that stand are those of the unanswered saves, each holding the list that its save has.
/// Entries and frames keep it so: a save adds its pins, a release takes away those of the save that
/// it answers.
pub fn standing_pins_are_of_unanswered_saves()
    ensures entry { (frame : ℕ) → (e : Entry) → (l : Looper) → (saves : List Save) →
        KeepsLooper frame l →
        HoldPins saves (holds_of l) →
        HoldPins (unanswered_after e l saves) (holds_of (applied frame e l)) }
    ensures entered { (frame : ℕ) → (es : List Entry) → (l : Looper) → (saves : List Save) →
        KeepsLooper frame l →
        HoldPins saves (holds_of l) →
        HoldPins (unanswered_entered frame es l saves) (holds_of (entered frame es l).looper) }
    ensures begun { (frame : ℕ) → (es : List Entry) → (xs : List Sound) → (l : Looper) →
        (saves : List Save) → KeepsLooper frame l →
        HoldPins saves (holds_of l) →
        HoldPins (unanswered_begun frame es xs l saves) (holds_of (begun frame es xs l).looper) }

    // Of a whole run, from its start on.
    ensures start { (s : LooperSettings) → (chunks : ℕ) → (lists : List (List Sound)) →
        HoldPins [] (holds_of (start s chunks lists)) }
    ensures run { (s : LooperSettings) → (chunks : ℕ) → (lists : List (List Sound)) →
        (es : List Entry) → (input : List Sound) →
        IsBeginning s chunks lists →
        HoldPins (unanswered es input (start s chunks lists))
        (holds_of (run es input (start s chunks lists)).looper) }
{}

/// A frame changes nothing of what holds lists, nor does either half of it.
pub fn a_frame_leaves_all_holds()
    ensures whole { (frame : ℕ) → (x : Sound) → (l : Looper) →
        holds_of (framed frame x l).looper ≡ holds_of l }
    ensures boundaries { (frame : ℕ) → (l : Looper) →
        holds_of (at_boundaries frame l) ≡ holds_of l }
    ensures behind { (x : Sound) → (l : Looper) → holds_of (framed_from x l).looper ≡ holds_of l }
{}

/// The unanswered saves are some of the saves of the run, in their order. They are of different
/// loops, and a session's is alone: so a release answers one of them at most.
pub fn unanswered_saves_are_of_different_loops()
    ensures entry { (frame : ℕ) → (e : Entry) → (l : Looper) → (saves : List Save) →
        KeepsLooper frame l →
        HoldPins saves (holds_of l) → AreAllApart saves → AreAllApart (unanswered_after e l saves) }
    ensures begun { (frame : ℕ) → (es : List Entry) → (xs : List Sound) → (l : Looper) →
        (saves : List Save) → KeepsLooper frame l →
        HoldPins saves (holds_of l) → AreAllApart saves →
        AreAllApart (unanswered_begun frame es xs l saves) }
    ensures run { (s : LooperSettings) → (chunks : ℕ) → (lists : List (List Sound)) →
        (es : List Entry) → (input : List Sound) →
        IsBeginning s chunks lists → AreAllApart (unanswered es input (start s chunks lists)) }
    ensures some { (es : List Entry) → (input : List Sound) → (l : Looper) →
        AreSomeOf (unanswered es input l) (run es input l).saves }
{}

/// A save is unanswered until its release, and stays so through the release of another loop and of
/// a session.
pub fn a_worked_run_leaves_a_save_unanswered_until_its_release()
    ensures { let input = samples (1 ∷ 2 ∷ 3 ∷ 4 ∷ 0 ∷ 0 ∷ []) in
        let settings = record (default_settings 48000 2)
        { strips = record default_strip { length = 4; cycle = 4 } ∷ default_strip ∷ [] } in
        let take = saved 0 0 (codes "take.wav") settings (samples (1 ∷ 2 ∷ 3 ∷ 4 ∷ [])) in
        let before = (0, hit 0 Rec) ∷ (4, hit 0 Rec) ∷ (4, SaveLoop (One 0) (codes "take.wav"))
        ∷ (5, Release (One 1) 0) ∷ (5, Release All 0) ∷ [] in
        (unanswered (journal before) input (new_looper 2 4096) ≡ take ∷ [])
        × (unanswered (journal (before ++ (5, Release (One 0) 0) ∷ [])) input (new_looper 2 4096)
        ≡ []) }
{}
