//! A save has the lists at its entry's place, whatever follows.

ghost use Rattle.std.specs.Prelude.{◌≡◌, ◌⊎◌, ℕ, ◌+◌, ◌≤◌, List, [], ◌∷◌, ◌++◌, length, map, All, Some, slice_get, option_to_list};
ghost use Rattle.std.specs.List.{range_with_len};
ghost use Rattle.sl_base.specs.Sounds.{Sound};
ghost use Rattle.sl_commands.specs.declared.Target.{Target};
ghost use Rattle.sl_commands.specs.declared.Command.TheVariants.{SaveLoop, SaveSession, Release};
ghost use Rattle.sl_commands.specs.declared.Entry.{Entry};
ghost use Rattle.sl_commands.specs.Entries.{FramesNeverFall};
ghost use Rattle.looper_rules.specs.Looper.{Track, Looper, index_of};
ghost use Rattle.looper_rules.specs.Saves.{Save};
ghost use Rattle.looper_rules.specs.Entries.{applied, save, track_of, loop_save, session_save};
ghost use Rattle.looper_rules.specs.Frame.{framed};
ghost use Rattle.looper_rules.specs.Run.{begun, run};
ghost use Rattle.looper_rules.specs.Cuts.{run_from};
ghost use Rattle.run_laws.specs.Places.{run_before, met, run_behind, ComesWithEntry, BeginsWith};
ghost use Rattle.looper_laws.specs.Selecting.{SelectsALoop};
ghost use Rattle.looper_rules.specs.Pins.{pins_of, pin_for, PinsStay, PinsStayOrGo, IsNoRelease};

/// The saves of a run are those before an entry, what the entry saves of the looper that it meets,
/// and those behind it. So each save comes with an entry, and is what this one saves.
pub fn saves_are_those_at_their_entries()
    ensures made { (before : List Entry) → (e : Entry) → (after : List Entry) →
        (input : List Sound) → (l : Looper) →
        FramesNeverFall 0 (before ++ e ∷ after) →
        (run (before ++ e ∷ after) input l).saves
        ≡ (run_before before e input l).saves
        ++ (option_to_list (save e (met before e input l))
        ++ (run_behind before e after input l).saves) }
    ensures comes { (es : List Entry) → (input : List Sound) → (l : Looper) → FramesNeverFall 0 es →
        All (ComesWithEntry save es input l) (run es input l).saves }
{}

/// What an entry saves of a looper: of a loop its list, of a session all lists, with the number,
/// the target, the name and the settings at that moment.
pub fn a_save_is_what_its_entry_met()
    ensures loop_save { (e : Entry) → (l : Looper) → (s : Save) → (target : Target) →
        (name : List ℕ) →
        e.command ≡ SaveLoop target name → save e l ≡ Some s →
        (t : Track) × (track_of target l ≡ Some t) × (s ≡ loop_save target name l t) }
    ensures session_save { (e : Entry) → (l : Looper) → (s : Save) → (name : List ℕ) →
        e.command ≡ SaveSession name → save e l ≡ Some s → s ≡ session_save name l }
    ensures only { (e : Entry) → (l : Looper) → (s : Save) → save e l ≡ Some s →
        ((target : Target) × (name : List ℕ) × (e.command ≡ SaveLoop target name))
        ⊎ ((name : List ℕ) × (e.command ≡ SaveSession name)) }
{}

/// No later frame and no later entry changes a save: a longer run begins with the saves of the
/// shorter one, and with those of its own first frames.
pub fn no_save_changes_later()
    ensures kept { (first next : List Entry) → (xs ys : List Sound) → (l : Looper) →
        All (λ e. e.frame ≤ length xs) first → All (λ e. length xs ≤ e.frame) next →
        BeginsWith (run (first ++ next) (xs ++ ys) l).saves (run first xs l).saves }
    ensures begun { (frame : ℕ) → (es : List Entry) → (xs ys : List Sound) → (l : Looper) →
        BeginsWith (run_from frame es (xs ++ ys) l).saves (begun frame es xs l).saves }
{}

/// The saves of a run are numbered in order, from how many there were, and the last looper tells
/// how many there are then.
pub fn saves_are_numbered_in_order()
    ensures numbers { (es : List Entry) → (input : List Sound) → (l : Looper) → SelectsALoop l →
        let saves = (run es input l).saves in
        map (λ (s : Save). s.number) saves ≡ range_with_len l.saves (length saves) }
    ensures count { (es : List Entry) → (input : List Sound) → (l : Looper) → SelectsALoop l →
        (run es input l).looper.saves ≡ l.saves + length (run es input l).saves }
{}

/// A save that is made pins its loops with the lists that it saves. No frame and no entry changes a
/// pin that stands, until a release takes it away.
pub fn a_pin_holds_its_list_until_the_release()
    ensures loop_save { (frame : ℕ) → (e : Entry) → (l : Looper) → (s : Save) → (target : Target) →
        (name : List ℕ) →
        (t : Track) → e.command ≡ SaveLoop target name → save e l ≡ Some s →
        track_of target l ≡ Some t →
        slice_get (pins_of (applied frame e l)) (index_of target l.globals.selected_loop_num)
        ≡ Some (Some (pin_for t)) }
    ensures session_save { (frame : ℕ) → (e : Entry) → (l : Looper) → (s : Save) → (name : List ℕ) →
        e.command ≡ SaveSession name → save e l ≡ Some s →
        pins_of (applied frame e l) ≡ map (λ t. Some (pin_for t)) l.tracks }
    ensures frame { (frame : ℕ) → (x : Sound) → (l : Looper) →
        pins_of (framed frame x l).looper ≡ pins_of l }
    ensures entry { (frame : ℕ) → (e : Entry) → (l : Looper) → IsNoRelease e.command →
        PinsStay l (applied frame e l) }
    ensures release { (frame : ℕ) → (e : Entry) → (l : Looper) → (target : Target) → (outcome : ℕ) →
        e.command ≡ Release target outcome → PinsStayOrGo l (applied frame e l) }
{}
