//! A run that is cut into two at any frame is the run: output, replies, saves and the last looper.

ghost use Rattle.std.specs.Prelude.{◌≡◌, ℕ, ◌+◌, ◌≤◌, List, [], ◌∷◌, ◌++◌, length, All, IsTrue};
ghost use Rattle.sl_base.specs.Sounds.{Sound};
ghost use Rattle.sl_commands.specs.declared.Entry.{Entry};
ghost use Rattle.sl_commands.specs.Entries.{FramesNeverFall, are_stamped};
ghost use Rattle.looper_rules.specs.Looper.{Looper};
ghost use Rattle.looper_rules.specs.Run.{begun, run};
ghost use Rattle.looper_rules.specs.Cuts.{run_from, begun_on, run_on, ran_on, with_more_left, entries_before, entries_from};
ghost use Rattle.run_laws.specs.Places.{run_around};

/// Whatever the entries are, frames go on with the looper and the entries that the frames before
/// them left.
pub fn a_run_goes_on_where_its_first_frames_left_off()
    ensures begun { (frame : ℕ) → (es : List Entry) → (xs ys : List Sound) → (l : Looper) →
        begun frame es (xs ++ ys) l ≡ begun_on (frame + length xs) (begun frame es xs l) ys }
    ensures from { (frame : ℕ) → (es : List Entry) → (xs ys : List Sound) → (l : Looper) →
        run_from frame es (xs ++ ys) l ≡ run_on (frame + length xs) (begun frame es xs l) ys }
    ensures whole { (es : List Entry) → (xs ys : List Sound) → (l : Looper) →
        run es (xs ++ ys) l ≡ run_on (length xs) (begun 0 es xs l) ys }
{}

/// Entries up to the cut, and behind them entries from it on: the rest is a run of the latter from
/// the looper that the run of the former left. Entries of the cut's own frame may stand on either
/// side.
pub fn a_run_cut_between_entries_is_the_run()
    ensures from { (frame : ℕ) → (first next : List Entry) → (xs ys : List Sound) → (l : Looper) →
        All (λ e. e.frame ≤ frame + length xs) first → All (λ e. frame + length xs ≤ e.frame) next →
        run_from frame (first ++ next) (xs ++ ys) l ≡ ran_on (frame + length xs)
        (run_from frame first xs l) next ys }
    ensures whole { (first next : List Entry) → (xs ys : List Sound) → (l : Looper) →
        All (λ e. e.frame ≤ length xs) first → All (λ e. length xs ≤ e.frame) next →
        run (first ++ next) (xs ++ ys) l ≡ ran_on (length xs) (run first xs l) next ys }

    // Behind the last frame the entries in front may be of any frame.
    ensures last { (first next : List Entry) → (input : List Sound) → (l : Looper) →
        All (λ e. length input ≤ e.frame) next →
        run (first ++ next) input l ≡ ran_on (length input) (run first input l) next [] }
{}

/// Of entries whose frames never fall, as those of stamped ones, the first part has those before
/// the cut's frame and the rest has the others.
pub fn a_run_cut_at_a_frame_is_the_run()
    ensures from { (frame : ℕ) → (es : List Entry) → (xs ys : List Sound) → (l : Looper) →
        FramesNeverFall 0 es →
        let cut = frame + length xs in
        run_from frame es (xs ++ ys) l ≡ ran_on cut (run_from frame (entries_before cut es) xs l)
        (entries_from cut es) ys }
    ensures whole { (es : List Entry) → (xs ys : List Sound) → (l : Looper) → FramesNeverFall 0 es →
        let cut = length xs in
        run es (xs ++ ys) l
        ≡ ran_on cut (run (entries_before cut es) xs l) (entries_from cut es) ys }
    ensures entries { (frame : ℕ) → (es : List Entry) → FramesNeverFall 0 es →
        es ≡ entries_before frame es ++ entries_from frame es }
    ensures stamped { (es : List Entry) → IsTrue (are_stamped es) → FramesNeverFall 0 es }
{}

/// Entries behind the others, of frames to come, change nothing of what the frames so far gave.
pub fn entries_to_come_change_nothing_before()
    ensures left { (frame : ℕ) → (es more : List Entry) → (xs : List Sound) → (l : Looper) →
        All (λ e. frame + length xs ≤ e.frame) more →
        begun frame (es ++ more) xs l ≡ with_more_left more (begun frame es xs l) }
{}

/// Of entries whose frames never fall, the run is that of the entries before one, what this one
/// gives at its place, and the run of those behind it.
pub fn a_run_cut_at_an_entry_is_the_run()
    ensures whole { (before : List Entry) → (e : Entry) → (after : List Entry) →
        (input : List Sound) → (l : Looper) →
        FramesNeverFall 0 (before ++ e ∷ after) →
        run (before ++ e ∷ after) input l ≡ run_around before e after input l }
{}
