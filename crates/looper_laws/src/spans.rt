//! A span of frames may be played one loop after another: it is its frames.

ghost use Rattle.std.specs.Prelude.{◌≡◌, ℕ, ◌+◌, List, [], ◌∷◌, length};
ghost use Rattle.std.specs.List.{AllByRecursion};
ghost use Rattle.sl_base.specs.Sounds.{Sound};
ghost use Rattle.looper_rules.specs.Looper.{Looper, faces_of};
ghost use Rattle.looper_rules.specs.Frame.{at_boundaries, framed_from, framed};
ghost use Rattle.looper_rules.specs.TrackSpans.{IsCalm, spanned};
ghost use Rattle.looper_rules.specs.Run.{begun};
ghost use Rattle.looper_laws.specs.Spans.{IsQuietBehindFor, NoVerbWaits, KeepsTime, IsClearFor, as_frames};

/// Where the frames behind the first are quiet for every loop and no boundary acts there, the span
/// gives and leaves what the frames do one by one.
pub fn a_span_is_its_frames()
    ensures { (frame : ℕ) → (x : Sound) → (xs : List Sound) → (l : Looper) →
        AllByRecursion (IsQuietBehindFor (x ∷ xs)) (at_boundaries frame l).tracks →
        IsCalm (frame + 1) xs (framed frame x l).looper →
        begun frame [] (x ∷ xs) l ≡ as_frames (spanned frame (x ∷ xs) l) }
{}

/// Where no verb waits, frames are calm, whatever is played.
pub fn frames_without_a_waiting_verb_are_calm()
    ensures { (frame : ℕ) → (xs : List Sound) → (l : Looper) → AllByRecursion NoVerbWaits l.tracks →
        IsCalm frame xs l }
{}

/// Where the source of boundaries keeps time, and for each verb that waits no boundary comes by the
/// faces of a moment, frames are calm behind the first.
pub fn frames_before_the_next_boundary_are_calm()
    ensures { (frame : ℕ) → (x : Sound) → (xs : List Sound) → (l : Looper) →
        KeepsTime l.globals.sync_source (faces_of l) →
        AllByRecursion (IsClearFor l.globals frame (faces_of l) (length xs)) l.tracks →
        IsCalm (frame + 1) xs (framed_from x l).looper }
{}
