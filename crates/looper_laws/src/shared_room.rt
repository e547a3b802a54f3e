//! Loops share the chunks: each reaches what all the others leave, as they stand at that moment.

ghost use Rattle.std.specs.Prelude.{◌≡◌, ℕ, ◌%◌, ℤ, ◌||◌, not, ◌==◌, nat_lt, List, [], ◌∷◌, ◌++◌};
ghost use Rattle.sl_base.specs.Sounds.{Sound};
ghost use Rattle.sl_commands.specs.declared.Verb.{Verb};
ghost use Rattle.sl_commands.specs.declared.Control.{Control};
ghost use Rattle.sl_commands.specs.declared.Target.{Target};
ghost use Rattle.sl_commands.specs.declared.Globals.{Globals};
ghost use Rattle.sl_commands.specs.declared.Face.{Face};
ghost use Rattle.sl_base.specs.Limits.{chunk_frames};
ghost use Rattle.looper_rules.specs.LoopFrame.{frame_later};
ghost use Rattle.looper_rules.specs.Room.{used, has_room};
ghost use Rattle.looper_rules.specs.Loop.{Loop};
ghost use Rattle.looper_rules.specs.Presses.{given, pressed, released};
ghost use Rattle.looper_rules.specs.Looper.{Track, Looper, tape_of, faces_of, itself, on_loop, on_target};
ghost use Rattle.looper_rules.specs.Entries.{sets};
ghost use Rattle.looper_rules.specs.Frame.{at_boundary, at_boundaries, played, played_on, all_played};
ghost use Rattle.looper_rules.specs.States.{IsLooper};
ghost use Rattle.looper_rules.specs.Reached.{KeepsLooper};
ghost use Rattle.looper_rules.specs.Sharing.{tapes_of, has_room_among, left_by, in_turn, in_turn_at, SharesChunks, StaysInReach};

/// The room that passes on from loop to loop is the written test on what all loops use: those
/// before, in the order of the index, as they stand by then, and those behind as they still are.
pub fn the_room_that_passes_on_is_what_the_others_leave()
    ensures room { (chunks tape : ℕ) → (before behind : List Track) →
        has_room (left_by chunks before behind) tape ≡ has_room_among chunks before tape behind }

    // With its own tape, that is what all loops use as they stand.
    ensures own_tape { (chunks : ℕ) → (before behind : List Track) → (t : Track) →
        has_room (left_by chunks before behind) (tape_of t)
        ≡ (not (tape_of t % chunk_frames == 0) || nat_lt (used (tapes_of (before ++ t ∷ behind)))
        chunks) }

    // So it is for the loops of a command's target, where a waiting verb acts, and at each frame.
    ensures commands { (target : Target) → (act : ℕ → Loop Sound → Loop Sound) → (l : Looper) →
        StaysInReach act → SharesChunks l →
        (on_target target act l).tracks
        ≡ in_turn_at target l.globals.selected_loop_num
        (λ before t behind. on_loop act (left_by l.chunks before behind) t) l.tracks }
    ensures boundaries { (frame : ℕ) → (l : Looper) → SharesChunks l →
        let act = at_boundary l.globals frame (faces_of l) in
        (at_boundaries frame l).tracks ≡ in_turn itself
        (λ before t behind. on_loop act (left_by l.chunks before behind) t) [] l.tracks }
    ensures frames { (x : Sound) → (l : Looper) → SharesChunks l →
        let act = played l.globals.fade_step x in
        all_played x l ≡ in_turn played_on
        (λ before t behind. act (left_by l.chunks before behind) t) [] l.tracks }

    // The same of a looper that keeps what always holds, as it stands before the boundaries and
    // behind them.
    ensures kept_commands { (done : ℕ) → (target : Target) → (act : ℕ → Loop Sound → Loop Sound) →
        (l : Looper) → StaysInReach act →
        KeepsLooper done l → (on_target target act l).tracks
        ≡ in_turn_at target l.globals.selected_loop_num
        (λ before t behind. on_loop act (left_by l.chunks before behind) t) l.tracks }
    ensures kept_boundaries { (done frame : ℕ) → (l : Looper) → KeepsLooper done l →
        let act = at_boundary l.globals frame (faces_of l) in
        (at_boundaries frame l).tracks ≡ in_turn itself
        (λ before t behind. on_loop act (left_by l.chunks before behind) t) [] l.tracks }
    ensures kept_frames { (done : ℕ) → (x : Sound) → (l : Looper) → KeepsLooper done l →
        let act = played l.globals.fade_step x in
        all_played x l ≡ in_turn played_on
        (λ before t behind. act (left_by l.chunks before behind) t) [] l.tracks }
{}

/// Whatever is done to a loop keeps its tape to the chunks that the loop reaches.
pub fn what_is_done_to_a_loop_stays_in_reach()
    ensures hit { (verb : Verb) → StaysInReach (given verb) }
    ensures down { (verb : Verb) → (frame : ℕ) → StaysInReach (pressed verb frame) }
    ensures up { (verb : Verb) → (frame long_press : ℕ) →
        StaysInReach (released verb frame long_press) }
    ensures set { (control : Control) → (value : ℤ) → StaysInReach (sets control value) }
    ensures boundary { (g : Globals) → (frame : ℕ) → (faces : List Face) →
        StaysInReach (at_boundary g frame faces) }
    ensures frame { (x : Sound) → StaysInReach (λ reach l. frame_later x reach l) }
{}

/// A looper of which all holds that holds of every reached one shares its chunks so.
pub fn a_reached_looper_shares_its_chunks()
    ensures { (frame : ℕ) → (l : Looper) → IsLooper frame l → SharesChunks l }
{}
