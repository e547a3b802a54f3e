//! Worked runs of one loop: what comes out, and every number of what is left.

ghost use Rattle.std.specs.Prelude.{◌≡◌, pos, negsuc, [], ◌∷◌};
ghost use Rattle.sl_base.specs.Sounds.{silence, both};
ghost use Rattle.sl_commands.specs.declared.Verb.TheVariants.{Rec, Overdub, Reverse, Undo, Redo};
ghost use Rattle.sl_commands.specs.declared.Mode.TheVariants.{Off, Playing, Overdubbing};
ghost use Rattle.sl_commands.specs.declared.Control.TheVariants.{RecThresh, State, LoopLen, Layers, LongPress, Dry, FadeStep};
ghost use Rattle.sl_commands.specs.declared.Target.TheVariants.{One};
ghost use Rattle.sl_commands.specs.declared.Command.TheVariants.{Down, Up, Set, SetGlobal, Get};
ghost use Rattle.looper_rules.specs.Worked.{samples, hit, one_loop_run, one_loop_left, gave, value_reply, layer, open_layer, fresh_cells, stack, loop_in, track};

/// Four frames are recorded, and then repeat.
pub fn a_recording_repeats()
    ensures { let phrase = samples (1 ∷ 2 ∷ 3 ∷ 4 ∷ []) in
        one_loop_run ((0, hit 0 Rec) ∷ (4, hit 0 Rec) ∷ [])
        (samples (1 ∷ 2 ∷ 3 ∷ 4 ∷ 5 ∷ 6 ∷ 7 ∷ 8 ∷ []))
        ≡ gave (samples (0 ∷ 0 ∷ 0 ∷ 0 ∷ 1 ∷ 2 ∷ 3 ∷ 4 ∷ [])) [] []
        (one_loop_left (track (loop_in Playing 0 (stack (layer phrase 4 4 2 ∷ []) [] 4)))) }
{}

/// A recording that ends at the frame at which it began leaves no layer.
pub fn a_recording_of_length_0_is_no_layer()
    ensures { one_loop_run
        ((0, hit 0 Rec) ∷ (0, hit 0 Rec) ∷ (0, Get (One 0) LoopLen) ∷ (0, Get (One 0) State)
        ∷ (0, Get (One 0) Layers) ∷ []) (samples (1 ∷ 2 ∷ 3 ∷ 4 ∷ 5 ∷ 6 ∷ 7 ∷ 8 ∷ []))
        ≡ gave (samples (0 ∷ 0 ∷ 0 ∷ 0 ∷ 0 ∷ 0 ∷ 0 ∷ 0 ∷ []))
        (value_reply 2 0 LoopLen 0 ∷ value_reply 3 0 State 0 ∷ value_reply 4 0 Layers 0 ∷ []) []
        (one_loop_left (track (loop_in Off 0 (stack [] [] 0)))) }
{}

/// Undo brings back the list from before the overdub, and redo the overdub.
pub fn undo_and_redo_go_between_two_lists()
    ensures { let phrase = samples (1 ∷ 2 ∷ 3 ∷ 4 ∷ []) in
        let louder = samples (11 ∷ 12 ∷ 13 ∷ 14 ∷ []) in
        one_loop_run
        ((0, hit 0 Rec) ∷ (4, hit 0 Rec) ∷ (8, hit 0 Overdub) ∷ (12, hit 0 Overdub)
        ∷ (16, hit 0 Undo) ∷ (20, hit 0 Redo) ∷ [])
        (samples (1 ∷ 2 ∷ 3 ∷ 4 ∷ 0 ∷ 0 ∷ 0 ∷ 0 ∷ 10 ∷ 10 ∷ 10 ∷ 10 ∷ 0 ∷ 0 ∷ 0 ∷ 0 ∷ 0 ∷ 0 ∷ 0 ∷ 0
        ∷ 0 ∷ 0 ∷ 0 ∷ 0 ∷ []))
        ≡ gave
        (samples (0 ∷ 0 ∷ 0 ∷ 0 ∷ 1 ∷ 2 ∷ 3 ∷ 4 ∷ 1 ∷ 2 ∷ 3 ∷ 4 ∷ 11 ∷ 12 ∷ 13 ∷ 14 ∷ 1 ∷ 2 ∷ 3 ∷ 4
        ∷ 11 ∷ 12 ∷ 13 ∷ 14 ∷ []))
        [] []
        (one_loop_left (track
        (loop_in Playing 0 (stack (layer louder 4 8 4 ∷ layer phrase 4 4 2 ∷ []) [] 8)))) }
{}

/// Undo closes an overdub in its middle and takes it back; redo gives it back as far as it went.
pub fn undo_takes_back_half_an_overdub()
    ensures { let phrase = samples (1 ∷ 2 ∷ 3 ∷ 4 ∷ []) in
        let half = samples (11 ∷ 12 ∷ 3 ∷ 4 ∷ []) in
        one_loop_run
        ((0, hit 0 Rec) ∷ (4, hit 0 Rec) ∷ (8, hit 0 Overdub) ∷ (10, hit 0 Undo) ∷ (12, hit 0 Redo)
        ∷ [])
        (samples (1 ∷ 2 ∷ 3 ∷ 4 ∷ 0 ∷ 0 ∷ 0 ∷ 0 ∷ 10 ∷ 10 ∷ 0 ∷ 0 ∷ 0 ∷ 0 ∷ 0 ∷ 0 ∷ []))
        ≡ gave
        (samples (0 ∷ 0 ∷ 0 ∷ 0 ∷ 1 ∷ 2 ∷ 3 ∷ 4 ∷ 1 ∷ 2 ∷ 3 ∷ 4 ∷ 11 ∷ 12 ∷ 3 ∷ 4 ∷ []))
        [] []
        (one_loop_left (track
        (loop_in Playing 0 (stack (layer half 4 6 4 ∷ layer phrase 4 4 2 ∷ []) [] 6)))) }
{}

/// An overdub goes backward where the loop does: its second streak begins at the last place, so it
/// has two seams more.
pub fn an_overdub_goes_backward()
    ensures { let phrase = samples (1 ∷ 2 ∷ 3 ∷ 4 ∷ []) in
        let mixed = samples (11 ∷ 42 ∷ 33 ∷ 24 ∷ []) in
        one_loop_run
        ((0, hit 0 Rec) ∷ (4, hit 0 Rec) ∷ (4, hit 0 Reverse) ∷ (8, hit 0 Overdub)
        ∷ (12, hit 0 Overdub) ∷ (12, hit 0 Reverse) ∷ [])
        (samples (1 ∷ 2 ∷ 3 ∷ 4 ∷ 0 ∷ 0 ∷ 0 ∷ 0 ∷ 10 ∷ 20 ∷ 30 ∷ 40 ∷ 0 ∷ 0 ∷ 0 ∷ 0 ∷ []))
        ≡ gave
        (samples (0 ∷ 0 ∷ 0 ∷ 0 ∷ 1 ∷ 4 ∷ 3 ∷ 2 ∷ 1 ∷ 4 ∷ 3 ∷ 2 ∷ 11 ∷ 42 ∷ 33 ∷ 24 ∷ []))
        [] []
        (one_loop_left (track
        (loop_in Playing 0 (stack (layer mixed 4 8 6 ∷ layer phrase 4 4 2 ∷ []) [] 8)))) }
{}

/// A sum above the greatest sample is the greatest sample.
pub fn a_loud_overdub_is_clamped()
    ensures { let loud = both (pos 8388607) in
        one_loop_run ((0, hit 0 Rec) ∷ (1, hit 0 Rec) ∷ (1, hit 0 Overdub) ∷ (2, hit 0 Overdub)
        ∷ []) (loud ∷ loud ∷ silence ∷ [])
        ≡ gave (silence ∷ loud ∷ loud ∷ []) [] []
        (one_loop_left (track
        (loop_in Playing 0
        (stack (layer (loud ∷ []) 1 2 4 ∷ layer (loud ∷ []) 1 1 2 ∷ []) [] 2)))) }
{}

/// A sum below the least sample is the least sample.
pub fn a_loud_negative_overdub_is_clamped()
    ensures { let loud = both (negsuc 8388607) in
        one_loop_run ((0, hit 0 Rec) ∷ (1, hit 0 Rec) ∷ (1, hit 0 Overdub) ∷ (2, hit 0 Overdub)
        ∷ []) (loud ∷ loud ∷ silence ∷ [])
        ≡ gave (silence ∷ loud ∷ loud ∷ []) [] []
        (one_loop_left (track
        (loop_in Playing 0
        (stack (layer (loud ∷ []) 1 2 4 ∷ layer (loud ∷ []) 1 1 2 ∷ []) [] 2)))) }
{}
