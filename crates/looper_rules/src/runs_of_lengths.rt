//! Worked runs of one loop whose list grows: multiplies and inserts.

ghost use Rattle.std.specs.Prelude.{◌≡◌, pos, [], ◌∷◌};
ghost use Rattle.sl_commands.specs.declared.Verb.TheVariants.{Rec, Overdub, Multiply, Insert};
ghost use Rattle.sl_commands.specs.declared.Mode.TheVariants.{Playing};
ghost use Rattle.sl_commands.specs.declared.Control.TheVariants.{Round, State, LoopLen, CycleLen};
ghost use Rattle.sl_commands.specs.declared.Target.TheVariants.{One};
ghost use Rattle.sl_commands.specs.declared.Command.TheVariants.{Set, Get};
ghost use Rattle.looper_rules.specs.Worked.{samples, hit, one_loop_run, one_loop_left, gave, value_reply, layer, stack, loop_in, first_controls, track};

/// Without rounding a multiply ends at once, and the list has the frames that it went over.
pub fn a_multiply_ends_at_once()
    ensures { let phrase = samples (1 ∷ 2 ∷ 3 ∷ []) in
        let longer = samples (1 ∷ 2 ∷ 3 ∷ 1 ∷ 2 ∷ 3 ∷ 1 ∷ []) in
        one_loop_run
        ((0, hit 0 Rec) ∷ (3, hit 0 Rec) ∷ (3, hit 0 Multiply) ∷ (10, hit 0 Multiply)
        ∷ (10, Get (One 0) LoopLen) ∷ (10, Get (One 0) CycleLen) ∷ [])
        (samples (1 ∷ 2 ∷ 3 ∷ 0 ∷ 0 ∷ 0 ∷ 0 ∷ 0 ∷ 0 ∷ 0 ∷ 0 ∷ 0 ∷ []))
        ≡ gave (samples (0 ∷ 0 ∷ 0 ∷ 1 ∷ 2 ∷ 3 ∷ 1 ∷ 2 ∷ 3 ∷ 1 ∷ 1 ∷ 2 ∷ []))
        (value_reply 4 0 LoopLen 7 ∷ value_reply 5 0 CycleLen 3 ∷ []) []
        (one_loop_left (track
        (loop_in Playing 2 (stack (layer longer 3 10 8 ∷ layer phrase 3 3 2 ∷ []) [] 10)))) }
{}

/// With rounding a multiply goes on to the end of its cycle, and what is overdubbed then is heard
/// once in three cycles.
pub fn a_rounded_multiply_ends_with_its_cycle()
    ensures { let phrase = samples (1 ∷ 2 ∷ 3 ∷ []) in
        let longer = samples (1 ∷ 2 ∷ 3 ∷ 1 ∷ 2 ∷ 3 ∷ 1 ∷ 2 ∷ 3 ∷ []) in
        let mixed = samples (1 ∷ 2 ∷ 3 ∷ 1 ∷ 2 ∷ 3 ∷ 11 ∷ 12 ∷ 13 ∷ []) in
        let playing = loop_in Playing 0
        (stack (layer mixed 3 15 10 ∷ layer longer 3 12 8 ∷ layer phrase 3 3 2 ∷ []) [] 15) in
        one_loop_run
        ((0, Set (One 0) Round (pos 1)) ∷ (0, hit 0 Rec) ∷ (3, hit 0 Rec) ∷ (3, hit 0 Multiply)
        ∷ (10, hit 0 Multiply) ∷ (11, Get (One 0) State) ∷ (12, Get (One 0) LoopLen)
        ∷ (18, hit 0 Overdub) ∷ (21, hit 0 Overdub) ∷ [])
        (samples (1 ∷ 2 ∷ 3 ∷ 0 ∷ 0 ∷ 0 ∷ 0 ∷ 0 ∷ 0 ∷ 0 ∷ 0 ∷ 0 ∷ 0 ∷ 0 ∷ 0 ∷ 0 ∷ 0 ∷ 0 ∷ 10 ∷ 10
        ∷ 10 ∷ 0 ∷ 0 ∷ 0 ∷ 0 ∷ 0 ∷ 0 ∷ 0 ∷ 0 ∷ 0 ∷ []))
        ≡ gave
        (samples (0 ∷ 0 ∷ 0 ∷ 1 ∷ 2 ∷ 3 ∷ 1 ∷ 2 ∷ 3 ∷ 1 ∷ 2 ∷ 3 ∷ 1 ∷ 2 ∷ 3 ∷ 1 ∷ 2 ∷ 3 ∷ 1 ∷ 2 ∷ 3
        ∷ 1 ∷ 2 ∷ 3 ∷ 1 ∷ 2 ∷ 3 ∷ 11 ∷ 12 ∷ 13 ∷ []))
        (value_reply 5 0 State 3 ∷ value_reply 6 0 LoopLen 9 ∷ []) []
        (one_loop_left
        (track (record playing { controls = record first_controls { round = 1 } }))) }
{}

/// An insert at the start of the list: the frames that come in stand before its first.
pub fn an_insert_goes_before_the_first_frame()
    ensures { let phrase = samples (1 ∷ 2 ∷ 3 ∷ 4 ∷ []) in
        let longer = samples (8 ∷ 9 ∷ 1 ∷ 2 ∷ 3 ∷ 4 ∷ []) in
        one_loop_run
        ((0, hit 0 Rec) ∷ (4, hit 0 Rec) ∷ (4, hit 0 Insert) ∷ (6, hit 0 Insert) ∷ [])
        (samples (1 ∷ 2 ∷ 3 ∷ 4 ∷ 8 ∷ 9 ∷ 0 ∷ 0 ∷ 0 ∷ 0 ∷ 0 ∷ 0 ∷ []))
        ≡ gave (samples (0 ∷ 0 ∷ 0 ∷ 0 ∷ 0 ∷ 0 ∷ 1 ∷ 2 ∷ 3 ∷ 4 ∷ 8 ∷ 9 ∷ [])) [] []
        (one_loop_left (track
        (loop_in Playing 2 (stack (layer longer 4 6 4 ∷ layer phrase 4 4 2 ∷ []) [] 6)))) }
{}

/// An insert in the middle of the list: the frames that come in stand before the one that was due.
pub fn an_insert_goes_before_the_last_frame()
    ensures { let phrase = samples (1 ∷ 2 ∷ 3 ∷ 4 ∷ []) in
        let longer = samples (1 ∷ 2 ∷ 3 ∷ 8 ∷ 9 ∷ 4 ∷ []) in
        one_loop_run
        ((0, hit 0 Rec) ∷ (4, hit 0 Rec) ∷ (7, hit 0 Insert) ∷ (9, hit 0 Insert) ∷ [])
        (samples (1 ∷ 2 ∷ 3 ∷ 4 ∷ 0 ∷ 0 ∷ 0 ∷ 8 ∷ 9 ∷ 0 ∷ 0 ∷ 0 ∷ 0 ∷ 0 ∷ 0 ∷ 0 ∷ []))
        ≡ gave (samples (0 ∷ 0 ∷ 0 ∷ 0 ∷ 1 ∷ 2 ∷ 3 ∷ 0 ∷ 0 ∷ 4 ∷ 1 ∷ 2 ∷ 3 ∷ 8 ∷ 9 ∷ 4 ∷ [])) [] []
        (one_loop_left (track
        (loop_in Playing 0 (stack (layer longer 4 6 4 ∷ layer phrase 4 4 2 ∷ []) [] 6)))) }
{}
