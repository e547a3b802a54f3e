//! Worked runs of what controls do: threshold, long press and gains.

ghost use Rattle.std.specs.Prelude.{◌≡◌, pos, [], ◌∷◌};
ghost use Rattle.sl_base.specs.Sounds.{silence, both};
ghost use Rattle.sl_commands.specs.declared.Verb.TheVariants.{Rec, Overdub};
ghost use Rattle.sl_commands.specs.declared.Mode.TheVariants.{Off, Playing, Overdubbing};
ghost use Rattle.sl_commands.specs.declared.Control.TheVariants.{Wet, RecThresh, State, LongPress, Dry, FadeStep};
ghost use Rattle.sl_commands.specs.declared.Target.TheVariants.{One};
ghost use Rattle.sl_commands.specs.declared.Command.TheVariants.{Down, Up, Set, SetGlobal, Get};
ghost use Rattle.sl_commands.specs.Settings.{default_globals};
ghost use Rattle.looper_rules.specs.Worked.{samples, hit, one_loop_run, one_loop_left, gave, value_reply, layer, open_layer, fresh_cells, stack, loop_in, first_controls, track};

/// With a threshold a recording begins at the first frame that is loud enough.
pub fn a_recording_waits_for_its_threshold()
    ensures { let playing =
        loop_in Playing 0 (stack (layer (samples (2 ∷ 3 ∷ [])) 2 2 2 ∷ []) [] 2) in
        one_loop_run
        ((0, Set (One 0) RecThresh (pos 512)) ∷ (0, hit 0 Rec) ∷ (1, Get (One 0) State)
        ∷ (4, hit 0 Rec) ∷ [])
        (samples (1 ∷ 1 ∷ 2 ∷ 3 ∷ 0 ∷ 0 ∷ 0 ∷ 0 ∷ []))
        ≡ gave (samples (0 ∷ 0 ∷ 0 ∷ 0 ∷ 2 ∷ 3 ∷ 2 ∷ 3 ∷ [])) (value_reply 2 0 State 1 ∷ []) []
        (one_loop_left (track
        (record playing { controls = record first_controls { rec_thresh = 512 } }))) }
{}

/// A press of long_press frames gives its verb again as it ends.
pub fn a_long_press_ends_its_overdub()
    ensures { let phrase = samples (1 ∷ 2 ∷ 3 ∷ 4 ∷ []) in
        let left = one_loop_left
        (track (loop_in Playing 0
        (stack (layer phrase 4 6 4 ∷ layer phrase 4 4 2 ∷ []) [] 6))) in
        one_loop_run
        ((0, SetGlobal LongPress (pos 2)) ∷ (0, hit 0 Rec) ∷ (4, hit 0 Rec)
        ∷ (4, Down (One 0) Overdub) ∷ (6, Up (One 0) Overdub) ∷ (7, Get (One 0) State) ∷ [])
        (samples (1 ∷ 2 ∷ 3 ∷ 4 ∷ 0 ∷ 0 ∷ 0 ∷ 0 ∷ []))
        ≡ gave (samples (0 ∷ 0 ∷ 0 ∷ 0 ∷ 1 ∷ 2 ∷ 3 ∷ 4 ∷ [])) (value_reply 5 0 State 4 ∷ []) []
        (record left { globals = record default_globals { long_press = 2 } }) }
{}

/// A press that is shorter leaves its verb on.
pub fn a_short_press_leaves_its_overdub_on()
    ensures { let phrase = samples (1 ∷ 2 ∷ 3 ∷ 4 ∷ []) in
        let below = layer phrase 4 4 2 in
        let left = one_loop_left
        (track (loop_in Overdubbing 0
        (stack (open_layer (fresh_cells phrase) below 4 4 ∷ below ∷ []) [] 8))) in
        one_loop_run
        ((0, SetGlobal LongPress (pos 3)) ∷ (0, hit 0 Rec) ∷ (4, hit 0 Rec)
        ∷ (4, Down (One 0) Overdub) ∷ (6, Up (One 0) Overdub) ∷ (7, Get (One 0) State) ∷ [])
        (samples (1 ∷ 2 ∷ 3 ∷ 4 ∷ 0 ∷ 0 ∷ 0 ∷ 0 ∷ []))
        ≡ gave (samples (0 ∷ 0 ∷ 0 ∷ 0 ∷ 1 ∷ 2 ∷ 3 ∷ 4 ∷ [])) (value_reply 5 0 State 5 ∷ []) []
        (record left { globals = record default_globals { long_press = 3 } }) }
{}

/// The dry gain comes to its target in steps.
pub fn the_dry_gain_moves_by_steps()
    ensures { let left = one_loop_left (track (loop_in Off 0 (stack [] [] 0))) in
        one_loop_run
        ((0, SetGlobal FadeStep (pos 500)) ∷ (0, SetGlobal Dry (pos 1000)) ∷ [])
        (both (pos 1000) ∷ both (pos 1000) ∷ both (pos 1000) ∷ [])
        ≡ gave (both (pos 500) ∷ both (pos 1000) ∷ both (pos 1000) ∷ []) [] []
        (record left {
          globals = record default_globals { fade_step = 500; dry = 1000 };
          dry =
              1000;
        }) }
{}

/// A loop's gain goes to wet in steps, and its last step is shorter.
pub fn a_gain_moves_by_steps()
    ensures { let sounding =
        loop_in Playing 0 (stack (layer (both (pos 1000) ∷ []) 1 1 2 ∷ []) [] 1) in
        let fading = record (track
        (record sounding { controls = record first_controls { wet = 0 } })) { gain = 0 } in
        one_loop_run
        ((0, SetGlobal FadeStep (pos 300)) ∷ (0, hit 0 Rec) ∷ (1, hit 0 Rec)
        ∷ (1, Set (One 0) Wet (pos 0)) ∷ [])
        (both (pos 1000) ∷ silence ∷ silence ∷ silence ∷ silence ∷ [])
        ≡ gave (silence ∷ both (pos 700) ∷ both (pos 400) ∷ both (pos 100) ∷ silence ∷ []) [] []
        (record (one_loop_left fading) { globals = record default_globals { fade_step = 300 } }) }
{}
