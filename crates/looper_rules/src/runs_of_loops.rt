//! Worked runs of more loops, of a save, and of the last chunk.

ghost use Rattle.std.specs.Prelude.{◌≡◌, pos, [], ◌∷◌, ◌++◌, Option, None, codes, replicate};
ghost use Rattle.sl_base.specs.Sounds.{silence};
ghost use Rattle.sl_commands.specs.declared.Verb.TheVariants.{Rec, Overdub, Mute, Undo};
ghost use Rattle.sl_commands.specs.declared.Mode.TheVariants.{Recording, Playing, Overdubbing, Muted};
ghost use Rattle.sl_commands.specs.declared.How.TheVariants.{Forward, Append};
ghost use Rattle.sl_commands.specs.declared.Control.TheVariants.{Quantize, State, LoopLen, Waiting, Refused, FreeTime, SyncSource};
ghost use Rattle.sl_commands.specs.declared.Target.TheVariants.{One, All};
ghost use Rattle.sl_commands.specs.declared.Command.TheVariants.{Set, SetGlobal, Get, SaveLoop, SaveSession, Release};
ghost use Rattle.sl_commands.specs.Settings.{default_globals, default_strip, default_settings};
ghost use Rattle.looper_rules.specs.Layers.{old_cells};
ghost use Rattle.looper_rules.specs.Run.{run, start};
ghost use Rattle.looper_rules.specs.Worked.{sample, samples, hit, journal, new_looper, one_loop_run, one_loop_left, gave, value_reply, save_reply, saved, session_reply, session_saved, layer, open_layer, recorded_layer, fresh_cells, stack, last_write, loop_in, first_controls, track};

/// A mute of one loop and an overdub of another wait for the first one's cycle.
pub fn two_loops_wait_for_one_cycle()
    ensures { let first = samples (1 ∷ 2 ∷ 3 ∷ 4 ∷ []) in
        let second = samples (5 ∷ 6 ∷ 7 ∷ 8 ∷ []) in
        let below = layer second 4 4 2 in
        let quantised = record first_controls { quantize = 1 } in
        let muted = loop_in Muted 0 (stack (layer first 4 4 2 ∷ []) [] 4) in
        let overdubbing = loop_in Overdubbing 0
        (stack (open_layer (fresh_cells second) below 4 4 ∷ below ∷ []) [] 8) in
        run
        (journal ((0, hit 0 Rec) ∷ (4, hit 0 Rec) ∷ (4, hit 1 Rec) ∷ (8, hit 1 Rec)
        ∷ (8, Set (One 0) Quantize (pos 1)) ∷ (8, Set (One 1) Quantize (pos 1))
        ∷ (8, SetGlobal SyncSource (pos 1)) ∷ (9, hit 0 Mute) ∷ (9, hit 1 Overdub)
        ∷ (10, Get (One 1) Waiting) ∷ (12, Get (One 1) State) ∷ (13, Get (One 1) State)
        ∷ (13, Get (One 0) State) ∷ []))
        (samples (1 ∷ 2 ∷ 3 ∷ 4 ∷ 5 ∷ 6 ∷ 7 ∷ 8 ∷ 0 ∷ 0 ∷ 0 ∷ 0 ∷ 0 ∷ 0 ∷ 0 ∷ 0 ∷ []))
        (new_looper 2 4096)
        ≡ gave
        (samples (0 ∷ 0 ∷ 0 ∷ 0 ∷ 1 ∷ 2 ∷ 3 ∷ 4 ∷ 6 ∷ 8 ∷ 10 ∷ 12 ∷ 5 ∷ 6 ∷ 7 ∷ 8 ∷ []))
        (value_reply 9 1 Waiting 1 ∷ value_reply 10 1 State 4 ∷ value_reply 11 1 State 5
        ∷ value_reply 12 0 State 10 ∷ []) []
        (record (new_looper 2 4096) {
          globals = record default_globals { sync_source = pos 1 };
          tracks = track (record muted { controls = quantised })
              ∷ track (record overdubbing { controls = quantised }) ∷ [];
        }) }
{}

/// A saved list stays as it was through an undo and a new recording, which goes on behind the pin.
/// A second save is busy. The release answers the first.
pub fn a_save_holds_its_list()
    ensures { let phrase = samples (1 ∷ 2 ∷ 3 ∷ 4 ∷ []) in
        let settings = record (default_settings 48000 1)
        { strips = record default_strip { length = 4; cycle = 4 } ∷ [] } in
        let take = saved 0 0 (codes "take.wav") settings phrase in
        let recording = loop_in Recording 5
        (record (stack (recorded_layer (samples (0 ∷ 0 ∷ 0 ∷ 0 ∷ 0 ∷ [])) 4 2 ∷ []) [] 9)
        { streak = last_write 4 Append }) in
        one_loop_run
        ((0, hit 0 Rec) ∷ (4, hit 0 Rec) ∷ (8, SaveLoop (One 0) (codes "take.wav"))
        ∷ (9, hit 0 Undo) ∷ (9, hit 0 Rec) ∷ (10, SaveLoop (One 0) (codes "other.wav"))
        ∷ (12, Release (One 0) 0) ∷ (12, Get (One 0) LoopLen) ∷ [])
        (samples (1 ∷ 2 ∷ 3 ∷ 4 ∷ 0 ∷ 0 ∷ 0 ∷ 0 ∷ 0 ∷ 0 ∷ 0 ∷ 0 ∷ 0 ∷ 0 ∷ []))
        ≡ gave
        (samples (0 ∷ 0 ∷ 0 ∷ 0 ∷ 1 ∷ 2 ∷ 3 ∷ 4 ∷ 1 ∷ 0 ∷ 0 ∷ 0 ∷ 0 ∷ 0 ∷ []))
        (save_reply 5 0 2 ∷ save_reply 2 0 0 ∷ value_reply 6 0 LoopLen 3 ∷ []) (take ∷ [])
        (record (one_loop_left (track recording)) { saves = 1 }) }
{}

/// A session is saved with its settings and all lists, and its release answers it.
pub fn a_session_is_saved_whole()
    ensures { let phrase = samples (1 ∷ 2 ∷ 3 ∷ 4 ∷ []) in
        let settings = record (default_settings 48000 1)
        { strips = record default_strip { length = 4; cycle = 4 } ∷ [] } in
        one_loop_run
        ((0, hit 0 Rec) ∷ (4, hit 0 Rec) ∷ (4, SaveSession (codes "set1")) ∷ (4, Release All 0)
        ∷ [])
        (samples (1 ∷ 2 ∷ 3 ∷ 4 ∷ 5 ∷ 6 ∷ 7 ∷ 8 ∷ []))
        ≡ gave (samples (0 ∷ 0 ∷ 0 ∷ 0 ∷ 1 ∷ 2 ∷ 3 ∷ 4 ∷ [])) (session_reply 2 0 ∷ [])
        (session_saved 0 (codes "set1") settings (phrase ∷ []) ∷ [])
        (record (one_loop_left (track (loop_in Playing 0 (stack (layer phrase 4 4 2 ∷ []) [] 4))))
        { saves = 1 }) }
{}

/// Two loops of 4094 frames overdub two frames each, and then want the last chunk. The first one
/// gets it. The second one is refused, plays on, and has what it wrote so far.
pub fn the_last_chunk_goes_to_the_first_loop()
    ensures { let list = replicate 4094 silence in
        let below = layer list 4094 4094 2 in
        let strip = record default_strip { length = 4094; cycle = 4094 } in
        let looper = start (record (default_settings 48000 2) { strips = strip ∷ strip ∷ [] }) 3
        (list ∷ list ∷ []) in
        let taken = open_layer (fresh_cells (samples (1 ∷ 2 ∷ 3 ∷ 4 ∷ []))
        ++ old_cells (replicate 4090 silence)) below 4094 4 in
        let writing = loop_in Overdubbing 4
        (record (stack (taken ∷ below ∷ []) [] 4098) { streak = last_write 3 Forward }) in
        let refused = layer (samples (1 ∷ 2 ∷ []) ++ replicate 4092 silence) 4094 4096 4 in
        let playing = record (loop_in Playing 4 (stack (refused ∷ below ∷ []) [] 4096))
        { refused = 1 } in
        run
        (journal ((0, hit 1 Overdub) ∷ (0, hit 0 Overdub) ∷ (4, Get (One 0) State)
        ∷ (4, Get (One 1) State) ∷ (4, Get (One 0) Refused) ∷ (4, Get (One 1) Refused)
        ∷ (4, Get (One 0) FreeTime) ∷ []))
        (samples (1 ∷ 2 ∷ 3 ∷ 4 ∷ []))
        looper
        ≡ gave
        (samples (0 ∷ 0 ∷ 0 ∷ 0 ∷ []))
        (value_reply 2 0 State 5 ∷ value_reply 3 1 State 4 ∷ value_reply 4 0 Refused 0
        ∷ value_reply 5 1 Refused 1 ∷ value_reply 6 0 FreeTime 0 ∷ []) []
        (record looper { tracks = track writing ∷ track playing ∷ [] }) }
{}
