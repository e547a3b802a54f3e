//! Frames and commands change at most the current layer of a loop. Gets change nothing, and a
//! refused opening next to it.

ghost use Rattle.std.specs.Prelude.{◌≡◌, ◌≢◌, ◌≤◌, ◌<◌, ℕ, true, false, IsFalse, length, Some};
ghost use Rattle.sl_base.specs.Sounds.{Sound, loudness};
ghost use Rattle.sl_commands.specs.declared.Verb.{Verb};
ghost use Rattle.sl_commands.specs.declared.Verb.TheVariants.{Rec};
ghost use Rattle.sl_commands.specs.declared.Mode.{Mode};
ghost use Rattle.sl_commands.specs.declared.Mode.TheVariants.{Off, WaitStart, Recording};
ghost use Rattle.sl_commands.specs.declared.Started.TheVariants.{Ok as Granted};
ghost use Rattle.sl_commands.specs.declared.Control.{Control};
ghost use Rattle.sl_commands.specs.declared.Target.{Target};
ghost use Rattle.sl_commands.specs.declared.Command.TheVariants.{Get, GetGlobal, Quit};
ghost use Rattle.sl_commands.specs.declared.Entry.{Entry};
ghost use Rattle.looper_rules.specs.Layers.{without_current};
ghost use Rattle.looper_rules.specs.Opening.{opening};
ghost use Rattle.looper_rules.specs.Loop.{Loop, is_writing, refused_once};
ghost use Rattle.looper_rules.specs.History.{settled};
ghost use Rattle.looper_rules.specs.Starting.{starts_record, starts, leaves_wait};
ghost use Rattle.looper_rules.specs.Verbs.{acts};
ghost use Rattle.looper_rules.specs.LoopFrame.{awake, frame_later};
ghost use Rattle.looper_rules.specs.Looper.{Looper};
ghost use Rattle.looper_rules.specs.Entries.{applied};
ghost use Rattle.looper_rules.specs.Frame.{at_boundaries, framed};
ghost use Rattle.looper_laws.specs.Undoing.{opens_as};
ghost use Rattle.looper_laws.specs.OtherLayers.{OthersStay, OthersStayOnAll, KeepsLists, CountsRefusal};

/// The layers that aren't the current one stay as they are, in their order, but for the redo layers
/// that an opening drops.
pub fn only_the_current_layer_changes()
    ensures verbs { (verb : Verb) → (reach : ℕ) → (l : Loop Sound) →
        OthersStay l.stack (acts verb reach l).stack }
    ensures frames { (x : Sound) → (reach : ℕ) → (l : Loop Sound) →
        OthersStay l.stack (frame_later x reach l).stack }

    // Of all loops of a looper: at an entry of any command, and at a frame, where waiting verbs act
    // first.
    ensures entries { (frame : ℕ) → (e : Entry) → (l : Looper) →
        OthersStayOnAll l.tracks (applied frame e l).tracks }
    ensures boundaries { (frame : ℕ) → (l : Looper) →
        OthersStayOnAll l.tracks (at_boundaries frame l).tracks }
    ensures framed { (frame : ℕ) → (x : Sound) → (l : Looper) →
        OthersStayOnAll (at_boundaries frame l).tracks (framed frame x l).looper.tracks }
{}

/// A get gives its reply and changes nothing, whether or not it is valid; nor does `quit`.
pub fn a_get_changes_nothing()
    ensures of_a_loop { (frame : ℕ) → (e : Entry) → (target : Target) → (control : Control) →
        (l : Looper) →
        e.command ≡ Get target control → applied frame e l ≡ l }
    ensures of_the_looper { (frame : ℕ) → (e : Entry) → (control : Control) → (l : Looper) →
        e.command ≡ GetGlobal control → applied frame e l ≡ l }
    ensures quit { (frame : ℕ) → (e : Entry) → (l : Looper) → e.command ≡ Quit →
        applied frame e l ≡ l }
{}

/// An opening that is refused changes nothing but the count of refusals.
pub fn a_refused_opening_is_counted_alone()
    ensures recording { (reach : ℕ) → (l : Loop Sound) → l.controls.rec_thresh ≡ 0 →
        opening reach true l.stack ≢ Granted →
        CountsRefusal l (starts_record reach l) }
    ensures others { (reach : ℕ) → (mode : Mode) → (l : Loop Sound) →
        opening reach false l.stack ≢ Granted →
        CountsRefusal l (starts mode reach l) }

    // The verb around it may have closed a layer before.
    ensures recording_verb { (reach : ℕ) → (l : Loop Sound) → l.deck.mode ≢ WaitStart →
        l.deck.mode ≢ Recording →
        l.controls.rec_thresh ≡ 0 → opening reach true (settled l).stack ≢ Granted →
        CountsRefusal (settled l) (acts Rec reach l) }
    ensures other_verbs { (verb : Verb) → (mode : Mode) → (reach : ℕ) → (l : Loop Sound) →
        opens_as verb l.deck.backward ≡ Some mode → l.deck.mode ≢ mode → l.deck.mode ≢ Off →
        l.deck.mode ≢ WaitStart →
        (settled l).deck.mode ≢ Off → opening reach false (settled l).stack ≢ Granted →
        CountsRefusal (settled l) (acts verb reach l) }

    // In WaitStart the verb leaves it first.
    ensures waiting_verbs { (verb : Verb) → (mode : Mode) → (reach : ℕ) → (l : Loop Sound) →
        opens_as verb l.deck.backward ≡ Some mode → l.deck.mode ≡ WaitStart →
        1 ≤ length l.stack.layers →
        opening reach false l.stack ≢ Granted → CountsRefusal (leaves_wait l) (acts verb reach l) }

    // A loud frame leaves WaitStart behind it.
    ensures loud { (x : Sound) → (reach : ℕ) → (l : Loop Sound) → l.deck.mode ≡ WaitStart →
        l.controls.rec_thresh ≤ loudness x → opening reach true l.stack ≢ Granted →
        awake x reach l ≡ leaves_wait (refused_once l) }
{}

/// A frame outside a writing mode keeps every list. In WaitStart it changes nothing where it isn't
/// loud enough; where it is, and a layer is opened, all lists stay below it.
pub fn a_frame_outside_a_writing_mode_keeps_every_list()
    ensures others { (x : Sound) → (reach : ℕ) → (l : Loop Sound) →
        IsFalse (is_writing l.deck.mode) → l.deck.mode ≢ WaitStart →
        KeepsLists l.stack (frame_later x reach l).stack }
    ensures waiting { (x : Sound) → (reach : ℕ) → (l : Loop Sound) → l.deck.mode ≡ WaitStart →
        loudness x < l.controls.rec_thresh → frame_later x reach l ≡ l }
    ensures refused { (x : Sound) → (reach : ℕ) → (l : Loop Sound) → l.deck.mode ≡ WaitStart →
        l.controls.rec_thresh ≤ loudness x → opening reach true l.stack ≢ Granted →
        KeepsLists l.stack (frame_later x reach l).stack }
    ensures opened { (x : Sound) → (reach : ℕ) → (l : Loop Sound) → l.deck.mode ≡ WaitStart →
        l.controls.rec_thresh ≤ loudness x → opening reach true l.stack ≡ Granted →
        without_current (frame_later x reach l).stack.layers ≡ l.stack.layers }
{}
