//! Undo gives back what stood before an opening, and redo gives back what undo moved.

ghost use Rattle.std.specs.Prelude.{◌≡◌, ◌≢◌, ◌≤◌, ℕ, IsTrue, true, false, length, Some};
ghost use Rattle.sl_base.specs.Sounds.{Sound, loudness};
ghost use Rattle.sl_commands.specs.declared.Verb.{Verb};
ghost use Rattle.sl_commands.specs.declared.Verb.TheVariants.{Rec, Undo, Redo};
ghost use Rattle.sl_commands.specs.declared.Mode.{Mode};
ghost use Rattle.sl_commands.specs.declared.Mode.TheVariants.{Off, WaitStart, Recording};
ghost use Rattle.sl_commands.specs.declared.Started.TheVariants.{Ok as Granted};
ghost use Rattle.looper_rules.specs.Layers.{current_list};
ghost use Rattle.looper_rules.specs.Opening.{opening};
ghost use Rattle.looper_rules.specs.Loop.{Loop, is_writing, length_of};
ghost use Rattle.looper_rules.specs.Closing.{closed};
ghost use Rattle.looper_rules.specs.Starting.{leaves_wait};
ghost use Rattle.looper_rules.specs.History.{settled, undone, redone};
ghost use Rattle.looper_rules.specs.Verbs.{acts};
ghost use Rattle.looper_rules.specs.LoopFrame.{awake, frame_later};
ghost use Rattle.looper_laws.specs.Undoing.{opens_as, cut_of, IsOpenedFrom, StaysOpen, StandsClosed};

/// A writing verb opens the loop, once its open layer is closed, where the opening is granted and
/// the mode isn't the verb's own. A loud frame opens a loop in WaitStart.
pub fn a_writing_verb_opens_a_loop()
    ensures recording { (reach : ℕ) → (l : Loop Sound) → l.deck.mode ≢ WaitStart →
        l.deck.mode ≢ Recording →
        l.controls.rec_thresh ≡ 0 → opening reach true (settled l).stack ≡ Granted →
        IsOpenedFrom (settled l) (acts Rec reach l) }

    // The others open in no loop that is Off, nor in one that closing makes Off.
    ensures others { (verb : Verb) → (mode : Mode) → (reach : ℕ) → (l : Loop Sound) →
        opens_as verb l.deck.backward ≡ Some mode → l.deck.mode ≢ mode → l.deck.mode ≢ Off →
        l.deck.mode ≢ WaitStart →
        (settled l).deck.mode ≢ Off → opening reach false (settled l).stack ≡ Granted →
        IsOpenedFrom (settled l) (acts verb reach l) }
    ensures loud { (x : Sound) → (reach : ℕ) → (l : Loop Sound) → l.deck.mode ≡ WaitStart →
        l.controls.rec_thresh ≤ loudness x → opening reach true l.stack ≡ Granted →
        IsOpenedFrom l (awake x reach l) }

    // In WaitStart each of the others leaves it first.
    ensures waiting { (verb : Verb) → (mode : Mode) → (reach : ℕ) → (l : Loop Sound) →
        opens_as verb l.deck.backward ≡ Some mode →
        l.deck.mode ≡ WaitStart → 1 ≤ length l.stack.layers →
        opening reach false l.stack ≡ Granted →
        IsOpenedFrom (leaves_wait l) (acts verb reach l) }

    // That frame is the open loop's first one.
    ensures goes_on { (x : Sound) → (reach : ℕ) → (l : Loop Sound) → l.deck.mode ≡ WaitStart →
        l.controls.rec_thresh ≤ loudness x → opening reach true l.stack ≡ Granted →
        frame_later x reach l ≡ frame_later x reach (awake x reach l) }
{}

/// A layer was opened, and is still open after any frames, saves and settings. Unless its list is
/// empty, undo gives back the list from before the opening, and all layers as they were.
pub fn undo_gives_back_the_list_before_an_opening()
    ensures list { (reach : ℕ) → (before opened now : Loop Sound) → IsOpenedFrom before opened →
        StaysOpen opened now →
        1 ≤ length_of now →
        current_list (acts Undo reach now).stack.layers ≡ current_list before.stack.layers }
    ensures layers { (reach : ℕ) → (before opened now : Loop Sound) → IsOpenedFrom before opened →
        StaysOpen opened now →
        1 ≤ length_of now → (acts Undo reach now).stack.layers ≡ before.stack.layers }
{}

/// Where undo moved a layer, which it does where one is left once an open one is closed, redo right
/// behind it gives that layer back as it was moved: its list, its cycle, its end and its seams, and
/// all the rest of the stack.
pub fn redo_gives_back_the_layer_that_undo_moved()
    ensures stack { (reach more : ℕ) → (l : Loop Sound) → 1 ≤ length (settled l).stack.layers →
        (acts Redo more (acts Undo reach l)).stack ≡ (settled l).stack }

    // An open layer comes back closed.
    ensures closed { (reach more : ℕ) → (l : Loop Sound) → IsTrue (is_writing l.deck.mode) →
        1 ≤ length_of l →
        StandsClosed (cut_of l) l.stack.tape l.stack.layers
        (acts Redo more (acts Undo reach l)).stack.layers }
{}

/// In every mode undo moves the current layer, once an open one is closed, to the redo layers, and
/// redo moves the next one back. Both leave all other layers, the tape and the pin as they are.
pub fn undo_and_redo_move_one_layer()
    ensures undo { (reach : ℕ) → (l : Loop Sound) →
        (acts Undo reach l).stack ≡ undone (settled l).stack }
    ensures redo { (reach : ℕ) → (l : Loop Sound) → (acts Redo reach l).stack ≡ redone l.stack }
{}

/// A layer that is closed, of a list that isn't empty, stands on the others as they were. It has
/// its list still, but that a Multiplying beyond its base cuts it to pos frames, and its cycle, or
/// its length where it had none.
pub fn a_closed_layer_keeps_its_list()
    ensures { (l : Loop Sound) → IsTrue (is_writing l.deck.mode) → 1 ≤ length_of l →
        StandsClosed (cut_of l) l.stack.tape l.stack.layers (closed l).stack.layers }
{}

/// In WaitStart `record` only leaves it, and every other verb does what it does behind it.
pub fn a_verb_leaves_wait_start_first()
    ensures recording { (reach : ℕ) → (l : Loop Sound) → l.deck.mode ≡ WaitStart →
        acts Rec reach l ≡ leaves_wait l }
    ensures others { (verb : Verb) → (reach : ℕ) → (l : Loop Sound) → l.deck.mode ≡ WaitStart →
        verb ≢ Rec →
        acts verb reach l ≡ acts verb reach (leaves_wait l) }
    ensures stack { (l : Loop Sound) → (leaves_wait l).stack ≡ l.stack }
{}
