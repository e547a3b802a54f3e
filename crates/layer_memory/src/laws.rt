//! What holds of several calls together.

ghost use Rattle.std.specs.Prelude.{◌≡◌, ◌<◌, ℕ, Bool, Option, length, IsFalse};
ghost use Rattle.sl_base.specs.Sounds.{Sound};
ghost use Rattle.looper_rules.specs.Layers.{current_list};
ghost use Rattle.looper_rules.specs.Stack.{Stack, pinned_list};
ghost use Rattle.looper_rules.specs.Opening.{opened};
ghost use Rattle.looper_rules.specs.Closing.{finished};
ghost use Rattle.looper_rules.specs.History.{undone};
ghost use Rattle.looper_rules.specs.Saves.{pinned};
ghost use Rattle.layer_memory.specs.Between.{AreWrites, AreChanges};

use crate::layers::Layers;

/// Undo, then redo: all is as before.
#[tactic(auto, using(crate::proofs::LawLemmas::moves))]
pub fn undo_then_redo_changes_nothing(layers: &mut Layers)
    requires closed { IsFalse layers.old.writing }
    requires some { 0 < length layers.old.stack.layers }
    ensures { layers.new ≡ layers.old }
{
    layers.undo();
    layers.redo();
}

/// An opening and any writes, then the closing and an undo: the list is that from before.
#[tactic(auto, using(crate::proofs::LawLemmas::openings))]
pub fn undo_gives_back_the_list_before_an_opening()
    ensures { (s t : Stack Sound) (empty : Bool) (cut : Option ℕ) → AreWrites (opened empty s) t →
        current_list (undone (finished cut t)).layers ≡ current_list s.layers }
{}

/// What was pinned is what is saved, whatever is opened, written, closed, undone and redone in
/// between.
#[tactic(auto, using(crate::proofs::LawLemmas::holds))]
pub fn what_was_pinned_is_saved()
    ensures { (s t : Stack Sound) → AreChanges (pinned s) t →
        pinned_list t.pin ≡ current_list s.layers }
{}
