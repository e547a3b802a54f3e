//! Undo and redo.

ghost use Rattle.std.specs.Prelude.{◌≡◌, ◌<◌, length, false, IsTrue, IsFalse, ◌↔◌};
ghost use Rattle.looper_rules.specs.History.{undone, redone};
ghost use Rattle.loop_tape.specs.Pools.{PoolOf};
ghost use Rattle.layer_memory.specs.Seen.{seen};

use crate::layers::Layers;

impl Layers {
    /// Moves the current layer to the redo layers. No layer may be open. False where there is none,
    /// and then nothing changes.
    #[tactic(auto, using(crate::proofs::ClosingLemmas::moves))]
    pub fn undo(&mut self) -> bool
        requires closed { IsFalse self.old.writing }
        ensures left { IsTrue result ↔ (0 < length self.old.stack.layers) }
        ensures stack { self.new.stack ≡ undone self.old.stack }
        ensures seen { (p : PoolOf) → seen self.new p ≡ undone (seen self.old p) }
        ensures writing { self.new.writing ≡ false }
        ensures tape { self.new.tape ≡ self.old.tape }
    {
        self.seams -= self.closed.seams();
        self.closed.undo()
    }

    /// Moves the next redo layer back. No layer may be open. False where there is none, and then
    /// nothing changes.
    #[tactic(auto, using(crate::proofs::ClosingLemmas::moves))]
    pub fn redo(&mut self) -> bool
        requires closed { IsFalse self.old.writing }
        ensures left { IsTrue result ↔ (0 < length self.old.stack.redo) }
        ensures stack { self.new.stack ≡ redone self.old.stack }
        ensures seen { (p : PoolOf) → seen self.new p ≡ redone (seen self.old p) }
        ensures writing { self.new.writing ≡ false }
        ensures tape { self.new.tape ≡ self.old.tape }
    {
        self.closed.facts();
        self.seams += self.closed.redo_seams();
        self.closed.redo()
    }
}
