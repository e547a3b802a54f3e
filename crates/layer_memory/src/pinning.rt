//! The hold on a list that is being saved.

ghost use Rattle.std.specs.Prelude.{◌≡◌, IsTrue, IsFalse};
ghost use Rattle.std.specs.declared.option.Option.TheVariants.{None};
ghost use Rattle.looper_rules.specs.Saves.{pinned, unpinned};
ghost use Rattle.loop_tape.specs.Pools.{PoolOf};
ghost use Rattle.layer_memory.specs.Seen.{seen};

use crate::layers::Layers;

impl Layers {
    /// Holds the current list of closed layers.
    #[tactic(auto, using(crate::proofs::PinLemmas::pins))]
    fn hold_closed(&mut self)
        requires closed { IsFalse self.old.writing }
        ensures stack { self.new.stack ≡ pinned self.old.stack }
        ensures writing { self.new.writing ≡ self.old.writing }
        ensures tape { self.new.tape ≡ self.old.tape }
    {
        self.closed.facts();
        self.pinned.set_to(self.closed.current());
        self.pin = Some(self.tape.len());
    }

    /// Holds the open layer's list.
    #[tactic(auto, using(crate::proofs::PinLemmas::pins))]
    fn hold_open(&mut self)
        requires writing { IsTrue self.old.writing }
        ensures stack { self.new.stack ≡ pinned self.old.stack }
        ensures writing { self.new.writing ≡ self.old.writing }
        ensures tape { self.new.tape ≡ self.old.tape }
    {
        self.fill.facts();
        self.pinned.set_to(self.fill.pieces());
        self.fill.freeze();
        self.pin = Some(self.tape.len());
    }

    /// Holds the current list.
    fn hold(&mut self)
        requires free { self.old.stack.pin ≡ None }
        ensures stack { self.new.stack ≡ pinned self.old.stack }
        ensures writing { self.new.writing ≡ self.old.writing }
        ensures tape { self.new.tape ≡ self.old.tape }
    {
        if self.top.is_some() {
            self.hold_open();
            return;
        }
        self.hold_closed();
    }

    /// Pins the current list, so that `saved` gives it until `release`. No pin may stand.
    #[tactic(auto, using(crate::proofs::PinLemmas::ends))]
    pub fn pin(&mut self)
        requires free { self.old.stack.pin ≡ None }
        ensures stack { self.new.stack ≡ pinned self.old.stack }
        ensures seen { (p : PoolOf) → seen self.new p ≡ pinned (seen self.old p) }
        ensures writing { self.new.writing ≡ self.old.writing }
        ensures tape { self.new.tape ≡ self.old.tape }
    {
        self.hold();
    }

    /// Takes the pin away, where one stands.
    #[tactic(auto, using(crate::proofs::PinLemmas::ends))]
    pub fn release(&mut self)
        ensures stack { self.new.stack ≡ unpinned self.old.stack }
        ensures seen { (p : PoolOf) → seen self.new p ≡ unpinned (seen self.old p) }
        ensures writing { self.new.writing ≡ self.old.writing }
        ensures tape { self.new.tape ≡ self.old.tape }
    {
        self.pin = None;
    }
}
