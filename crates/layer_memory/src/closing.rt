//! Closing, extending and removing the open layer.

ghost use Rattle.std.specs.Prelude.{◌≡◌, ◌≤◌, ◌<◌, true, false, IsTrue, IfSome};
ghost use Rattle.looper_rules.specs.Layers.{current_length, current_base_length};
ghost use Rattle.looper_rules.specs.Stack.{streak_broken};
ghost use Rattle.looper_rules.specs.Writing.{extension_fits, extended_if};
ghost use Rattle.looper_rules.specs.Closing.{finished, closing_cycle, dropped};
ghost use Rattle.loop_tape.specs.Pools.{PoolOf};
ghost use Rattle.layer_memory.specs.Seen.{seen};

use crate::layers::Layers;
use sl_base::{MAX_LIST_FRAMES, MAX_SEAMS};

/// The cycle of a layer that closes with this length.
fn cycle_at(cycle: u32, length: u32) -> u32
    ensures { result ≡ closing_cycle cycle length }
{
    if cycle == 0 { length } else { cycle }
}

impl Layers {
    /// Puts the open layer on the closed ones.
    #[tactic(auto, using(crate::proofs::ClosingLemmas::closes))]
    fn close(&mut self, cut: Option<u32>)
        requires writing { IsTrue self.old.writing }
        requires cut { IfSome cut (λ n. n ≤ current_length self.old.stack.layers) }
        ensures stack { self.new.stack ≡ finished cut self.old.stack }
        ensures writing { self.new.writing ≡ false }
        ensures tape { self.new.tape ≡ self.old.tape }
    {
        match self.top {
            None => {}
            Some(top) => {
                self.fill.cut(cut);
                self.fill.facts();
                let cycle = cycle_at(top.cycle, self.fill.len());
                let seams = self.fill.seams();
                let end = self.tape.len();
                self.closed.add(self.fill.pieces(), cycle, end, seams);
                self.top = None;
            }
        }
    }

    /// Closes the open layer, with its first `cut` frames or with all. A layer has to be open.
    #[tactic(auto, using(crate::proofs::ClosingLemmas::ends))]
    pub fn finish(&mut self, cut: Option<u32>)
        requires writing { IsTrue self.old.writing }
        requires cut { IfSome cut (λ n. n ≤ current_length self.old.stack.layers) }
        ensures stack { self.new.stack ≡ finished cut self.old.stack }
        ensures seen { (p : PoolOf) → seen self.new p ≡ finished cut (seen self.old p) }
        ensures writing { self.new.writing ≡ false }
        ensures tape { self.new.tape ≡ self.old.tape }
    {
        self.close(cut);
    }

    /// Removes the open layer, without redo. A layer has to be open.
    #[tactic(auto, using(crate::proofs::ExtendingLemmas::drops))]
    pub fn drop_last(&mut self)
        requires writing { IsTrue self.old.writing }
        ensures stack { self.new.stack ≡ dropped self.old.stack }
        ensures seen { (p : PoolOf) → seen self.new p ≡ dropped (seen self.old p) }
        ensures writing { self.new.writing ≡ false }
        ensures tape { self.new.tape ≡ self.old.tape }
    {
        self.seams -= self.fill.seams();
        self.top = None;
    }

    /// Puts the base behind the open layer's list, where it fits.
    #[tactic(auto, using(crate::proofs::ExtendingLemmas::extends))]
    fn add_base(&mut self) -> bool
        requires writing { IsTrue self.old.writing }
        requires base { 0 < current_base_length self.old.stack.layers }
        ensures fits { result ≡ extension_fits self.old.stack }
        ensures stack { self.new.stack ≡ extended_if result self.old.stack }
        ensures writing { self.new.writing ≡ true }
        ensures tape { self.new.tape ≡ self.old.tape }
    {
        self.fill.facts();
        self.closed.facts();
        let length = self.closed.len();
        let seams = self.closed.seams();
        if self.fill.len() + length > MAX_LIST_FRAMES || self.seams + seams > MAX_SEAMS {
            return false;
        }
        self.fill.extend(self.closed.current(), seams);
        self.seams += seams;
        true
    }

    /// Puts the base behind the open layer's list. A layer has to be open whose base isn't empty.
    /// False where that doesn't fit, and then nothing changes.
    #[tactic(auto, using(crate::proofs::ExtendingLemmas::ends))]
    pub fn extend(&mut self) -> bool
        requires writing { IsTrue self.old.writing }
        requires base { 0 < current_base_length self.old.stack.layers }
        ensures fits { (p : PoolOf) → result ≡ extension_fits (seen self.old p) }
        ensures stack { self.new.stack ≡ extended_if result self.old.stack }
        ensures seen { (p : PoolOf) → seen self.new p ≡ extended_if result (seen self.old p) }
        ensures writing { self.new.writing ≡ true }
        ensures tape { self.new.tape ≡ self.old.tape }
    {
        self.add_base()
    }

    /// Ends the streak: the next write begins another. A layer has to be open.
    pub fn break_streak(&mut self)
        requires writing { IsTrue self.old.writing }
        ensures stack { self.new.stack ≡ streak_broken self.old.stack }
        ensures seen { (p : PoolOf) → seen self.new p ≡ streak_broken (seen self.old p) }
        ensures writing { self.new.writing ≡ true }
        ensures tape { self.new.tape ≡ self.old.tape }
    {
        self.fill.break_streak();
    }
}
