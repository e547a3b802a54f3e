//! Writes.

ghost use Rattle.std.specs.Prelude.{◌≡◌, ◌≢◌, ℕ, ◌≤◌, ◌<◌, ◌+◌, ◌-◌, length, true, false, IsTrue, IsFalse, IfSome, is_some, slice_get, nat_le, nat_lt, ◌&&◌, ◌||◌, if◌then◌else◌};
ghost use Rattle.sl_base.specs.Limits.{max_list_frames, max_seams};
ghost use Rattle.looper_rules.specs.Layers.{total_seams, current_length, current_cells, is_fresh};
ghost use Rattle.looper_rules.specs.Stack.{streak_broken};
ghost use Rattle.looper_rules.specs.Room.{has_room};
ghost use Rattle.looper_rules.specs.Writing.{overwrites, meets_fresh, newly_written};
ghost use Rattle.looper_rules.specs.WritePlaces.{IsPlace, Follows};
ghost use Rattle.loop_tape.specs.Tapes.{Owns, Pushed, IsWhole, at};
ghost use Rattle.lazy_fill.specs.Streaks.{IsShort};
ghost use Rattle.layer_memory.specs.Seen.{reach};
ghost use Rattle.layer_memory.specs.Kept.{Alone};
ghost use Rattle.layer_memory.specs.Answers.{Keeps, Written};

use crate::layers::Layers;
use loop_tape::Pool;
use sl_base::{Frame, MAX_LIST_FRAMES, MAX_SEAMS};
use sl_commands::How;

impl Layers {
    /// The address of the open layer's cell at a place, where that is fresh.
    #[tactic(auto, using(crate::proofs::FreshLemmas::freshes))]
    fn fresh_at(&self, place: u32) -> Option<u32>
        requires writing { IsTrue self.now.writing }
        requires place { place < current_length self.now.stack.layers }
        ensures fresh { is_fresh (slice_get (current_cells self.now.stack.layers) place) ≡ is_some
            result }
        ensures alone { IfSome result (λ a. Alone place a self.now.stack) }
        ensures within { IfSome result (λ a. a < self.now.tape.len) }
    {
        self.fill.facts();
        let address = self.fill.address(place);
        if self.fill.marks(address) {
            Some(address)
        } else {
            None
        }
    }

    /// Writes over a fresh cell.
    #[tactic(auto, using(crate::proofs::WriteLemmas::writes))]
    fn rewrite(&mut self, pool: &mut Pool, address: u32, frame: Frame)
        requires writing { IsTrue self.old.writing }
        requires owns { Owns self.old.tape pool.old }
        requires within { address < self.old.tape.len }
        ensures stack { self.new.stack ≡ streak_broken self.old.stack }
        ensures writing { self.new.writing ≡ true }
        ensures tape { self.new.tape ≡ self.old.tape }
        ensures there { at self.new.tape pool.new address ≡ frame }
        ensures elsewhere { (b : ℕ) → b < self.old.tape.len → b ≢ address →
            at self.new.tape pool.new b ≡ at self.old.tape pool.old b }
        ensures keeps { Keeps self.old self.new pool.old pool.new }
    {
        self.tape.facts();
        self.tape.set(pool, address, frame);
        self.fill.break_streak();
    }

    /// Whether seams and length let a new cell be written.
    fn may_add(&self, how: How) -> bool
        requires { IsTrue self.now.writing }
        ensures short { IsTrue result → IsShort how (current_length self.now.stack.layers) }
        ensures value { result
            ≡ ((is_some self.now.stack.streak
            || nat_le (total_seams self.now.stack.layers) (max_seams - 2))
            && (overwrites how || nat_lt (current_length self.now.stack.layers) max_list_frames)) }
        ensures seams { IsTrue result → total_seams self.now.stack.layers
            + (if is_some self.now.stack.streak then 0 else 2) ≤ max_seams }
    {
        self.fill.facts();
        if !self.fill.has_streak() && self.seams > MAX_SEAMS - 2 {
            return false;
        }
        match how {
            How::Forward => true,
            How::Backward => true,
            How::Insert => self.fill.len() < MAX_LIST_FRAMES,
            How::Append => self.fill.len() < MAX_LIST_FRAMES,
        }
    }

    /// Writes a new cell, where the tape has room.
    #[tactic(auto, using(crate::proofs::WriteLemmas::writes))]
    fn push(&mut self, pool: &mut Pool, place: u32, frame: Frame, how: How) -> bool
        requires writing { IsTrue self.old.writing }
        requires owns { Owns self.old.tape pool.old }
        requires place { IsPlace how place (current_length self.old.stack.layers) }
        requires follows { Follows self.old.stack.streak how place }
        requires short { IsShort how (current_length self.old.stack.layers) }
        requires seams { total_seams self.old.stack.layers
            + (if is_some self.old.stack.streak then 0 else 2) ≤ max_seams }
        ensures room { result ≡ has_room (reach self.old pool.old) self.old.stack.tape }
        ensures full { IsFalse result → (self.new ≡ self.old) × (pool.new ≡ pool.old) }
        ensures stack { IsTrue result →
            self.new.stack ≡ newly_written how place self.old.tape.len self.old.stack }
        ensures writing { IsTrue result → self.new.writing ≡ true }
        ensures pushed { IsTrue result →
            Pushed self.old.tape self.new.tape pool.old pool.new frame }
        ensures whole { IsTrue result → IsWhole self.new.tape }
    {
        self.tape.facts();
        self.fill.facts();
        let more = self.fill.more();
        if !self.tape.push(pool, frame) {
            return false;
        }
        self.tape.facts();
        self.seams += more;
        self.fill.write(place, how);
        true
    }

    /// Writes a new cell, where it fits.
    #[tactic(auto, using(crate::proofs::WriteLemmas::answers))]
    fn write_new(&mut self, pool: &mut Pool, place: u32, frame: Frame, how: How) -> bool
        requires writing { IsTrue self.old.writing }
        requires owns { Owns self.old.tape pool.old }
        requires place { IsPlace how place (current_length self.old.stack.layers) }
        requires follows { Follows self.old.stack.streak how place }
        requires stale { meets_fresh how place self.old.stack ≡ false }
        ensures { Written how place frame self.old self.new pool.old pool.new result }
    {
        if !self.may_add(how) {
            return false;
        }
        self.facts();
        self.push(pool, place, frame, how)
    }

    /// Writes over the cell at a place.
    #[tactic(auto, using(crate::proofs::WriteLemmas::answers))]
    fn write_over(&mut self, pool: &mut Pool, place: u32, frame: Frame, how: How) -> bool
        requires writing { IsTrue self.old.writing }
        requires owns { Owns self.old.tape pool.old }
        requires over { overwrites how ≡ true }
        requires place { place < current_length self.old.stack.layers }
        requires follows { Follows self.old.stack.streak how place }
        ensures { Written how place frame self.old self.new pool.old pool.new result }
    {
        self.facts();
        match self.fresh_at(place) {
            Some(address) => {
                self.rewrite(pool, address, frame);
                true
            }
            None => self.write_new(pool, place, frame, how),
        }
    }

    /// Writes a frame in this manner, over the cell at a place, before it, or at the end. A layer
    /// has to be open, and where a streak goes on the write has to go on with it. False where it
    /// doesn't fit, and then nothing changes.
    pub fn write(&mut self, pool: &mut Pool, place: u32, frame: Frame, how: How) -> bool
        requires writing { IsTrue self.old.writing }
        requires owns { Owns self.old.tape pool.old }
        requires place { IsPlace how place (current_length self.old.stack.layers) }
        requires follows { Follows self.old.stack.streak how place }
        ensures { Written how place frame self.old self.new pool.old pool.new result }
    {
        match how {
            How::Forward => self.write_over(pool, place, frame, how),
            How::Backward => self.write_over(pool, place, frame, how),
            How::Insert => self.write_new(pool, place, frame, how),
            How::Append => self.write_new(pool, place, frame, how),
        }
    }
}
