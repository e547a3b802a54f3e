//! The list with which a loop begins.

ghost use Rattle.std.specs.Prelude.{◌≡◌, ◌≤◌, length};
ghost use Rattle.sl_base.specs.Limits.{max_list_frames};
ghost use Rattle.looper_rules.specs.Room.{chunks_of};
ghost use Rattle.loop_strip.specs.Strips.{Owns, Did, free_in};
ghost use Rattle.loop_strip.specs.Parts.{loop_of, strip_of, IsWhole};
ghost use Rattle.loop_strip.specs.Loading.{IsNew, loads};

use crate::parts::Parts;
use loop_tape::Pool;
use sl_base::Frame;
use sl_commands::Mode;

impl Parts {
    /// A new loop begins with this list and cycle.
    #[tactic(auto, using(crate::proofs::LoadLemmas::loading))]
    pub(crate) fn load(&mut self, pool: &mut Pool, frames: &[Frame], cycle: u32)
        requires whole { IsWhole self.old }
        requires owns { Owns (strip_of self.old) pool.old }
        requires new { IsNew (loop_of self.old) }
        requires some { 1 ≤ length frames.now }
        requires short { length frames.now ≤ max_list_frames }
        requires cycle { 1 ≤ cycle }
        requires cycle_within { cycle ≤ length frames.now }
        requires room { chunks_of (length frames.now) ≤ free_in pool.old }
        ensures did { Did (loads frames.now cycle) (strip_of self.old) (strip_of self.new) pool.old
            pool.new }
        ensures whole { IsWhole self.new }
    {
        self.layers.load(pool, frames, cycle);
        self.layers.facts();
        self.deck.mode = Mode::Paused;
    }
}
