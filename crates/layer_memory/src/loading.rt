//! A list that is put on the tape as a layer.

ghost use Rattle.std.specs.Prelude.{◌≡◌, ◌≤◌, ◌<◌, ◌+◌, ◌-◌, [], length, false, IsFalse};
ghost use Rattle.std.specs.List.{range_with_len};
ghost use Rattle.std.specs.declared.option.Option.TheVariants.{None};
ghost use Rattle.sl_base.specs.Limits.{max_layers, max_list_frames, max_seams};
ghost use Rattle.looper_rules.specs.Layers.{total_seams, current_end};
ghost use Rattle.looper_rules.specs.Room.{chunks_of};
ghost use Rattle.looper_rules.specs.Run.{loaded};
ghost use Rattle.loop_tape.specs.Tapes.{Owns, IsWhole};
ghost use Rattle.layer_memory.specs.Seen.{reach};
ghost use Rattle.layer_memory.specs.Answers.{Loads};
ghost use Rattle.layer_memory.specs.Appending.{Appended};

use crate::layers::Layers;
use loop_tape::{Pool, Tape};
use pieces::Piece;
use sl_base::Frame;

/// Puts frames behind those on a tape, for which there are chunks.
fn push_all(tape: &mut Tape, pool: &mut Pool, frames: &[Frame])
    requires owns { Owns tape.old pool.old }
    requires room { chunks_of (tape.old.len + length frames.now) ≤ length tape.old.chunks
        + length pool.old.free }
    ensures { Appended tape.old tape.new pool.old pool.new frames.now }
{
    for i in 0..frames.len() {
        tape.facts();
        let _pushed = tape.push(pool, frames[i]);
    }
}

impl Layers {
    /// Puts a list on the tape as a layer more.
    #[tactic(auto, using(crate::proofs::LoadLemmas::lays))]
    fn lay(&mut self, pool: &mut Pool, frames: &[Frame], cycle: u32)
        requires closed { IsFalse self.old.writing }
        requires owns { Owns self.old.tape pool.old }
        requires redo { self.old.stack.redo ≡ [] }
        requires count { length self.old.stack.layers < max_layers }
        requires seams { total_seams self.old.stack.layers + 2 ≤ max_seams }
        requires some { 1 ≤ length frames.now }
        requires short { length frames.now ≤ max_list_frames }
        requires room { chunks_of (self.old.stack.tape + length frames.now) ≤ reach self.old
            pool.old }
        ensures stack { self.new.stack ≡ loaded
            (range_with_len self.old.stack.tape (length frames.now)) cycle self.old.stack }
        ensures writing { self.new.writing ≡ false }
        ensures tape { Appended self.old.tape self.new.tape pool.old pool.new frames.now }
        ensures whole { IsWhole self.new.tape }
    {
        let start = self.tape.len();
        push_all(&mut self.tape, pool, frames);
        let end = self.tape.len();
        let piece = Piece {
            start,
            len: frames.len() as u32,
            backward: false,
        };
        self.closed.add(&[piece], cycle, end, 2);
        self.seams += 2;
    }

    /// Adds a layer of this list, of 1 to 16777216 frames, with 2 seams and this cycle. No layer
    /// may be open, there may be no redo layers and no pin, the tape ends where the last layer
    /// does, and there are chunks for all frames.
    #[tactic(auto, using(crate::proofs::LoadLemmas::loads))]
    pub fn load(&mut self, pool: &mut Pool, frames: &[Frame], cycle: u32)
        requires closed { IsFalse self.old.writing }
        requires owns { Owns self.old.tape pool.old }
        requires redo { self.old.stack.redo ≡ [] }
        requires pin { self.old.stack.pin ≡ None }
        requires tape { self.old.stack.tape ≡ current_end self.old.stack.layers }
        requires count { length self.old.stack.layers < max_layers }
        requires seams { total_seams self.old.stack.layers ≤ max_seams - 2 }
        requires some { 1 ≤ length frames.now }
        requires short { length frames.now ≤ max_list_frames }
        requires cycle { 1 ≤ cycle }
        requires cycle_within { cycle ≤ length frames.now }
        requires room { chunks_of (self.old.stack.tape + length frames.now) ≤ reach self.old
            pool.old }
        ensures { Loads frames.now cycle self.old self.new pool.old pool.new }
    {
        self.facts();
        self.lay(pool, frames, cycle);
    }
}
