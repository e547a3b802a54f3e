//! Frames of the loop, one after another.

ghost use Rattle.std.specs.Prelude.{◌≡◌, ℕ, ◌≤◌, ◌<◌, true, false, length, take, drop};
ghost use Rattle.looper_rules.specs.Loop.{is_writing, length_of};
ghost use Rattle.looper_rules.specs.LoopFrame.{ready, heard, passes, after, frame_later};
ghost use Rattle.looper_rules.specs.LoopSpans.{loop_over, loop_heard_over};
ghost use Rattle.looper_laws.proofs.Kept.LoopFrame.{IsPlaced};
ghost use Rattle.loop_strip.specs.Strips.{seen, Owns, Did, reach_in};
ghost use Rattle.loop_strip.specs.Parts.{loop_of, strip_of, IsWhole};

use crate::modes::how_in;
use crate::parts::Parts;
use loop_tape::Pool;
use sl_base::Frame;
use sl_commands::Mode;

impl Parts {
    /// Writes a frame in this mode and goes on, or closes the layer where that doesn't fit.
    #[tactic(auto, using(crate::proofs::PassLemmas::writing))]
    fn pass_writing(&mut self, pool: &mut Pool, mode: Mode, sound: &Frame, frame: &Frame)
        requires whole { IsWhole self.old }
        requires owns { Owns (strip_of self.old) pool.old }
        requires is { self.old.deck.mode ≡ mode }
        requires writes { is_writing mode ≡ true }
        requires placed { IsPlaced mode self.old.deck.pos (length_of (loop_of self.old)) }
        requires heard { sound.now ≡ heard (seen (strip_of self.old) pool.old) }
        ensures did { Did (passes true frame.now) (strip_of self.old) (strip_of self.new) pool.old
            pool.new }
        ensures pinned { self.new.pinned ≡ self.old.pinned }
        ensures writing { self.new.layers.writing ≡ is_writing self.new.deck.mode }
    {
        let next = self.mix_in(mode, sound, frame);
        let how = how_in(mode, self.deck.backward);
        let pos = self.deck.pos;
        if self.layers.write(pool, pos, next, how) {
            self.layers.facts();
            self.advance_in(mode);
            self.layers.facts();
        } else {
            self.overrun(mode);
            self.layers.facts();
        }
    }

    /// Goes on in this mode, in which nothing is written.
    #[tactic(auto, using(crate::proofs::PassLemmas::passing))]
    fn pass_quiet(&mut self, pool: &Pool, mode: Mode, frame: &Frame)
        requires whole { IsWhole self.old }
        requires owns { Owns (strip_of self.old) pool.now }
        requires is { self.old.deck.mode ≡ mode }
        requires quiet { is_writing mode ≡ false }
        ensures did { Did (passes false frame.now) (strip_of self.old) (strip_of self.new) pool.now
            pool.now }
        ensures pinned { self.new.pinned ≡ self.old.pinned }
        ensures writing { self.new.layers.writing ≡ is_writing self.new.deck.mode }
    {
        self.advance_in(mode);
        self.layers.facts();
    }

    /// A frame for which the loop is ready, by whether it is written.
    fn pass_as(&mut self, pool: &mut Pool, writing: bool, mode: Mode, sound: &Frame, frame: &Frame)
        requires whole { IsWhole self.old }
        requires owns { Owns (strip_of self.old) pool.old }
        requires is { self.old.deck.mode ≡ mode }
        requires writes { writing ≡ is_writing mode }
        requires placed { IsPlaced mode self.old.deck.pos (length_of (loop_of self.old)) }
        requires heard { sound.now ≡ heard (seen (strip_of self.old) pool.old) }
        ensures did { Did (passes writing frame.now) (strip_of self.old) (strip_of self.new)
            pool.old pool.new }
        ensures pinned { self.new.pinned ≡ self.old.pinned }
        ensures writing { self.new.layers.writing ≡ is_writing self.new.deck.mode }
    {
        if writing {
            self.pass_writing(pool, mode, sound, frame);
        } else {
            self.pass_quiet(pool, mode, frame);
        }
    }

    /// One frame; what is heard.
    #[tactic(auto, using(crate::proofs::PassLemmas::framing))]
    pub(crate) fn frame(&mut self, pool: &mut Pool, frame: &Frame) -> Frame
        requires whole { IsWhole self.old }
        requires owns { Owns (strip_of self.old) pool.old }
        ensures did { Did (frame_later frame.now) (strip_of self.old) (strip_of self.new) pool.old
            pool.new }
        ensures heard { result ≡ heard
            (ready frame.now (reach_in (strip_of self.old) pool.old)
            (seen (strip_of self.old) pool.old)) }
        ensures pinned { self.new.pinned ≡ self.old.pinned }
        ensures whole { IsWhole self.new }
    {
        self.prepare(pool, frame);
        let sound = self.hear(pool);
        let mode = self.deck.mode;
        self.pass_as(pool, mode.is_writing(), mode, &sound, frame);
        sound
    }

    /// Frames, and what is heard of them.
    #[tactic(auto, using(crate::proofs::PassLemmas::playing))]
    pub(crate) fn play(&mut self, pool: &mut Pool, input: &[Frame], heard: &mut [Frame])
        requires whole { IsWhole self.old }
        requires owns { Owns (strip_of self.old) pool.old }
        requires same_length { length input.now ≡ length heard.old }
        ensures did { Did (loop_over input.now) (strip_of self.old) (strip_of self.new) pool.old
            pool.new }
        ensures heard { heard.new ≡ loop_heard_over input.now
            (reach_in (strip_of self.old) pool.old) (seen (strip_of self.old) pool.old) }
        ensures whole { IsWhole self.new }
    {
        let mut done = 0;
        while done < input.len() {
            done += self.take_some(pool, &input[done..], &mut heard[done..]);
        }
    }
}
