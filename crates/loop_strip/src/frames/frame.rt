//! One frame of the loop.

ghost use Rattle.std.specs.Prelude.{◌≡◌, ℕ, ◌≤◌, ◌<◌, ◌==◌, ◌+◌, ◌+ℤ◌, true, false, length, if◌then◌else◌, nat_le};
ghost use Rattle.sl_base.specs.Arithmetic.{IsSample, clamped, scaled};
ghost use Rattle.sl_base.specs.Sounds.{loudness, clamped_sound, summed, scaled_sound};
ghost use Rattle.sl_commands.specs.declared.Mode.TheVariants.{WaitStart, Multiplying};
ghost use Rattle.looper_rules.specs.Layers.{current_length, current_list};
ghost use Rattle.looper_rules.specs.Loop.{is_writing, length_of, at_place};
ghost use Rattle.looper_rules.specs.LoopFrame.{awake_in, awake, ready_in, ready, stopped, extends, sound_at, heard_from, heard, new_frame, wraps, wrapped_place, next_place, wrapped_mode, goes_on, stops_if, lengthens, advanced_in, advanced, overrun_in, after, frame_later};
ghost use Rattle.looper_rules.specs.Closing.{at_stop_in, at_stop};
ghost use Rattle.looper_rules.specs.Writing.{extension_fits};
ghost use Rattle.looper_laws.proofs.Kept.LoopFrame.{IsPlaced};
ghost use Rattle.looper_rules.specs.Starting.{leaves_wait};
ghost use Rattle.looper_rules.specs.Loop.{refused_once};
ghost use Rattle.layer_memory.specs.Seen.{seen as seen_layers};
ghost use Rattle.loop_strip.specs.Strips.{seen, Owns, Did, reach_in};
ghost use Rattle.loop_strip.specs.Parts.{loop_of, strip_of, IsWhole};

use crate::parts::Parts;
use loop_tape::Pool;
use sl_base::{Frame, clamp24, scale};
use sl_commands::{Mode, Started};

/// The greater of the absolute sides is at least this.
pub(crate) fn is_loud(frame: &Frame, threshold: u32) -> bool
    ensures { result ≡ nat_le threshold (loudness frame.now) }
{
    frame.left.unsigned_abs().max(frame.right.unsigned_abs()) >= threshold
}

/// The sum of an old side scaled and another.
fn side_over(old: i32, feedback: u16, side: i32) -> i64
    requires old { IsSample old }
    requires side { IsSample side }
    requires level { feedback ≤ 1000 }
    ensures { result ≡ scaled old feedback +ℤ side }
{
    scale(old, feedback) + side as i64
}

/// An old side scaled, with another on top.
fn mix_side(old: i32, feedback: u16, side: i32) -> i32
    requires old { IsSample old }
    requires side { IsSample side }
    requires level { feedback ≤ 1000 }
    ensures value { result ≡ clamped (scaled old feedback +ℤ side) }
    ensures within { IsSample result }
{
    clamp24(side_over(old, feedback, side))
}

/// The old frame scaled, with another on top.
pub(crate) fn mix(old: &Frame, feedback: u16, frame: &Frame) -> Frame
    requires { feedback ≤ 1000 }
    ensures { result ≡ clamped_sound (summed (scaled_sound old.now feedback) frame.now) }
{
    Frame {
        left: mix_side(old.left, feedback, frame.left),
        right: mix_side(old.right, feedback, frame.right),
    }
}

impl Parts {
    /// A WaitStart that meets a loud frame opens for `record`, and is left where that is refused.
    fn wake_up(&mut self, pool: &mut Pool)
        requires whole { IsWhole self.old }
        requires owns { Owns (strip_of self.old) pool.old }
        requires waits { self.old.deck.mode ≡ WaitStart }
        ensures did { Did (awake_in WaitStart true) (strip_of self.old) (strip_of self.new) pool.old
            pool.new }
        ensures pinned { self.new.pinned ≡ self.old.pinned }
        ensures writing { self.new.layers.writing ≡ is_writing self.new.deck.mode }
    {
        match self.layers.start_layer(pool, true) {
            Started::Ok => {
                self.layers.facts();
                self.deck.mode = Mode::Recording;
                self.deck.pos = 0;
                self.deck.backward = false;
            }
            Started::Layers => self.miss(),
            Started::Seams => self.miss(),
            Started::Room => self.miss(),
        }
    }

    /// A refused WaitStart.
    fn miss(&mut self)
        requires whole { IsWhole self.old }
        requires waits { self.old.deck.mode ≡ WaitStart }
        ensures ok { loop_of self.new ≡ leaves_wait (refused_once (loop_of self.old)) }
        ensures layers { self.new.layers ≡ self.old.layers }
        ensures whole { IsWhole self.new }
        ensures pinned { self.new.pinned ≡ self.old.pinned }
    {
        self.refuse();
        self.leave_wait();
    }

    /// Listens for the threshold in this mode.
    fn wake_in(&mut self, pool: &mut Pool, mode: Mode, loud: bool)
        requires whole { IsWhole self.old }
        requires owns { Owns (strip_of self.old) pool.old }
        requires is { self.old.deck.mode ≡ mode }
        ensures did { Did (awake_in mode loud) (strip_of self.old) (strip_of self.new) pool.old
            pool.new }
        ensures pinned { self.new.pinned ≡ self.old.pinned }
        ensures writing { self.new.layers.writing ≡ is_writing self.new.deck.mode }
    {
        match mode {
            Mode::WaitStart => {
                if loud {
                    self.wake_up(pool);
                }
            }
            _ => {}
        }
    }

    /// Listens for the threshold.
    #[tactic(auto, using(crate::proofs::FrameLemmas::waking))]
    fn wake(&mut self, pool: &mut Pool, frame: &Frame)
        requires whole { IsWhole self.old }
        requires owns { Owns (strip_of self.old) pool.old }
        ensures did { Did (awake frame.now) (strip_of self.old) (strip_of self.new) pool.old
            pool.new }
        ensures pinned { self.new.pinned ≡ self.old.pinned }
        ensures whole { IsWhole self.new }
    {
        let mode = self.deck.mode;
        let loud = is_loud(frame, self.controls.rec_thresh);
        self.wake_in(pool, mode, loud);
    }

    /// A refusal counted, and the layer closed.
    pub(crate) fn stop(&mut self)
        requires whole { IsWhole self.old }
        requires writing { is_writing self.old.deck.mode ≡ true }
        ensures ok { loop_of self.new ≡ stopped (loop_of self.old) }
        ensures tape { self.new.layers.tape ≡ self.old.layers.tape }
        ensures pinned { self.new.pinned ≡ self.old.pinned }
        ensures whole { IsWhole self.new }
    {
        self.refuse();
        self.close();
    }

    /// Extends the list of a multiply, or closes the layer where that doesn't fit.
    #[tactic(auto, using(crate::proofs::FrameLemmas::base_some))]
    fn extend(&mut self)
        requires whole { IsWhole self.old }
        requires multiplies { self.old.deck.mode ≡ Multiplying }
        ensures ok { loop_of self.new ≡ extends (extension_fits (loop_of self.old).stack)
            (loop_of self.old) }
        ensures tape { self.new.layers.tape ≡ self.old.layers.tape }
        ensures pinned { self.new.pinned ≡ self.old.pinned }
        ensures writing { self.new.layers.writing ≡ is_writing self.new.deck.mode }
    {
        if !self.layers.extend() {
            self.stop();
        }
    }

    /// Extends the list where it has come to its end.
    fn make_ready(&mut self, mode: Mode)
        requires whole { IsWhole self.old }
        requires is { self.old.deck.mode ≡ mode }
        ensures ok { loop_of self.new ≡ ready_in mode
            (self.old.deck.pos == length_of (loop_of self.old)) (loop_of self.old) }
        ensures tape { self.new.layers.tape ≡ self.old.layers.tape }
        ensures pinned { self.new.pinned ≡ self.old.pinned }
        ensures writing { self.new.layers.writing ≡ is_writing self.new.deck.mode }
    {
        match mode {
            Mode::Multiplying => {
                let sizes = self.layers.sizes();
                if self.deck.pos == sizes.length {
                    self.extend();
                }
            }
            _ => {}
        }
    }

    /// Makes ready for a frame.
    #[tactic(auto, using(crate::proofs::FrameLemmas::preparing))]
    pub(crate) fn prepare(&mut self, pool: &mut Pool, frame: &Frame)
        requires whole { IsWhole self.old }
        requires owns { Owns (strip_of self.old) pool.old }
        ensures did { Did (ready frame.now) (strip_of self.old) (strip_of self.new) pool.old
            pool.new }
        ensures pinned { self.new.pinned ≡ self.old.pinned }
        ensures whole { IsWhole self.new }
        ensures placed { IsPlaced self.new.deck.mode self.new.deck.pos
            (length_of (loop_of self.new)) }
    {
        self.wake(pool, frame);
        let mode = self.deck.mode;
        self.make_ready(mode);
        self.layers.facts();
    }

    /// The frame that is heard in this mode.
    #[tactic(auto, using(crate::proofs::FrameLemmas::inside))]
    fn hear_in(&self, pool: &Pool, mode: Mode) -> Frame
        requires whole { IsWhole self.now }
        requires owns { Owns (strip_of self.now) pool.now }
        requires is { self.now.deck.mode ≡ mode }
        requires placed { IsPlaced mode self.now.deck.pos (length_of (loop_of self.now)) }
        ensures { result ≡ heard_from mode
            (current_list (seen_layers self.now.layers pool.now).layers) self.now.deck.pos }
    {
        match mode {
            Mode::Playing => self.layers.read(pool, self.deck.pos),
            Mode::Overdubbing => self.layers.read(pool, self.deck.pos),
            Mode::Multiplying => self.layers.read(pool, self.deck.pos),
            Mode::Substituting => self.layers.read(pool, self.deck.pos),
            Mode::OneShot => self.layers.read(pool, self.deck.pos),
            _ => Frame::silence(),
        }
    }

    /// The frame that is written in this mode, where this one is heard.
    #[tactic(auto, using(crate::proofs::FrameLemmas::mixing))]
    pub(crate) fn mix_in(&self, mode: Mode, heard: &Frame, frame: &Frame) -> Frame
        requires whole { IsWhole self.now }
        ensures { result ≡ new_frame mode self.now.controls.feedback heard.now frame.now }
    {
        match mode {
            Mode::Overdubbing => mix(heard, self.controls.feedback, frame),
            Mode::Multiplying => mix(heard, self.controls.feedback, frame),
            _ => *frame,
        }
    }

    /// What is heard of a loop that is ready.
    #[tactic(auto, using(crate::proofs::FrameLemmas::heard_is))]
    pub(crate) fn hear(&self, pool: &Pool) -> Frame
        requires whole { IsWhole self.now }
        requires owns { Owns (strip_of self.now) pool.now }
        requires placed { IsPlaced self.now.deck.mode self.now.deck.pos
            (length_of (loop_of self.now)) }
        ensures { result ≡ heard (seen (strip_of self.now) pool.now) }
    {
        self.hear_in(pool, self.deck.mode)
    }
}
