//! The controls of a loop, and what is told of them.

ghost use Rattle.std.specs.Prelude.{◌≡◌, ℕ, ℤ, pos, ◌≤◌, min, unsigned_abs, IsTrue};
ghost use Rattle.sl_commands.specs.Controls.{is_in_range};
ghost use Rattle.looper_rules.specs.Room.{free_time};
ghost use Rattle.looper_rules.specs.Values.{loop_value, reply_value, with_control, flag};
ghost use Rattle.looper_rules.specs.Loop.{face_of};
ghost use Rattle.looper_rules.specs.Entries.{sets};
ghost use Rattle.loop_strip.specs.Strips.{DidAlone};
ghost use Rattle.loop_strip.specs.Parts.{controls_of, loop_of, strip_of, IsWhole};

use crate::deck::Controls;
use crate::parts::Parts;
use loop_states::state_number;
use sl_base::{CHUNK_FRAMES, MAX_VALUE};
use sl_commands::{Control, Face};

/// A value as a reply tells it.
fn told(value: u32) -> i32
    ensures { result ≡ reply_value (pos value) }
{
    value.min(MAX_VALUE) as i32
}

/// The frames of so many free chunks, as a reply tells them.
fn free_told(free: u32) -> i32
    ensures { result ≡ reply_value (pos (free_time free)) }
{
    told(free.saturating_mul(CHUNK_FRAMES))
}

/// 1 for true.
fn flag(is: bool) -> u32
    ensures { result ≡ flag is }
{
    if is { 1 } else { 0 }
}

impl Controls {
    /// The value of a control, where so many chunks are free, as a reply tells it.
    fn value(&self, control: Control, free: u32, face: &Face) -> i32
        ensures { result ≡ reply_value
            (pos (loop_value control free (controls_of self.now) face.now)) }
    {
        match control {
            Control::Feedback => told(self.feedback as u32),
            Control::Wet => told(self.wet as u32),
            Control::Round => told(self.round as u32),
            Control::Quantize => told(self.quantize as u32),
            Control::RecThresh => told(self.rec_thresh),
            Control::State => told(state_number(face).unsigned_abs()),
            Control::LoopLen => told(face.length),
            Control::LoopPos => told(face.pos),
            Control::CycleLen => told(face.cycle),
            Control::Waiting => told(flag(face.waiting.is_some())),
            Control::Layers => told(face.layers),
            Control::RedoLayers => told(face.redo),
            Control::Refused => told(face.refused),
            Control::Reversed => told(flag(face.backward)),
            Control::FreeTime => free_told(free),
            _ => 0,
        }
    }

    /// A control set.
    fn set(&mut self, control: Control, value: i32)
        requires { IsTrue (is_in_range control value 0) }
        ensures { controls_of self.new ≡ with_control control (unsigned_abs value)
            (controls_of self.old) }
    {
        match control {
            Control::Feedback => self.feedback = value.unsigned_abs() as u16,
            Control::Wet => self.wet = value.unsigned_abs() as u16,
            Control::Round => self.round = value.unsigned_abs() as u8,
            Control::Quantize => self.quantize = value.unsigned_abs() as u8,
            Control::RecThresh => self.rec_thresh = value.unsigned_abs(),
            _ => {}
        }
    }
}

impl Parts {
    /// The value of a control, as a reply tells it.
    pub(crate) fn value(&self, control: Control, free: u32) -> i32
        requires whole { IsWhole self.now }
        ensures { result ≡ reply_value
            (pos (loop_value control free (loop_of self.now).controls
            (face_of (loop_of self.now)))) }
    {
        let face = self.face();
        self.controls.value(control, free, &face)
    }

    /// A control set.
    #[tactic(auto, using(crate::proofs::SavingLemmas::setting))]
    pub(crate) fn set(&mut self, control: Control, value: i32)
        requires whole { IsWhole self.old }
        requires range { IsTrue (is_in_range control value 0) }
        ensures did { DidAlone (sets control value) (strip_of self.old) (strip_of self.new) }
        ensures whole { IsWhole self.new }
    {
        self.layers.facts();
        self.controls.set(control, value);
    }
}
