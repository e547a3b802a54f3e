//! The sums of a span of frames.

ghost use Rattle.std.specs.Prelude.{◌≡◌, ℕ, ◌≤◌, ◌+◌, ◌+ℤ◌, unsigned_abs, length, map, replicate};
ghost use Rattle.sl_base.specs.Arithmetic.{IsSample, scaled};
ghost use Rattle.sl_base.specs.Sounds.{Sound, silence, summed, scaled_sound, clamped_sound};
ghost use Rattle.looper_rules.specs.GainSpans.{gain_over, scaled_over, added};
ghost use Rattle.mixer_fades.specs.Sums.{IsWithin, AreSumsOf};

use crate::gain::Gain;
use sl_base::{Frame, clamp24, scale};
use std::marker::Model;

/// A sum of frames, side by side.
#[derive(Clone, Copy)]
pub struct Sum {
    pub left: i64,
    pub right: i64,
}

impl Model for Sum {
    ghost use Rattle.sl_base.specs.Sounds.{Sound};

    ghost Value = { Sound };

    ghost view = { λ s. record { left = s.left; right = s.right } };

    ghost inverse = { λ s. record { left = s.left; right = s.right } };
}

/// A number with a sample scaled by a level added.
fn add_scaled(sum: i64, sample: i32, level: u16) -> i64
    requires within { unsigned_abs sum ≤ 134217728 }
    requires sample { IsSample sample }
    requires level { level ≤ 1000 }
    ensures value { result ≡ sum +ℤ scaled sample level }
    ensures within { (bound : ℕ) → unsigned_abs sum ≤ bound →
        unsigned_abs result ≤ bound + 8388608 }
{
    sum + scale(sample, level)
}

impl Sum {
    /// Nothing added yet.
    pub fn none() -> Sum
        ensures { result ≡ silence }
    {
        Sum { left: 0, right: 0 }
    }
}

/// Begins the sums of a span: nothing added yet.
pub fn clear_span(sums: &mut [Sum])
    ensures value { sums.new ≡ replicate (length sums.old) silence }
    ensures within { AreSumsOf 0 sums.new }
{
    sums.fill(Sum::none());
}

/// A sum with one frame more, scaled by a level.
fn with_frame(sum: &Sum, frame: &Frame, level: u16) -> Sum
    requires left { unsigned_abs sum.now.left ≤ 134217728 }
    requires right { unsigned_abs sum.now.right ≤ 134217728 }
    requires level { level ≤ 1000 }
    ensures value { result ≡ summed sum.now (scaled_sound frame.now level) }
    ensures within { (bound : ℕ) → IsWithin bound sum.now → IsWithin (bound + 8388608) result }
{
    Sum {
        left: add_scaled(sum.left, frame.left, level),
        right: add_scaled(sum.right, frame.right, level),
    }
}

/// Adds a span of frames to its sums, each scaled by the gain, which moves at each frame.
pub fn add_span(sums: &mut [Sum], heard: &[Frame], gain: &mut Gain, target: u16, by: u16)
    requires lengths { length heard.now ≡ length sums.old }
    requires target { target ≤ 1000 }
    requires by { by ≤ 1000 }
    requires within { AreSumsOf 16 sums.old }
    ensures sums { sums.new ≡ added sums.old (scaled_over target by heard.now gain.old) }
    ensures gain { gain.new ≡ gain_over target by heard.now gain.old }
    ensures within { (givers : ℕ) → AreSumsOf givers sums.old → AreSumsOf (givers + 1) sums.new }
{
    for k in 0..heard.len() {
        let level = gain.step(target, by);
        let sum = with_frame(&sums[k], &heard[k], level);
        sums[k] = sum;
    }
}

impl Sum {
    /// The nearest frame.
    fn close(&self) -> Frame
        ensures { result ≡ clamped_sound self.now }
    {
        Frame {
            left: clamp24(self.left),
            right: clamp24(self.right),
        }
    }
}

/// Ends the sums of a span: the nearest frames.
pub fn close_span(sums: &[Sum], output: &mut [Frame])
    requires { length sums.now ≡ length output.old }
    ensures { output.new ≡ map clamped_sound sums.now }
{
    for k in 0..sums.len() {
        output[k] = sums[k].close();
    }
}
