//! The buffers of a period.

ghost use Rattle.std.specs.Prelude.{◌≡◌, ◌≤◌, ◌+◌, ◌++◌, length, take, IfOk, OnOk, OnErr};
ghost use Rattle.sl_base.specs.Limits.{max_period};
ghost use Rattle.wav_pcm.specs.WavText.{IsFormat, samples, samples_size};
ghost use Rattle.wav_pcm.specs.Inputs.{span_of};
ghost use Rattle.periods.specs.Periods.{silent_period};

use sl_base::{Frame, Memory};
use std::alloc::Global;
use std::marker::Model;
use wav_pcm::{Input, frame_size, write_samples};

/// The buffers of a period, of which a shorter one uses the front.
#[derive(Drop)]
pub struct Period {
    /// 1 or 2.
    pub channels: u8,
    /// The bits of a sample, 16 or 24.
    pub bits: u8,
    /// The frames that are taken in.
    pub frames: Vec<Frame>,
    /// The frames that are heard, as many.
    pub heard: Vec<Frame>,
    /// The samples of as many frames.
    pub bytes: Vec<u8>,
}

impl Model for Period {
    ghost use Rattle.periods.specs.Periods.{PeriodOf, period_of, AreBuffers};

    ghost Value = { PeriodOf };

    ghost view = { λ p. period_of p.channels p.bits p.frames.items p.heard.items };

    ghost invariant = { λ p.
        AreBuffers p.channels p.bits p.frames.items p.heard.items p.bytes.items };
}

/// Reads so many frames of the input into the front of the frames, from a place on.
fn read_front(frames: &mut [Frame], input: &Input, from: usize, count: usize)
    requires most { count ≤ length frames.old }
    requires within { from + count ≤ length input.now.frames }
    ensures value { take count frames.new ≡ span_of from count input.now.frames }
    ensures most { length frames.new ≡ length frames.old }
{
    input.read(from, &mut frames[..count]);
}

/// Writes the samples of frames into the front of the bytes.
fn write_front(bytes: &mut [u8], frames: &[Frame], channels: u8, bits: u8)
    requires format { IsFormat channels bits }
    requires room { samples_size (length frames.now) channels bits ≤ length bytes.old }
    ensures value { take (samples_size (length frames.now) channels bits) bytes.new
        ≡ samples channels bits frames.now }
    ensures room { length bytes.new ≡ length bytes.old }
{
    let size = frames.len() * frame_size(channels, bits);
    write_samples(&mut bytes[..size], frames, channels, bits);
}

impl Period {
    /// The buffers for periods of at most so many frames, 1 to 8192, of silence. Only this call
    /// takes memory for them.
    pub fn new(alloc: Global, channels: u8, bits: u8, most: u32) -> Result<Period, Memory>
        requires format { IsFormat channels bits }
        requires some { 1 ≤ most }
        requires within { most ≤ max_period }
        ensures { IfOk result (λ p. p ≡ silent_period channels bits most) }
    {
        let most = most as usize;
        let frames = vec![in alloc; Frame::silence(); most]?;
        let heard = vec![in alloc; Frame::silence(); most]?;
        let bytes = vec![in alloc; 0u8; most * frame_size(channels, bits)]?;
        Ok(Period {
            channels,
            bits,
            frames,
            heard,
            bytes,
        })
    }

    /// How many frames a period has at most, 1 to 8192.
    pub fn most(&self) -> usize
        ensures value { result ≡ length self.now.frames }
        ensures some { 1 ≤ length self.now.frames }
        ensures within { length self.now.frames ≤ max_period }
        ensures as_many { length self.now.heard ≡ length self.now.frames }
        ensures format { IsFormat self.now.channels self.now.bits }
    {
        self.frames.len()
    }

    /// Takes in so many frames of the input, from a place on.
    pub fn read(&mut self, input: &Input, from: usize, count: usize)
        requires most { count ≤ length self.old.frames }
        requires within { from + count ≤ length input.now.frames }
        ensures value { take count self.new.frames ≡ span_of from count input.now.frames }
        ensures most { length self.new.frames ≡ length self.old.frames }
        ensures others { self.new ≡ record self.old { frames = self.new.frames } }
    {
        read_front(&mut self.frames, input, from, count);
    }

    /// Puts the samples of so many frames that are heard behind `out`.
    pub fn write(&mut self, count: usize, out: &mut Vec<u8>) -> Result<(), Memory>
        requires most { count ≤ length self.old.frames }
        ensures ok { OnOk result (out.new.items ≡ out.old.items
            ++ samples self.old.channels self.old.bits (take count self.old.heard)) }
        ensures unchanged { OnErr result (out.new.items ≡ out.old.items) }
        ensures others { self.new ≡ self.old }
    {
        let size = count * frame_size(self.channels, self.bits);
        write_front(
            &mut self.bytes,
            &self.heard[..count],
            self.channels,
            self.bits,
        );
        out.extend_from_slice(&self.bytes[..size])?;
        Ok(())
    }
}
