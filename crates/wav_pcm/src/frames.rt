//! Frames read from samples, in each of the four forms.

ghost use Rattle.std.specs.Prelude.{◌≡◌, ◌+◌, ◌*◌, ◌/◌, ◌≤◌, ◌⊎◌, drop, length, IfOk};
ghost use Rattle.sl_base.specs.Arithmetic.{IsSample};
ghost use Rattle.wav_pcm.specs.WavText.{IsFormat, frame_size, samples_size};
ghost use Rattle.wav_pcm.specs.Samples.{sample_at, frame_at, frames_in};

use crate::format::frame_size;
use byteorder::{ByteOrder, LittleEndian};
use sl_base::{Frame, Memory, widen};
use std::alloc::Global;

/// The sample at the front of the bytes.
#[inline(always)]
fn sample_at(bytes: &[u8], bits: u8) -> i32
    requires room { bits / 8 ≤ length bytes.now }
    requires format { (bits ≡ 16) ⊎ (bits ≡ 24) }
    ensures value { result ≡ sample_at bits bytes.now }
    ensures within { IsSample result }
{
    if bits == 16 {
        widen(LittleEndian::read_i16(bytes))
    } else {
        LittleEndian::read_i24(bytes)
    }
}

/// The frame at the front of the bytes.
#[inline(always)]
#[tactic(auto, using(crate::proofs::FrameLemmas::frame_of_two))]
fn frame_at(bytes: &[u8], channels: u8, bits: u8) -> Frame
    requires format { IsFormat channels bits }
    requires room { frame_size channels bits ≤ length bytes.now }
    ensures { result ≡ frame_at channels bits bytes.now }
{
    let left = sample_at(bytes, bits);
    if channels == 1 {
        return Frame { left, right: left };
    }
    let (_, behind) = bytes.split_at(bits as usize / 8);
    Frame {
        left,
        right: sample_at(behind, bits),
    }
}

/// Reads frames over `frames`, from samples in 1 or 2 channels of 16 or 24 bits. `bytes` begins
/// with theirs. No memory is taken, so a file can be read a period after another.
pub fn read_frames(bytes: &[u8], frames: &mut [Frame], channels: u8, bits: u8)
    requires format { IsFormat channels bits }
    requires room { samples_size (length frames.old) channels bits ≤ length bytes.now }
    ensures { frames.new ≡ frames_in channels bits (length frames.old) bytes.now }
{
    let size = frame_size(channels, bits);
    'frames: for place in 0..frames.len() {
        frames[place] = frame_at(bytes.split_at(place * size).1, channels, bits);
    }
}
