//! The samples of frames, written in place.

ghost use Rattle.std.specs.Prelude.{◌≡◌, ◌+◌, ◌*◌, ◌/◌, ◌≤◌, ◌++◌, length, drop};
ghost use Rattle.sl_base.specs.Arithmetic.{IsSample};
ghost use Rattle.wav_pcm.specs.WavText.{IsFormat, frame_size, samples_size, sample_bytes, frame_bytes, samples};

use crate::format::frame_size;
use byteorder::{ByteOrder, LittleEndian};
use sl_base::{Frame, narrow};

/// Writes one sample to the front of `out`.
#[inline(always)]
fn write_sample(out: &mut [u8], sample: i32, channels: u8, bits: u8)
    requires in_range { IsSample sample }
    requires format { IsFormat channels bits }
    requires room { bits / 8 ≤ length out.old }
    ensures { out.new ≡ sample_bytes bits sample ++ drop (bits / 8) out.old }
{
    if bits == 16 {
        LittleEndian::write_i16(out, narrow(sample));
    } else {
        LittleEndian::write_i24(out, sample);
    }
}

/// Writes one frame to the front of `out`.
#[inline(always)]
fn write_frame(out: &mut [u8], frame: Frame, channels: u8, bits: u8)
    requires format { IsFormat channels bits }
    requires room { frame_size channels bits ≤ length out.old }
    ensures { out.new ≡ frame_bytes channels bits frame ++ drop (frame_size channels bits) out.old }
{
    write_sample(out, frame.left, channels, bits);
    if channels != 1 {
        write_sample(&mut out[bits as usize / 8..], frame.right, channels, bits);
    }
}

/// Writes the samples of frames in 1 or 2 channels of 16 or 24 bits. `out` has room for exactly
/// these. No memory is taken.
pub fn write_samples(out: &mut [u8], frames: &[Frame], channels: u8, bits: u8)
    requires format { IsFormat channels bits }
    requires room { length out.old ≡ samples_size (length frames.now) channels bits }
    ensures { out.new ≡ samples channels bits frames.now }
{
    let size = frame_size(channels, bits);
    'frames: for place in 0..frames.len() {
        write_frame(&mut out[place * size..], frames[place], channels, bits);
    }
}
