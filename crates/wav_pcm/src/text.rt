//! The whole WAV text.

ghost use Rattle.std.specs.Prelude.{◌≡◌, ◌≤◌, length, IfOk};
ghost use Rattle.sl_base.specs.Limits.{max_file_frames, max_rate};
ghost use Rattle.wav_pcm.specs.WavText.{IsFormat, text_size, wav_text};

use crate::format::{frame_size, write_header};
use crate::samples::write_samples;
use sl_base::{Frame, Memory};
use std::alloc::Global;

/// Writes the whole text. `out` has room for exactly that.
fn write_text(out: &mut [u8], frames: &[Frame], channels: u8, bits: u8, rate: u32)
    requires format { IsFormat channels bits }
    requires frames_within { length frames.now ≤ max_file_frames }
    requires rate_within { rate ≤ max_rate }
    requires room { length out.old ≡ text_size (length frames.now) channels bits }
    ensures { out.new ≡ wav_text frames.now channels bits rate }
{
    let size = frames.len() * frame_size(channels, bits);
    write_header(&mut out[..44], size as u32, channels, bits, rate);
    write_samples(&mut out[44..44 + size], frames, channels, bits);
    out[44 + size..].fill(0);
}

/// The WAV text of the frames, in 1 or 2 channels of 16 or 24 bits. `rate` is in frames a second.
pub fn wav_text(
    alloc: Global,
    frames: &[Frame],
    channels: u8,
    bits: u8,
    rate: u32,
) -> Result<Vec<u8>, Memory>
    requires format { IsFormat channels bits }
    requires frames_within { length frames.now ≤ max_file_frames }
    requires rate_within { rate ≤ max_rate }
    ensures { IfOk result (λ text. text.items ≡ wav_text frames.now channels bits rate) }
{
    let size = frames.len() * frame_size(channels, bits);
    let mut text = vec![in alloc; 0u8; 44 + size + size % 2]?;
    write_text(&mut text, frames, channels, bits, rate);
    Ok(text)
}
