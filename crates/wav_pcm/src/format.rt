//! The parts of the WAV text that stand before the samples.

ghost use Rattle.std.specs.Prelude.{◌≡◌, ◌⊎◌, ◌*◌, ◌^◌, ◌<◌, ◌≤◌, length};
ghost use Rattle.sl_base.specs.Limits.{max_rate};
ghost use Rattle.wav_pcm.specs.WavText.{IsFormat, frame_size, riff_header, format_chunk, data_header, wav_header};

use byteorder::{ByteOrder, LittleEndian};

/// The bytes of one frame.
pub fn frame_size(channels: u8, bits: u8) -> usize
    ensures { result ≡ frame_size channels bits }
{
    channels as usize * (bits as usize / 8)
}

/// The first 12 bytes, by the size of the samples.
fn riff_header(size: u32) -> [u8; 12]
    requires { size < 2 ^ 31 }
    ensures { result ≡ riff_header size }
{
    let mut bytes = *b"RIFF\0\0\0\0WAVE";
    LittleEndian::write_u32(&mut bytes[4..8], 36 + size + size % 2);
    bytes
}

/// The 8 bytes before the samples.
fn data_header(size: u32) -> [u8; 8]
    ensures { result ≡ data_header size }
{
    let mut bytes = *b"data\0\0\0\0";
    LittleEndian::write_u32(&mut bytes[4..], size);
    bytes
}

/// The format chunk.
fn format_chunk(channels: u8, bits: u8, rate: u32) -> [u8; 24]
    requires format { IsFormat channels bits }
    requires rate_within { rate ≤ max_rate }
    ensures { result ≡ format_chunk channels bits rate }
{
    let size = channels as u32 * (bits as u32 / 8);
    let mut bytes = *b"fmt \x10\0\0\0\x01\0\0\0\0\0\0\0\0\0\0\0\0\0\0\0";
    LittleEndian::write_u16(&mut bytes[10..12], channels as u16);
    LittleEndian::write_u32(&mut bytes[12..16], rate);
    LittleEndian::write_u32(&mut bytes[16..20], rate * size);
    LittleEndian::write_u16(&mut bytes[20..22], size as u16);
    LittleEndian::write_u16(&mut bytes[22..], bits as u16);
    bytes
}

/// Writes the 44 bytes before the samples, by the size of these. `out` has room for exactly 44.
pub fn write_header(out: &mut [u8], size: u32, channels: u8, bits: u8, rate: u32)
    requires format { IsFormat channels bits }
    requires size_within { size < 2 ^ 31 }
    requires rate_within { rate ≤ max_rate }
    requires room { length out.old ≡ 44 }
    ensures { out.new ≡ wav_header size channels bits rate }
{
    out[..12].copy_from_slice(&riff_header(size));
    out[12..36].copy_from_slice(&format_chunk(channels, bits, rate));
    out[36..].copy_from_slice(&data_header(size));
}
