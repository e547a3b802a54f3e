//! WAV files.

use sl_base::Frame;
use std::alloc::Global;
use std::io::{self, Write};
use wav_pcm::{Wav, read_wav};

/// Tells the two sides of each frame.
fn tell_frames<W: Write>(out: &mut W, frames: &[Frame]) -> io::Result<()> {
    for frame in frames {
        let left = frame.left;
        let right = frame.right;
        write!(out, " {left} {right}")?;
    }
    Ok(())
}

/// Tells rate, channels, bits and number of frames, and the frames too where `whole` is true.
fn tell_file<W: Write>(out: &mut W, wav: &Wav, whole: bool) -> io::Result<()> {
    let rate = wav.rate;
    let channels = wav.channels;
    let bits = wav.bits;
    let frames = wav.frames.as_slice();
    let count = frames.len();
    write!(out, "wav {rate} {channels} {bits} {count}")?;
    if whole {
        tell_frames(out, frames)?;
    }
    writeln!(out)
}

/// Tells what a WAV file holds, or its first fault.
pub fn tell_wav<W: Write>(out: &mut W, alloc: Global, bytes: &[u8], whole: bool) -> io::Result<()> {
    match read_wav(alloc, bytes) {
        Ok(wav) => tell_file(out, &wav, whole),
        Err(fault) => {
            let number = fault.number();
            writeln!(out, "fault {number}")
        }
    }
}
