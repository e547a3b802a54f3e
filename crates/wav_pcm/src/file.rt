//! Whole files, read.

ghost use Rattle.std.specs.Prelude.{◌≡◌, ◌≢◌, ◌+◌, ◌*◌, ◌≤◌, List, drop, length, IfOk, IfErr};
ghost use Rattle.sl_base.specs.Sounds.{Sound};
ghost use Rattle.wav_pcm.specs.declared.fault.WavFault.TheVariants.{Memory as NoMemory};
ghost use Rattle.wav_pcm.specs.WavText.{IsFormat, frame_size};
ghost use Rattle.wav_pcm.specs.Samples.{frames_in};
ghost use Rattle.wav_pcm.specs.Reading.{Spelling as SpellingOf};
ghost use Rattle.wav_pcm.specs.Files.{IsWav};
ghost use Rattle.wav_pcm.specs.Faults.{IsFirstFault};
ghost use Rattle.wav_pcm.specs.Forms.{HoldsFrames, wav_spelling};

use crate::fault::WavFault;
use crate::form::{WavForm, wav_form};
use crate::frames::read_frames;
use sl_base::{Frame, Frames};
use std::alloc::Global;

/// A WAV file: its form and its frames.
#[derive(Drop)]
pub struct Wav {
    /// Frames a second.
    pub rate: u32,
    /// 1 or 2.
    pub channels: u8,
    /// The bits of a sample, 16 or 24.
    pub bits: u8,
    pub frames: Frames,
}

/// Reads the frames of a form from its file.
fn frames_of(alloc: Global, bytes: &[u8], form: WavForm) -> Result<Wav, WavFault>
    requires format { IsFormat form.channels form.bits }
    requires within { form.start + form.count * frame_size form.channels form.bits ≤ length
        bytes.now }
    ensures ok { IfOk result (λ wav. HoldsFrames form bytes.now wav) }
    ensures memory { IfErr result (λ fault. fault ≡ NoMemory) }
{
    match vec![in alloc; Frame::silence(); form.count] {
        Ok(mut frames) => {
            read_frames(
                bytes.split_at(form.start).1,
                &mut frames,
                form.channels,
                form.bits,
            );
            Ok(Wav {
                rate: form.rate,
                channels: form.channels,
                bits: form.bits,
                frames: Frames::of(frames),
            })
        }
        Err(_) => Err(WavFault::Memory),
    }
}

/// Reads a WAV file of 1 or 2 channels of 16 or 24 bits, at 1 to 768000 frames a second: RIFF WAVE
/// with plain numbers, also by the extensible format. The fault is the first by the order of
/// docs/formats.md, or want of memory.
pub fn read_wav(alloc: Global, bytes: &[u8]) -> Result<Wav, WavFault>
    ensures found { IfOk result (λ wav. IsWav bytes.now (wav_spelling wav) wav.frames) }
    ensures fault { IfErr result (λ fault. IsFirstFault bytes.now fault) }
    ensures only { IfErr result (λ fault. fault ≢ NoMemory →
        (spelling : SpellingOf) (frames : List Sound)
        → ¬ IsWav bytes.now spelling frames) }
{
    match wav_form(bytes) {
        Ok(form) => frames_of(alloc, bytes, form),
        Err(fault) => Err(fault),
    }
}
