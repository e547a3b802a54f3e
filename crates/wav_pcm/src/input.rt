//! A WAV file whose frames are read from its samples a span after another.

ghost use Rattle.std.specs.Prelude.{◌≡◌, ◌+◌, ◌*◌, ◌≤◌, length, IfOk, IfErr, Err};
ghost use Rattle.sl_base.specs.Limits.{max_rate};
ghost use Rattle.wav_pcm.specs.Files.{IsWav};
ghost use Rattle.wav_pcm.specs.WavText.{IsFormat};
ghost use Rattle.wav_pcm.specs.Reading.{form_of};
ghost use Rattle.wav_pcm.specs.Inputs.{spelling_of_input, frames_of_form, span_of, IsFormOf};

use crate::fault::WavFault;
use crate::form::{WavForm, wav_form};
use crate::format::frame_size;
use crate::frames::read_frames;
use sl_base::Frame;
use std::marker::Model;

/// The bytes of a WAV file of 1 or 2 channels of 16 or 24 bits.
#[derive(Drop)]
pub struct Input {
    bytes: Vec<u8>,
    form: WavForm,
}

impl Model for Input {
    ghost use Rattle.wav_pcm.specs.Inputs.{InputOf, frames_of_form, IsFormOf};

    ghost Value = { InputOf };

    ghost view = { λ i. record {
      rate = i.form.rate;
      channels = i.form.channels;
      bits = i.form.bits;
      frames = frames_of_form i.form i.bytes.items;
    } };

    ghost invariant = { λ i. IsFormOf i.form i.bytes.items };
}

/// The place of the first sample behind so many frames, in a file of so many bytes.
#[tactic(auto, using(crate::proofs::InputLemmas::within_all))]
fn place_of(start: usize, count: usize, size: usize, from: usize, len: usize) -> usize
    requires all { start + count * size ≤ len }
    requires before { from ≤ count }
    ensures value { result ≡ start + from * size }
    ensures within { result ≤ len }
{
    let _ = (count, len);
    start + from * size
}

/// Reads as many frames of a form as `frames` has, from a place on.
fn read_at(bytes: &[u8], form: WavForm, from: usize, frames: &mut [Frame])
    requires form { IsFormOf form bytes.now }
    requires within { from + length frames.old ≤ form.count }
    ensures { frames.new ≡ span_of from (length frames.old) (frames_of_form form bytes.now) }
{
    let size = frame_size(form.channels, form.bits);
    let place = place_of(form.start, form.count, size, from, bytes.len());
    let (_, samples) = bytes.split_at(place);
    read_frames(samples, frames, form.channels, form.bits);
}

impl Input {
    /// The input that these bytes are, or the first fault of the file. No memory is taken.
    #[tactic(auto, using(crate::proofs::InputLemmas::form_rate))]
    pub fn of(bytes: Vec<u8>) -> Result<Input, WavFault>
        ensures found { IfOk result (λ i. IsWav bytes.items (spelling_of_input i) i.frames) }
        ensures fault { IfErr result (λ fault. form_of bytes.items ≡ Err fault) }
    {
        match wav_form(&bytes) {
            Ok(form) => Ok(Input { bytes, form }),
            Err(fault) => Err(fault),
        }
    }

    /// How many frames there are.
    pub fn len(&self) -> usize
        ensures { result ≡ length self.now.frames }
    {
        self.form.count
    }

    /// Frames a second.
    pub fn rate(&self) -> u32
        ensures value { result ≡ self.now.rate }
        ensures within { self.now.rate ≤ max_rate }
    {
        self.form.rate
    }

    /// 1 or 2 channels.
    pub fn channels(&self) -> u8
        ensures value { result ≡ self.now.channels }
        ensures format { IsFormat self.now.channels self.now.bits }
    {
        self.form.channels
    }

    /// The bits of a sample, 16 or 24.
    pub fn bits(&self) -> u8
        ensures { result ≡ self.now.bits }
    {
        self.form.bits
    }

    /// Reads as many frames as `frames` has, from a place on.
    pub fn read(&self, from: usize, frames: &mut [Frame])
        requires { from + length frames.old ≤ length self.now.frames }
        ensures { frames.new ≡ span_of from (length frames.old) self.now.frames }
    {
        read_at(&self.bytes, self.form, from, frames);
    }
}
