//! The form of a file: how its samples are spelled, where they begin, and how many frames there
//! are.

ghost use Rattle.std.specs.Prelude.{◌≡◌, ◌+◌, ◌*◌, ◌≤◌, ◌<◌, List, drop, length, Some, None, true, false, IfOk, IfErr, IfSome, IfNone};
ghost use Rattle.std.specs.Prelude.{◌&&◌, ◌==◌};
ghost use Rattle.std.specs.Str.{bytes_eq};
ghost use Rattle.byteorder.specs.Endian.{little_number};
ghost use Rattle.sl_base.specs.Sounds.{Sound};
ghost use Rattle.wav_pcm.specs.WavText.{IsFormat, frame_size};
ghost use Rattle.wav_pcm.specs.Samples.{frames_in};
ghost use Rattle.wav_pcm.specs.Reading.{Spelling as SpellingOf, is_pcm, is_spelling, is_supported, spelling_of, samples_there, form_at, form_behind, form_by, form_of, pcm_rest};
ghost use Rattle.wav_pcm.specs.Files.{IsWav};
ghost use Rattle.wav_pcm.specs.Walking.{seen_bytes};
ghost use Rattle.wav_pcm.specs.Forms.{seen_form, seen_spelling, form_spelling};

use crate::fault::WavFault;
use crate::format::frame_size;
use crate::walk::{Walk, is_riff, u16_at, u32_at, walk_over};
use sl_base::MAX_RATE;

/// How a file spells its frames, where its samples begin, and how many frames there are.
#[derive(Clone, Copy, Debug, PartialEq, Eq)]
pub struct WavForm {
    /// Frames a second, 1 to 768000.
    pub rate: u32,
    /// 1 or 2.
    pub channels: u8,
    /// The bits of a sample, 16 or 24.
    pub bits: u8,
    /// The place of the first sample's first byte.
    pub start: usize,
    /// How many frames there are.
    pub count: usize,
}

/// How samples are spelled.
#[derive(Clone, Copy)]
struct Spelling {
    rate: u32,
    channels: u8,
    bits: u8,
}

/// The size that means all that is left.
const OPEN_SIZE: u32 = 4294967295;

/// The rest of the number that stands for PCM where the tag is FFFE hex.
const PCM_REST: [u8; 16] = [1, 0, 0, 0, 0, 0, 16, 0, 128, 0, 0, 170, 0, 56, 155, 113];

/// The number that stands for PCM ends as it has to.
fn has_pcm_rest(format: &[u8]) -> bool
    requires { length format.now ≡ 40 }
    ensures { result ≡ bytes_eq (drop 24 format.now) pcm_rest }
{
    format.split_at(24).1 == PCM_REST.as_slice()
}

/// The tag of a format is one of PCM.
fn is_pcm(format: &[u8]) -> bool
    requires { 16 ≤ length format.now }
    ensures { result ≡ is_pcm format.now }
{
    let tag = u16_at(format, 0);
    tag == 1 || tag == 65534 && format.len() == 40 && has_pcm_rest(format)
}

/// The spelling is one that is read.
fn is_spelling(rate: u32, channels: u16, bits: u16) -> bool
    ensures { result ≡ is_spelling (record { rate = rate; channels = channels; bits = bits }) }
{
    (channels == 1 || channels == 2) && (bits == 16 || bits == 24) && 1 <= rate && rate <= MAX_RATE
}

/// The spelling that a format of 16 bytes or more tells, where it is one that is read.
fn spelling_in(format: &[u8]) -> Option<Spelling>
    requires { 16 ≤ length format.now }
    ensures value { IfSome result (λ s. seen_spelling s ≡ spelling_of format.now) }
    ensures spelled { IfSome result (λ s. is_spelling (seen_spelling s) ≡ true) }
    ensures some { IfSome result (λ _. (is_spelling (spelling_of format.now) ≡ true)
        × (little_number 2 (drop 12 format.now) ≡ frame_size (spelling_of format.now).channels
        (spelling_of format.now).bits)) }
    ensures none { IfNone result
        ((is_spelling (spelling_of format.now) && little_number 2 (drop 12 format.now)
        == frame_size (spelling_of format.now).channels (spelling_of format.now).bits) ≡ false) }
{
    let channels = u16_at(format, 2);
    let rate = u32_at(format, 4);
    let align = u16_at(format, 12);
    let bits = u16_at(format, 14);
    if !is_spelling(rate, channels, bits) {
        return None;
    }
    let spelling = Spelling {
        rate,
        channels: channels as u8,
        bits: bits as u8,
    };
    if align as usize == frame_size(spelling.channels, spelling.bits) {
        Some(spelling)
    } else {
        None
    }
}

/// The spelling that a format tells, or None where it isn't one that is read.
fn spelling_of(format: &[u8]) -> Option<Spelling>
    ensures found { IfSome result (λ s. (is_supported format.now ≡ true)
        × (seen_spelling s ≡ spelling_of format.now)) }
    ensures spelled { IfSome result (λ s. is_spelling (seen_spelling s) ≡ true) }
    ensures only { IfNone result (is_supported format.now ≡ false) }
{
    if !matches!(format.len(), 16 | 18 | 40) {
        return None;
    }
    if !is_pcm(format) {
        return None;
    }
    spelling_in(format)
}

/// How many bytes of samples there are, by the size that is told and the bytes that are left.
fn samples_there(size: u32, left: usize) -> Option<usize>
    ensures { result ≡ samples_there size left }
{
    if size == OPEN_SIZE {
        Some(left)
    } else if left < size as usize {
        None
    } else {
        Some(size as usize)
    }
}

/// The form by how many bytes of samples there are, from a place on.
fn form_at(spelling: Spelling, start: usize, size: Option<usize>) -> Result<WavForm, WavFault>
    requires { is_spelling (seen_spelling spelling) ≡ true }
    ensures { seen_form result ≡ form_at (seen_spelling spelling) start size }
{
    let size = match size {
        Some(size) => size,
        None => return Err(WavFault::Truncated),
    };
    let frame = frame_size(spelling.channels, spelling.bits);
    if size % frame != 0 {
        return Err(WavFault::TornFrame);
    }
    Ok(WavForm {
        rate: spelling.rate,
        channels: spelling.channels,
        bits: spelling.bits,
        start,
        count: size / frame,
    })
}

/// The form by what stands behind the name of `data`, in a file of so many bytes.
fn form_behind(whole: usize, spelling: Spelling, part: Option<&[u8]>) -> Result<WavForm, WavFault>
    requires spelling { is_spelling (seen_spelling spelling) ≡ true }
    requires within { IfSome part (λ part. length part.now ≤ whole) }
    requires long { IfSome part (λ part. 4 ≤ length part.now) }
    ensures { seen_form result
        ≡ form_behind whole (seen_spelling spelling) (seen_bytes part.entry) }
{
    match part {
        None => Err(WavFault::NoData),
        Some(part) => {
            let size = u32_at(part, 0);
            let (_, left) = part.split_at(4);
            form_at(
                spelling,
                whole - left.len(),
                samples_there(size, left.len()),
            )
        }
    }
}

/// The form by what the walk found, in a file of so many bytes.
fn form_by(whole: usize, walk: Walk) -> Result<WavForm, WavFault>
    requires within { IfSome walk.part (λ part. length part.now ≤ whole) }
    requires long { IfSome walk.part (λ part. 4 ≤ length part.now) }
    ensures { seen_form result ≡ form_by whole (seen_bytes walk.entry.format)
        (seen_bytes walk.entry.part) }
{
    match walk.format {
        None => Err(WavFault::NoFormat),
        Some(format) => {
            match spelling_of(format) {
                None => Err(WavFault::Unsupported),
                Some(spelling) => form_behind(whole, spelling, walk.part),
            }
        }
    }
}

/// The form of a file, test by test.
fn form_in(bytes: &[u8]) -> Result<WavForm, WavFault>
    ensures { seen_form result ≡ form_of bytes.now }
{
    if !is_riff(bytes) {
        return Err(WavFault::NotRiff);
    }
    form_by(bytes.len(), walk_over(bytes.split_at(12).1))
}

/// The form of a file by the order of tests that docs/formats.md gives, or its first fault, which
/// is never `Memory`. No memory is taken, and the time is in proportion to the number of chunks.
#[tactic(auto, using(crate::proofs::FormLemmas::seen_is_no_wav))]
pub fn wav_form(bytes: &[u8]) -> Result<WavForm, WavFault>
    ensures value { seen_form result ≡ form_of bytes.now }
    ensures found { IfOk result (λ form. IsWav bytes.now (form_spelling form)
        (frames_in form.channels form.bits form.count (drop form.start bytes.now))) }
    ensures only { IfErr result (λ _. (spelling : SpellingOf) (frames : List Sound) →
        ¬ IsWav bytes.now spelling frames) }
    ensures within { IfOk result
        (λ form. form.start + form.count * frame_size form.channels form.bits ≤ length bytes.now) }
    ensures format { IfOk result (λ form. IsFormat form.channels form.bits) }
{
    form_in(bytes)
}
