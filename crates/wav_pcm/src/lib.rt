//! The WAV text of frames, written and read.
//!
//! - `wav_text` writes frames in 1 or 2 channels of 16 or 24 bits, as RIFF WAVE with plain numbers.
//! - `read_wav` reads a file of 1 or 2 channels of 16 or 24 bits, or answers the first fault in the
//!   order that the format gives. It is `wav_form`, which finds where the samples stand and how
//!   they are spelled, and then the frames.
//! - `write_header` writes the bytes before the samples alone, for a text that is made a period
//!   after another.
//! - `read_frames` and `write_samples` go over the samples of a period in place, in each of the
//!   four forms, and take no memory.
//! - An `Input` is a file whose frames are read a span after another, without holding them all.
//! - `wav_text` and `read_wav` answer `Memory` for want of memory, and nothing is left behind then.
//!
//! Begin with `text`, then `file`, `form` and `walk`; `format`, `samples` and `frames` have the
//! parts, and `laws` what holds of the definitions.
//! The rules are "WAV" in docs/formats.md.
#![tactic(auto)]

mod fault;
mod file;
mod form;
mod format;
mod frames;
mod input;
mod laws;
mod samples;
#[cfg(test)]
mod tests;
mod text;
mod walk;

pub use fault::WavFault;
pub use file::{Wav, read_wav};
pub use form::{WavForm, wav_form};
pub use format::{frame_size, write_header};
pub use frames::read_frames;
pub use input::Input;
pub use laws::{
    frames_are_read_cut_by_cut, rate_0_is_not_supported, samples_stand_behind_one_another,
    size_of_text, wav_comes_back, wav_has_one_reading,
};
pub use samples::write_samples;
pub use text::wav_text;
