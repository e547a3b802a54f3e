//! Two files whose bytes are known, and the calls with ample memory.

use super::*;
use sl_base::{Frame, widen};
use std::alloc::{AllocError, Global};
use std::test::Fail;

/// The samples 1 to 8 of 16 bits in one channel, at 48000 frames a second.
const EIGHT_SAMPLES: &[u8] =
    b"RIFF\x34\0\0\0WAVEfmt \x10\0\0\0\x01\0\x01\0\x80\xbb\0\0\0\x77\x01\0\x02\0\x10\0data\x10\0\0\0\x01\0\x02\0\x03\0\x04\0\x05\0\x06\0\x07\0\x08\0";

/// The samples 256, 512, 768 and 1024 of 24 bits on both sides, at 48000 frames a second.
const FOUR_FRAMES: &[u8] =
    b"RIFF\x3c\0\0\0WAVEfmt \x10\0\0\0\x01\0\x02\0\x80\xbb\0\0\0\x65\x04\0\x06\0\x18\0data\x18\0\0\0\0\x01\0\0\x01\0\0\x02\0\0\x02\0\0\x03\0\0\x03\0\0\x04\0\0\x04\0";

/// Frames with these samples of 16 bits on both sides.
fn frames_of(alloc: Global, samples: &[i16]) -> Result<Vec<Frame>, AllocError> {
    let mut frames = Vec::new(alloc);
    for sample in samples {
        let side = widen(*sample);
        frames.push(Frame {
            left: side,
            right: side,
        })?;
    }
    Ok(frames)
}

#[test]
fn eight_samples_are_written(rt: HostRuntime) -> Result<(), Fail> {
    let frames = frames_of(rt.alloc(), &[1, 2, 3, 4, 5, 6, 7, 8])?;
    assert!(rt; frames.len() <= 8);
    let text = wav_text(rt.alloc(), &frames, 1, 16, 48000)
        .ok()
        .ok_or("no memory")?;
    assert_eq!(rt; text.as_slice(), EIGHT_SAMPLES);
    Ok(())
}

#[test]
fn four_frames_of_24_bits_are_written(rt: HostRuntime) -> Result<(), Fail> {
    let frames = frames_of(rt.alloc(), &[1, 2, 3, 4])?;
    assert!(rt; frames.len() <= 4);
    let text = wav_text(rt.alloc(), &frames, 2, 24, 48000)
        .ok()
        .ok_or("no memory")?;
    assert_eq!(rt; text.as_slice(), FOUR_FRAMES);
    Ok(())
}

#[test]
fn both_files_are_read_by_their_forms(rt: HostRuntime) -> Result<(), Fail> {
    let eight = read_wav(rt.alloc(), EIGHT_SAMPLES).ok().ok_or("not read")?;
    assert_eq!(rt; (eight.rate, eight.channels, eight.bits), (48000, 1, 16));
    let expected = frames_of(rt.alloc(), &[1, 2, 3, 4, 5, 6, 7, 8])?;
    assert_eq!(rt; eight.frames.as_slice(), expected.as_slice());
    let four = read_wav(rt.alloc(), FOUR_FRAMES).ok().ok_or("not read")?;
    assert_eq!(rt; (four.rate, four.channels, four.bits), (48000, 2, 24));
    let expected = frames_of(rt.alloc(), &[1, 2, 3, 4])?;
    assert_eq!(rt; four.frames.as_slice(), expected.as_slice());
    Ok(())
}

#[test]
fn every_prefix_of_a_file_has_its_fault(rt: HostRuntime) {
    for end in 0..EIGHT_SAMPLES.len() {
        let fault = wav_form(EIGHT_SAMPLES.split_at(end).0);
        let number = if end < 12 {
            1
        } else if end < 36 {
            2
        } else if end < 44 {
            4
        } else {
            5
        };
        assert!(rt;
            matches!(fault, Err(fault) if fault.number() == number),
            "{end}"
        );
    }
}
