//! The sizes of the buffers, and a span that comes in, is heard and is written.

use crate::Period;
use sl_base::Frame;
use std::alloc::Global;
use std::test::Fail;
use wav_pcm::Input;

/// The samples 1 2 3 -4 in one channel of 16 bits at 48000 frames a second.
const FOUR: &[u8] =
    b"RIFF\x2c\0\0\0WAVEfmt \x10\0\0\0\x01\0\x01\0\x80\xbb\0\0\0\x77\x01\0\x02\0\x10\0data\x08\0\0\0\x01\0\x02\0\x03\0\xfc\xff";

#[test]
fn a_period_has_room_for_its_samples(rt: HostRuntime) -> Result<(), Fail> {
    let Ok(period) = Period::new(rt.alloc(), 2, 24, 3) else {
        return Err(Fail::from("no memory"));
    };
    assert_eq!(rt; period.most(), 3);
    assert_eq!(rt; period.frames.len(), 3);
    assert_eq!(rt; period.heard.len(), 3);
    assert_eq!(rt; period.bytes.len(), 18);
    Ok(())
}

#[test]
fn a_short_period_uses_the_front(rt: HostRuntime) -> Result<(), Fail> {
    let Ok(input) = Input::of(Vec::from_slice(rt.alloc(), FOUR)?) else {
        return Err(Fail::from("not a WAV file"));
    };
    let Ok(mut period) = Period::new(rt.alloc(), 1, 16, 3) else {
        return Err(Fail::from("no memory"));
    };
    assert!(rt; input.len() == 4);
    period.read(&input, 2, 2);
    assert_eq!(rt; period.frames[0].left, 768);
    assert_eq!(rt; period.frames[1].right, -1024);
    period.heard[0] = Frame {
        left: 768,
        right: 0,
    };
    let mut out = Vec::from_slice(rt.alloc(), &[9])?;
    assert!(rt; period.write(2, &mut out).is_ok());
    assert!(rt; out.as_slice() == [9, 3, 0, 0, 0].as_slice());
    Ok(())
}
