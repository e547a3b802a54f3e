//! Gains that move frame by frame, and sums that are clamped once.

use super::*;
use sl_base::{Frame, widen};

/// A frame with this sample of 16 bits on both sides.
fn frame_of(sample: i16) -> Frame {
    let side = widen(sample);
    Frame {
        left: side,
        right: side,
    }
}

#[test]
fn a_gain_moves_frame_by_frame(rt: HostRuntime) {
    let mut sums = [Sum::none(); 3];
    let mut output = [Frame::silence(); 3];
    let mut gain = Gain::new(0);
    clear_span(&mut sums);
    add_span(&mut sums, &[frame_of(1000); 3], &mut gain, 1000, 500);
    close_span(&sums, &mut output);
    let expected = [frame_of(500), frame_of(1000), frame_of(1000)];
    assert_eq!(rt; output.as_slice(), expected.as_slice());
    assert_eq!(rt; gain.step(0, 300), 700);
}

#[test]
fn sums_are_clamped_once(rt: HostRuntime) {
    let mut sums = [Sum::none(); 3];
    let mut output = [Frame::silence(); 3];
    let mut gain = Gain::new(1000);
    clear_span(&mut sums);
    add_span(&mut sums, &[frame_of(32767); 3], &mut gain, 1000, 20);
    add_span(&mut sums, &[frame_of(32767); 3], &mut gain, 1000, 20);
    add_span(&mut sums, &[frame_of(-32768); 3], &mut gain, 1000, 20);
    close_span(&sums, &mut output);
    assert_eq!(rt; output.as_slice(), [frame_of(32766); 3].as_slice());
}
