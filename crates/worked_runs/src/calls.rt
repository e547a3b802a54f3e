//! The public calls below a run, once each where they succeed.

use command_words::{Plain, plain_words};
use looper_cli::Status;
use sl_base::{Frame, Frames, Name, clamp24, narrow, scale, widen};
use std::test::Fail;

/// A frame with this number on both sides.
fn mono(sample: i16) -> Frame {
    let side = widen(sample);
    Frame {
        left: side,
        right: side,
    }
}

#[test]
fn samples_are_clamped_scaled_and_changed_in_width(rt: HostRuntime) {
    for (number, sample) in [(8388608, 8388607), (-8388609, -8388608), (-7, -7)] {
        assert_eq!(rt; clamp24(number), sample, "{number} clamped");
    }
    for (sample, level, scaled) in [(-3, 500, -1), (3, 500, 1), (-8388608, 1000, -8388608)] {
        assert_eq!(rt;
            scale(sample, level),
            scaled,
            "{level} thousandths of {sample}"
        );
    }
    for (sample, narrowed) in [(-1, -1), (255, 0), (-256, -1), (8388607, 32767)] {
        assert_eq!(rt; narrow(sample), narrowed, "{sample} in 16 bits");
    }
    assert_eq!(rt; widen(-32768), -8388608);
}

#[test]
fn a_list_of_frames_has_what_was_pushed(rt: HostRuntime) -> Result<(), Fail> {
    let mut frames = Frames::new(rt.alloc());
    assert!(rt; frames.push(mono(1)).is_ok(), "the first");
    assert!(rt; frames.push(Frame::silence()).is_ok(), "the second");
    assert_eq!(rt; frames.len(), 2);
    assert_eq!(rt; frames.as_slice(), [mono(1), mono(0)].as_slice());
    let again = Frames::of(frames.into_vec());
    assert_eq!(rt; again.as_slice(), [mono(1), mono(0)].as_slice());
    Ok(())
}

#[test]
fn names_and_words_are_read(rt: HostRuntime) -> Result<(), Fail> {
    let taken = Name::read(b"take_1.wav").ok_or("a name")?;
    assert_eq!(rt; taken.duplicate().as_str(), "take_1.wav");
    assert!(rt; Name::read(b".wav").is_none(), "begins with a dot");
    let mut words = Vec::new(rt.alloc());
    for word in ["render", "in", "--period", "out", "--loops", "3"] {
        words.push(String::from_str(rt.alloc(), word)?)?;
    }
    let Ok(Plain::Render(run)) = plain_words(&words) else {
        return Err(Fail::from("not in the grammar"));
    };
    assert_eq!(rt; run.input.as_str(), "in");
    assert_eq!(rt; run.journal.as_str(), "--period");
    assert_eq!(rt; run.out.as_str(), "out");
    assert_eq!(rt; (run.loops, run.period, run.chunks), (3, 1024, 4096));
    assert!(rt; run.session.is_none(), "no session is named");
    assert_eq!(rt; Status::Memory.number(), 8);
    Ok(())
}
