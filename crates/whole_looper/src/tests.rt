//! What no clause says: loopers of two loops as calls, with ample memory.

ghost use Rattle.std.specs.Prelude.{◌<◌, length};

use crate::{BeginFault, Looper};
use sl_base::{Frame, Frames, Name, widen};
use sl_commands::{
    Command, Control, Globals, Initial, Settings, StripSettings, Strips, Target, Verb,
};
use std::test::Fail;

/// Both sides at a sample of 16 bits.
fn mono(sample: i16) -> Frame {
    Frame {
        left: widen(sample),
        right: widen(sample),
    }
}

/// Gives a command of OSC at a frame, and tells the value of its reply.
fn tells(looper: &mut Looper, frame: u64, command: Command) -> Option<i32> {
    if looper.saves() > 1000 {
        return None;
    }
    let applied = looper.apply(frame, 0, 0, &command);
    match applied.answer {
        None => None,
        Some(reply) => Some(reply.value),
    }
}

/// Plays four frames of a sample from a frame on; whether each that comes out is this one.
fn plays(looper: &mut Looper, frame: u64, input: i16, output: Frame) -> bool {
    if frame > 1000000 {
        return false;
    }
    let frames = [mono(input); 4];
    let mut out = [Frame::silence(); 4];
    looper.frames(frame, &frames[..], &mut out[..]);
    let sounds = &out[..];
    sounds[0] == output && sounds[1] == output && sounds[2] == output && sounds[3] == output
}

#[test]
fn two_loops_are_mixed_and_clamped_once(rt: HostRuntime) -> Result<(), Fail> {
    let settings = Settings::with_defaults(48000, 2);
    let mut looper = Looper::new(rt.alloc(), &settings, 16, &[]).map_err(|_| "memory")?;
    tells(&mut looper, 0, Command::Hit(Target::All, Verb::Rec));
    assert!(rt; plays(&mut looper, 0, 20000, mono(0)));
    tells(&mut looper, 4, Command::Hit(Target::All, Verb::Rec));
    let loudest = Frame {
        left: 8388607,
        right: 8388607,
    };
    assert!(rt; plays(&mut looper, 4, 0, loudest));
    tells(&mut looper, 8, Command::Hit(Target::One(1), Verb::Mute));
    assert!(rt; plays(&mut looper, 8, 0, mono(20000)));
    assert_eq!(rt;
        tells(
            &mut looper,
            12,
            Command::Get(Target::One(0), Control::LoopLen)
        ),
        Some(4)
    );
    Ok(())
}

#[test]
fn a_list_needs_its_chunks(rt: HostRuntime) -> Result<(), Fail> {
    let alloc = rt.alloc();
    let mut strips = Strips::new();
    strips.push(StripSettings {
        length: 1,
        cycle: 1,
        ..StripSettings::default()
    });
    let Some(settings) = Settings::of(48000, Globals::default(), strips) else {
        return Err("settings".into());
    };
    let mut initial = Initial::new(alloc);
    initial
        .push(Frames::of(vec![in alloc; mono(7); 1]?))
        .map_err(|_| "memory")?;
    match Looper::new(alloc, &settings, 0, initial.as_slice()) {
        Err(BeginFault::Limit) => {}
        _ => return Err("limit".into()),
    }
    let mut looper = Looper::new(alloc, &settings, 1, initial.as_slice()).map_err(|_| "memory")?;
    tells(&mut looper, 0, Command::Hit(Target::One(0), Verb::Trigger));
    assert!(rt; plays(&mut looper, 0, 0, mono(7)));
    Ok(())
}

#[test]
fn a_pinned_list_is_read_and_saved_once(rt: HostRuntime) -> Result<(), Fail> {
    let settings = Settings::with_defaults(48000, 2);
    let mut looper = Looper::new(rt.alloc(), &settings, 16, &[]).map_err(|_| "memory")?;
    tells(&mut looper, 0, Command::Hit(Target::One(1), Verb::Rec));
    assert!(rt; plays(&mut looper, 0, 300, mono(0)));
    let Some(name) = Name::read(b"take") else {
        return Err("name".into());
    };
    assert!(rt; tells(&mut looper, 4, Command::SaveSession(name)).is_none());
    assert_eq!(rt; looper.saves(), 1);
    if looper.loops() != 2 || looper.pinned_length(0) != 0 || looper.pinned_length(1) != 4 {
        return Err("pins".into());
    }
    let mut out = [Frame::silence(); 4];
    looper.saved_span(1, 0, &mut out[..]);
    let sounds = &out[..];
    assert_eq!(rt; sounds[3], mono(300));
    let Some(other) = Name::read(b"other") else {
        return Err("name".into());
    };
    let refused = tells(&mut looper, 4, Command::SaveLoop(Target::One(1), other));
    assert_eq!(rt; refused, Some(2));
    Ok(())
}
