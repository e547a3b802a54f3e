//! Bindings that are read, looked up and written again, and texts with a fault.

use super::*;
use midi_reader::MidiEvent;
use sl_commands::{Command, Control, ReadText, Target, TextFault, TextKind, Verb};
use std::alloc::Global;
use std::test::Fail;

/// Each kind once, and a line that is never reached.
const ALL: &[u8] = b"looper bindings 1\n\
on 1 60 hit 0 record\n\
off 1 60 up -1 oneshot\n\
pc 16 127 down -3 undo_all\n\
cc 2 0 hit 1 mute\n\
co 2 0 hit 1 pause\n\
cv 1 7 set -3 feedback 1000 0\n\
cv 1 7 set -3 wet 0 1000\n\
end\n";

#[test]
fn what_is_read_is_written_again(rt: HostRuntime) -> Result<(), Fail> {
    let bindings = read_bindings(rt.alloc(), ALL, 2).ok().ok_or("not read")?;
    let text = bindings_text(rt.alloc(), &bindings)
        .ok()
        .ok_or("not written")?;
    assert!(rt; text.as_slice() == ALL);
    Ok(())
}

#[test]
fn the_first_matching_line_counts(rt: HostRuntime) -> Result<(), Fail> {
    let bindings = read_bindings(rt.alloc(), ALL, 2).ok().ok_or("not read")?;
    let hit = bindings.lookup(MidiEvent::NoteOn(0, 60, 1));
    assert!(rt; hit == Some(Command::Hit(Target::One(0), Verb::Rec)));
    let swept = bindings.lookup(MidiEvent::ControlChange(0, 7, 1));
    assert!(rt; swept == Some(Command::Set(Target::Selected, Control::Feedback, 993)));
    assert!(rt; bindings.lookup(MidiEvent::NoteOn(1, 60, 1)).is_none());
    Ok(())
}

fn fault_of(alloc: Global, bytes: &[u8]) -> Option<(u32, TextKind)> {
    match read_bindings(alloc, bytes, 2) {
        Err(ReadText::Fault(TextFault { line, kind })) => Some((line, kind)),
        _ => None,
    }
}

#[test]
fn faults_have_their_line_and_kind(rt: HostRuntime) {
    let rows: [(&[u8], u32, TextKind); 5] = [
        (b"looper bindings 2\nend\n", 1, TextKind::Header),
        (
            b"looper bindings 1\non 1 1 tap 0 record\nend\n",
            2,
            TextKind::Form,
        ),
        (
            b"looper bindings 1\non 17 1 hit 0 record\nend\n",
            2,
            TextKind::Value,
        ),
        (
            b"looper bindings 1\ncv 1 1 set 0 dry 0 1\nend\n",
            2,
            TextKind::Value,
        ),
        (b"looper bindings 1\nend\n\n", 3, TextKind::Ending),
    ];
    for (bytes, line, kind) in rows {
        let fault = fault_of(rt.alloc(), bytes);
        assert!(rt; fault == Some((line, kind)));
    }
}
