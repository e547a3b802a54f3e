//! A stream of bytes with the event at each.

use super::*;

/// The bytes, and the event at each.
const STREAM: [(u8, Option<MidiEvent>); 13] = [
    (0x45, None),
    (0x90, None),
    (0x3c, None),
    (0xf8, Some(MidiEvent::Real(0xf8))),
    (0x40, Some(MidiEvent::NoteOn(0, 60, 64))),
    (0x3e, None),
    (0x00, Some(MidiEvent::NoteOff(0, 62))),
    (0xf0, None),
    (0x01, None),
    (0xc5, None),
    (0x07, Some(MidiEvent::ProgramChange(5, 7))),
    (0xfe, None),
    (0x08, Some(MidiEvent::ProgramChange(5, 8))),
];

#[test]
fn each_event_comes_at_its_last_byte(rt: HostRuntime) {
    let mut reader = MidiReader::new();
    for (byte, event) in STREAM {
        assert_eq!(rt; reader.feed(byte), event, "at {byte:02x}");
    }
}
