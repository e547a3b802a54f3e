//! MIDI bytes.

use midi_reader::{MidiEvent, MidiReader};
use std::io::{self, Write};

/// Tells an event by its fields.
pub fn tell_event<W: Write>(out: &mut W, event: MidiEvent) -> io::Result<()> {
    match event {
        MidiEvent::NoteOff(channel, note) => write!(out, "NoteOff:{channel}:{note}"),
        MidiEvent::NoteOn(channel, note, velocity) => write!(
            out,
            "NoteOn:{channel}:{note}:{velocity}"
        ),
        MidiEvent::PolyPressure(channel, note, amount) => write!(
            out,
            "PolyPressure:{channel}:{note}:{amount}"
        ),
        MidiEvent::ControlChange(channel, number, value) => write!(
            out,
            "ControlChange:{channel}:{number}:{value}"
        ),
        MidiEvent::ProgramChange(channel, number) => write!(
            out,
            "ProgramChange:{channel}:{number}"
        ),
        MidiEvent::Pressure(channel, amount) => write!(out, "Pressure:{channel}:{amount}"),
        MidiEvent::PitchBend(channel, amount) => write!(out, "PitchBend:{channel}:{amount}"),
        MidiEvent::Real(byte) => write!(out, "Real:{byte}"),
    }
}

/// Tells the events of the bytes.
pub fn tell_stream<W: Write>(out: &mut W, bytes: &[u8]) -> io::Result<()> {
    let mut reader = MidiReader::new();
    write!(out, "events")?;
    for byte in bytes {
        if let Some(event) = reader.feed(*byte) {
            write!(out, " ")?;
            tell_event(out, event)?;
        }
    }
    writeln!(out, "")
}

/// Tells the events of the bytes, each behind the place of its last byte.
pub fn tell_midi<W: Write>(out: &mut W, bytes: &[u8]) -> io::Result<()> {
    let mut reader = MidiReader::new();
    write!(out, "events")?;
    for place in 0..bytes.len() {
        if let Some(event) = reader.feed(bytes[place]) {
            write!(out, " {place}:")?;
            tell_event(out, event)?;
        }
    }
    writeln!(out, "")
}
