//! What MIDI bytes say.

ghost use Rattle.std.specs.Prelude.{◌≡◌, ◌≤◌, ◌<◌, ◌/◌, ◌%◌};
ghost use Rattle.midi_reader.specs.Events.{IsEvent, event_on, note_on};

/// What a group of MIDI bytes says (MIDI 1.0, channel voice messages), or a real-time byte. The
/// first field is the channel, 0 to 15, but for `Real`. Notes, numbers and amounts are 0 to 127.
#[derive(Clone, Copy, Debug, PartialEq, Eq)]
pub enum MidiEvent {
    /// Channel and note.
    NoteOff(u8, u8),
    /// Channel, note, and a velocity of 1 or more.
    NoteOn(u8, u8, u8),
    /// Channel, note and amount.
    PolyPressure(u8, u8, u8),
    /// Channel, number of the controller, and its value.
    ControlChange(u8, u8, u8),
    /// Channel and number.
    ProgramChange(u8, u8),
    /// Channel and amount.
    Pressure(u8, u8),
    /// Channel, and an amount of 0 to 16383 whose middle is 8192.
    PitchBend(u8, u16),
    /// The byte: F8 clock, FA start, FB continue, FC stop.
    Real(u8),
}

/// A note that begins, or with velocity 0 ends.
fn note_on(channel: u8, note: u8, velocity: u8) -> MidiEvent
    ensures { result ≡ note_on channel note velocity }
{
    if velocity == 0 {
        MidiEvent::NoteOff(channel, note)
    } else {
        MidiEvent::NoteOn(channel, note, velocity)
    }
}

/// The event of a status byte and its data bytes, of which `second` is the last.
pub(crate) fn event_on(status: u8, first: u8, second: u8) -> MidiEvent
    requires status_within { (128 ≤ status) × (status < 240) }
    requires first_within { first < 128 }
    requires second_within { second < 128 }
    ensures value { result ≡ event_on (status / 16) (status % 16) first second }
    ensures within { IsEvent result }
{
    let channel = status % 16;
    match status / 16 {
        8 => MidiEvent::NoteOff(channel, first),
        9 => note_on(channel, first, second),
        10 => MidiEvent::PolyPressure(channel, first, second),
        11 => MidiEvent::ControlChange(channel, first, second),
        12 => MidiEvent::ProgramChange(channel, second),
        13 => MidiEvent::Pressure(channel, second),
        _ => MidiEvent::PitchBend(channel, second as u16 * 128 + first as u16),
    }
}
