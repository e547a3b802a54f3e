//! What holds of the definitions.

ghost use Rattle.std.specs.Prelude.{◌≡◌, ℕ, List, [], ◌∷◌, ◌++◌, option_to_list, IsTrue};
ghost use Rattle.midi_reader.specs.Bytes.{is_real_time};
ghost use Rattle.midi_reader.specs.Events.{event_at, events_of};
ghost use Rattle.midi_reader.specs.declared.event.MidiEvent.TheVariants.{NoteOn, NoteOff, Real, PitchBend};

/// One byte more gives the event at it, behind the events before.
pub fn events_grow_at_their_end()
    ensures { (fed : List ℕ) (byte : ℕ) →
        events_of (fed ++ byte ∷ []) ≡ events_of fed ++ option_to_list (event_at fed byte) }
{}

/// A real-time byte changes no event that comes after it.
pub fn real_time_bytes_change_nothing()
    ensures { (fed bytes : List ℕ) (real byte : ℕ) → IsTrue (is_real_time real) →
        event_at (fed ++ (real ∷ bytes)) byte ≡ event_at (fed ++ bytes) byte }
{}

/// What some bytes say: data before any status, running status across a real-time byte, velocity 0;
/// system exclusive with no end before a status; data behind a byte of the system; a bend.
pub fn what_some_bytes_say()
    ensures running { events_of (0x45 ∷ 0x90 ∷ 0x3c ∷ 0xf8 ∷ 0x40 ∷ 0x3e ∷ 0x00 ∷ []) ≡ Real 0xf8
        ∷ NoteOn 0 60 64 ∷ NoteOff 0 62 ∷ [] }
    ensures exclusive { events_of (0xf0 ∷ 0x7d ∷ 0x01 ∷ 0x90 ∷ 0x3c ∷ 0x40 ∷ []) ≡ NoteOn 0 60 64
        ∷ [] }
    ensures system { events_of (0x90 ∷ 0x3c ∷ 0xf3 ∷ 0x01 ∷ 0x40 ∷ []) ≡ [] }
    ensures bend { events_of (0xe2 ∷ 0x01 ∷ 0x40 ∷ []) ≡ PitchBend 2 8193 ∷ [] }
{}
