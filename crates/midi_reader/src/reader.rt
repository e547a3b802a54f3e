//! Bytes fed one after another.

ghost use Rattle.std.specs.Prelude.{◌≡◌, ◌<◌, ℕ, List, [], ◌∷◌, ◌++◌, IfSome, IsTrue, nat_lt};
ghost use Rattle.midi_reader.specs.Events.{IsEvent, event_at};
ghost use Rattle.midi_reader.specs.Feeding.{HasBeenFed};

use crate::event::{MidiEvent, event_on};
use std::marker::Model;

/// A reader of one stream of MIDI bytes.
#[derive(Drop)]
pub struct MidiReader {
    status: Option<u8>,
    first: Option<u8>,
}

impl Model for MidiReader {
    ghost use Rattle.midi_reader.specs.Feeding.{Kept, IsKept};

    ghost Value = { Kept };

    ghost view = { λ r. record { status = r.status; first = r.first } };

    ghost invariant = { λ r. IsKept (record { status = r.status; first = r.first }) };
}

impl MidiReader {
    /// A reader that has been fed nothing.
    pub fn new() -> MidiReader
        ensures { HasBeenFed result [] }
    {
        MidiReader {
            status: None,
            first: None,
        }
    }

    /// Takes the next byte, and gives the event that is whole with it.
    pub fn feed(&mut self, byte: u8) -> Option<MidiEvent>
        ensures value { (fed : List ℕ) → HasBeenFed self.old fed → result ≡ event_at fed byte }
        ensures fed { (fed : List ℕ) → HasBeenFed self.old fed →
            HasBeenFed self.new (fed ++ byte ∷ []) }
        ensures within { IfSome result IsEvent }
    {
        match byte {
            0..=0x7f => self.feed_data(byte),
            0x80..=0xef => {
                self.status = Some(byte);
                self.first = None;
                None
            }
            0xf0..=0xf7 => {
                self.status = None;
                self.first = None;
                None
            }
            0xf8 | 0xfa..=0xfc => Some(MidiEvent::Real(byte)),
            _ => None,
        }
    }

    /// The same for a data byte.
    fn feed_data(&mut self, byte: u8) -> Option<MidiEvent>
        requires { byte < 128 }
        ensures value { (fed : List ℕ) → HasBeenFed self.old fed → result ≡ event_at fed byte }
        ensures fed { (fed : List ℕ) → HasBeenFed self.old fed →
            HasBeenFed self.new (fed ++ byte ∷ []) }
        ensures within { IfSome result IsEvent }
    {
        let status = self.status?;
        if (0xc0..0xe0).contains(&status) {
            return Some(event_on(status, 0, byte));
        }
        match self.first {
            None => {
                self.first = Some(byte);
                None
            }
            Some(first) => {
                self.first = None;
                Some(event_on(status, first, byte))
            }
        }
    }
}
