//! The same message from outside, read again and again, for bench/messages.sh to time. It is
//! silent.
//!
//! ```text
//! benches messages hit|flood|midi|bound COUNT
//! ```
//!
//! `hit` reads a packet of one hit and what it asks for, `flood` one of 292 hits, `midi` feeds a
//! stream of 1000 notes, three bytes each, and `bound` looks up notes of the last of 1024 bindings.
//! Other words do nothing. The status is 1 where a message was not read as it has to be.

use midi_bindings::{Bindings, read_bindings};
use midi_reader::{MidiEvent, MidiReader};
use osc_paths::{Request, command_of};
use osc_reader::read_packet;
use sl_base::Addr;
use std::alloc::{AllocError, Global};

/// A hit of `record` on the first loop.
const HIT: [u8; 24] = *b"/sl/0/hit\0\0\0,s\0\0record\0\0";

/// How many hits the greatest packet holds.
const HITS: usize = 292;

/// A bundle of 292 hits, 8192 bytes.
fn flood(alloc: Global) -> Result<Vec<u8>, AllocError> {
    let mut bytes = Vec::with_capacity(alloc, 8192)?;
    bytes.extend_from_slice(b"#bundle\0\0\0\0\0\0\0\0\x01")?;
    for _ in 0..HITS {
        bytes.extend_from_slice(&[0, 0, 0, 24])?;
        bytes.extend_from_slice(&HIT)?;
    }
    Ok(bytes)
}

/// The packet says so many messages, and each asks for a command.
fn reads(alloc: Global, packet: &[u8], hits: usize) -> bool {
    let from = Addr {
        ip: 2130706433,
        port: 9951,
    };
    match read_packet(alloc, packet) {
        Ok(messages) => messages.len() == hits
            && messages.as_slice().iter().all(|message| matches!(
                command_of(message, 1, from),
                Ok(Request::Play(_, None))
            )),
        Err(_) => false,
    }
}

/// Reads a packet again and again.
fn reads_again(alloc: Global, packet: &[u8], hits: usize, count: u64) -> bool {
    for _ in 0..count {
        if !reads(alloc, packet, hits) {
            return false;
        }
    }
    true
}

/// How many notes a stream has.
const NOTES: usize = 1000;

/// A stream of notes, three bytes each.
fn stream(alloc: Global) -> Result<Vec<u8>, AllocError> {
    let mut bytes = Vec::with_capacity(alloc, 3 * NOTES)?;
    for place in 0..NOTES {
        bytes.push(0x90)?;
        bytes.push((place * 37 % 128) as u8)?;
        bytes.push((place * 11 % 127 + 1) as u8)?;
    }
    Ok(bytes)
}

/// How many notes begin in the bytes.
fn notes(reader: &mut MidiReader, bytes: &[u8]) -> usize {
    let mut count: usize = 0;
    for byte in bytes {
        if let Some(MidiEvent::NoteOn(_, _, _)) = reader.feed(*byte) {
            count = count.saturating_add(1);
        }
    }
    count
}

/// Feeds a stream again and again.
fn feeds_again(bytes: &[u8], count: u64) -> bool {
    let mut reader = MidiReader::new();
    for _ in 0..count {
        if notes(&mut reader, bytes) != NOTES {
            return false;
        }
    }
    true
}

/// A text of 1024 bindings.
fn lines(alloc: Global) -> Result<Vec<u8>, AllocError> {
    let mut text = Vec::new(alloc);
    text.extend_from_slice(b"looper bindings 1\n")?;
    for _ in 0..1023 {
        text.extend_from_slice(b"on 16 127 hit 0 record\n")?;
    }
    text.extend_from_slice(b"on 1 60 hit 0 record\nend\n")?;
    Ok(text)
}

/// Looks notes of the last binding up again and again.
fn looks_again(bindings: &Bindings, count: u64) -> bool {
    for turn in 0..count {
        let velocity = (turn % 127 + 1) as u8;
        if bindings
            .lookup(MidiEvent::NoteOn(0, 60, velocity))
            .is_none()
        {
            return false;
        }
    }
    true
}

/// Reads the bindings and looks notes up.
fn is_bound(alloc: Global, text: &[u8], count: u64) -> bool {
    match read_bindings(alloc, text, 1) {
        Ok(bindings) => looks_again(&bindings, count),
        Err(_) => false,
    }
}

/// Does what the words say, and tells whether all was read as it has to be.
pub fn passed(alloc: Global, words: &[String]) -> Result<bool, AllocError> {
    let [kind, count] = words else {
        return Ok(true);
    };
    let count = count.as_str().parse::<u64>().unwrap_or(0);
    match kind.as_str() {
        "hit" => Ok(reads_again(alloc, &HIT, 1, count)),
        "flood" => Ok(reads_again(alloc, &flood(alloc)?, HITS, count)),
        "midi" => Ok(feeds_again(&stream(alloc)?, count)),
        "bound" => Ok(is_bound(alloc, &lines(alloc)?, count)),
        _ => Ok(true),
    }
}
