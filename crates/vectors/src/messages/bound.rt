//! Bindings, and what events give by them.

use crate::hex::tell_bytes;
use crate::messages::asked::tell_command;
use crate::messages::midi::tell_event;
use midi_bindings::{Bindings, bindings_text, read_bindings};
use midi_reader::MidiReader;
use sl_commands::{ReadText, TextFault};
use std::alloc::Global;
use std::io::{self, Write};

fn read(alloc: Global, loops: u8, text: &[u8]) -> Result<Bindings, ReadText> {
    let loops = if loops <= 16 { loops } else { 16 };
    read_bindings(alloc, text, loops)
}

fn tell_place<W: Write>(out: &mut W, fault: TextFault) -> io::Result<()> {
    let kind = fault.kind.number();
    let line = fault.line;
    writeln!(out, "fault {kind} {line}")
}

fn tell_why<W: Write>(out: &mut W, why: ReadText) -> io::Result<()> {
    match why {
        ReadText::Fault(fault) => tell_place(out, fault),
        ReadText::Memory => writeln!(out, "no memory"),
    }
}

fn tell_text<W: Write>(out: &mut W, alloc: Global, bindings: &Bindings) -> io::Result<()> {
    match bindings_text(alloc, bindings) {
        Ok(text) => {
            write!(out, "text ")?;
            tell_bytes(out, text.as_slice())?;
            writeln!(out, "")
        }
        Err(_) => writeln!(out, "no memory"),
    }
}

/// Tells the bindings of a text, as they are written, or its first fault.
pub fn tell_bindings<W: Write>(
    out: &mut W,
    alloc: Global,
    loops: u8,
    text: &[u8],
) -> io::Result<()> {
    match read(alloc, loops, text) {
        Ok(bindings) => tell_text(out, alloc, &bindings),
        Err(why) => tell_why(out, why),
    }
}

fn tell_given<W: Write>(out: &mut W, bindings: &Bindings, bytes: &[u8]) -> io::Result<()> {
    let mut reader = MidiReader::new();
    write!(out, "commands")?;
    for place in 0..bytes.len() {
        if let Some(event) = reader.feed(bytes[place]) {
            if let Some(command) = bindings.lookup(event) {
                write!(out, "; {place}:")?;
                tell_event(out, event)?;
                write!(out, " ")?;
                tell_command(out, &command)?;
            }
        }
    }
    writeln!(out, "")
}

/// Tells the commands that bytes give by the bindings of a text.
pub fn tell_looked<W: Write>(
    out: &mut W,
    alloc: Global,
    loops: u8,
    text: &[u8],
    bytes: &[u8],
) -> io::Result<()> {
    match read(alloc, loops, text) {
        Ok(bindings) => tell_given(out, &bindings, bytes),
        Err(why) => tell_why(out, why),
    }
}
