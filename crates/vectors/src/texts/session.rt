//! Sessions.

use crate::texts::journal::tell_fault;
use session_file::{read_session, session_text};
use sl_commands::{ReadText, Settings};
use std::alloc::Global;
use std::io::{self, Write};

/// Tells whether the text of the settings is these bytes.
fn tell_settings<W: Write>(
    out: &mut W,
    alloc: Global,
    settings: &Settings,
    bytes: &[u8],
) -> io::Result<()> {
    match session_text(alloc, settings) {
        Ok(text) if text.as_slice() == bytes => writeln!(out, "session"),
        Ok(_) => writeln!(out, "session otherwise"),
        Err(_) => writeln!(out, "memory"),
    }
}

/// Tells that a session was read and is written as it was, or its first fault.
pub fn tell_session<W: Write>(out: &mut W, alloc: Global, bytes: &[u8]) -> io::Result<()> {
    match read_session(bytes) {
        Ok(settings) => tell_settings(out, alloc, &settings, bytes),
        Err(ReadText::Fault(fault)) => tell_fault(out, fault),
        Err(ReadText::Memory) => writeln!(out, "memory"),
    }
}
