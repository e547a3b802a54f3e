//! Texts of files: journals, sessions, WAV files.

mod journal;
mod session;
mod wav;

use crate::hex::bytes_of;
use crate::texts::journal::tell_journal;
use crate::texts::session::tell_session;
use crate::texts::wav::tell_wav;
use std::alloc::Global;
use std::fs;
use std::io::{self, Write};

/// Tells what the bytes say in the form of this name. Where `again` is true, a text is also written
/// again.
fn tell<W: Write>(
    out: &mut W,
    alloc: Global,
    form: &str,
    loops: &str,
    bytes: &[u8],
    again: bool,
) -> io::Result<()> {
    match form {
        "journal" => tell_journal(out, alloc, bytes, loops.parse().unwrap_or(1), again),
        "session" => tell_session(out, alloc, bytes),
        "wav" => tell_wav(out, alloc, bytes, again),
        _ => writeln!(out, "no such form"),
    }
}

/// Tells what the words of a line say: a form, a number of loops, and bytes in digits.
pub fn tell_text<W: Write>(
    out: &mut W,
    alloc: Global,
    form: &str,
    loops: &str,
    digits: &str,
) -> io::Result<()> {
    tell(out, alloc, form, loops, &bytes_of(alloc, digits)?, true)
}

/// Tells on standard output what a file says.
pub fn tell_file(rt: &HostRuntime, form: &str, loops: &str, file: &str) -> io::Result<()> {
    let bytes = fs::read(rt, file)?;
    tell(&mut io::writer(rt), rt.alloc(), form, loops, &bytes, false)
}
