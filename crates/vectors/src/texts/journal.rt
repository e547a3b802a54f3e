//! Journals.

use journal_text::{journal_text, read_journal};
use sl_commands::{Entries, ReadText, TextFault};
use std::alloc::Global;
use std::io::{self, Write};

/// Tells the fault of a text as its kind and its line.
pub fn tell_fault<W: Write>(out: &mut W, fault: TextFault) -> io::Result<()> {
    let kind = fault.kind.number();
    let line = fault.line;
    writeln!(out, "fault {kind} {line}")
}

/// Tells how many entries there are, and whether their text is these bytes.
fn tell_entries<W: Write>(
    out: &mut W,
    alloc: Global,
    entries: &Entries,
    bytes: &[u8],
) -> io::Result<()> {
    let count = entries.len();
    match journal_text(alloc, entries.as_slice()) {
        Ok(text) if text.as_slice() == bytes => writeln!(out, "entries {count}"),
        Ok(_) => writeln!(out, "entries {count} otherwise"),
        Err(_) => writeln!(out, "memory"),
    }
}

/// Tells what a journal says, or its first fault. Where `again` is true it is also written again
/// and compared.
pub fn tell_journal<W: Write>(
    out: &mut W,
    alloc: Global,
    bytes: &[u8],
    loops: u8,
    again: bool,
) -> io::Result<()> {
    match read_journal(alloc, bytes, loops.min(16)) {
        Ok(entries) if again => tell_entries(out, alloc, &entries, bytes),
        Ok(entries) => {
            let count = entries.len();
            writeln!(out, "entries {count}")
        }
        Err(ReadText::Fault(fault)) => tell_fault(out, fault),
        Err(ReadText::Memory) => writeln!(out, "memory"),
    }
}
