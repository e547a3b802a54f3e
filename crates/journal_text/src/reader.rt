//! Reading a journal.

ghost use Rattle.std.specs.Prelude.{◌≡◌, ◌≤◌, ℕ, List, IfOk, IfErr, OnOk};
ghost use Rattle.sl_commands.specs.declared.entry.Entry.{Entry};
ghost use Rattle.text_lines.specs.FirstFaults.{IsReason};
ghost use Rattle.text_lines.specs.Taking.{IsTaken, IsRefused, DeniesAll};
ghost use Rattle.journal_text.specs.Journals.{journal_form, IsJournal};

use crate::entry::read_line;
use crate::so_far::SoFar;
use sl_commands::{Entries, ReadText, TextKind};
use std::alloc::Global;
use std::marker::Model;
use text_lines::{FormLines, Refused, read_form};

/// The most lines of entries.
const MAX_LINES: u32 = 4194304;

/// Takes one line behind those so far. An error leaves them as they were.
fn take_line(so_far: &mut SoFar, line: &[u8], loops: u8) -> Result<(), Refused>
    requires { loops ≤ 16 }
    ensures ok { OnOk result (IsTaken (journal_form loops) so_far.old line.now so_far.new) }
    ensures wrong { IfErr result (IsRefused (journal_form loops) so_far.old line.now) }
{
    if so_far.count() == MAX_LINES {
        return Err(Refused::Wrong(TextKind::TooMany));
    }
    let entry = match read_line(line, loops) {
        Ok(entry) => entry,
        Err(kind) => return Err(Refused::Wrong(kind)),
    };
    match so_far.refusal(&entry) {
        Some(kind) => Err(Refused::Wrong(kind)),
        None => match so_far.push(entry) {
            Ok(()) => Ok(()),
            Err(_) => Err(Refused::Memory),
        },
    }
}

/// The entries so far, of a journal for so many loops.
#[derive(Drop)]
struct JournalLines {
    so_far: SoFar,
    /// 16 at most.
    loops: u8,
}

impl Model for JournalLines {
    ghost use Rattle.std.specs.Prelude.{◌≤◌, ℕ, List};
    ghost use Rattle.sl_commands.specs.declared.entry.Entry.{Entry};

    ghost Value = { ℕ × List Entry };

    ghost view = { λ l. (l.loops, l.so_far) };

    ghost invariant = { λ l. l.loops ≤ 16 };
}

impl FormLines for JournalLines {
    ghost use Rattle.sl_commands.specs.declared.entry.Entry.{Entry};
    ghost use Rattle.journal_text.specs.Journals.{journal_form};

    ghost Item = { Entry };

    ghost form = { journal_form };

    ghost given = { λ l. l.0 };

    ghost items = { λ l. l.1 };

    fn header(&self) -> &[u8] {
        b"looper journal 1".as_slice()
    }

    fn count(&self) -> u32 {
        self.so_far.count()
    }

    fn take_line(&mut self, line: &[u8]) -> Result<(), Refused> {
        take_line(&mut self.so_far, line, self.loops)
    }
}

/// Reads a journal for so many loops, 16 at most: its entries, or its first fault. `Memory` may
/// come at any text.
pub fn read_journal(alloc: Global, bytes: &[u8], loops: u8) -> Result<Entries, ReadText>
    requires { loops ≤ 16 }
    ensures found { IfOk result (λ entries. IsJournal loops bytes.now entries) }
    ensures one { IfOk result (λ entries. (others : List Entry) → IsJournal loops bytes.now others →
        others ≡ entries) }
    ensures fault { IfErr result (IsReason (journal_form loops) bytes.now) }
    ensures only { IfErr result (DeniesAll (λ entries. IsJournal loops bytes.now entries)) }
{
    let none = JournalLines {
        so_far: SoFar::new(alloc),
        loops,
    };
    match read_form(none, bytes) {
        Ok(lines) => Ok(lines.so_far.into_entries()),
        Err(why) => Err(why),
    }
}
