//! The entry that a line spells.

ghost use Rattle.std.specs.Prelude.{◌≡◌, ◌≢◌, ◌≤◌, ℕ, map, IfSome, IfNone, IfOk, IfErr};
ghost use Rattle.sl_commands.specs.declared.entry.Entry.{Entry};
ghost use Rattle.journal_text.specs.JournalLines.{entry_words, entry_line};
ghost use Rattle.journal_text.specs.Journals.{HasLine, HasNoEntry};

use crate::command::command_of;
use crate::form::is_form;
use sl_base::MAX_SESSION_FRAMES;
use sl_commands::{Entry, TextKind};
use text_lines::{number_of, words_of};

/// The entry that words spell, where it may stand in a journal for so many loops.
fn entry_of(words: &[&[u8]], loops: u8) -> Option<Entry>
    requires { loops ≤ 16 }
    ensures found { IfSome result (λ e. (map (λ w. w.now) words.now ≡ entry_words e)
        × HasLine loops e) }
    ensures only { IfNone result ((e : Entry) → HasLine loops e →
        map (λ w. w.now) words.now ≢ entry_words e) }
{
    match words {
        [frame, sender, seq, command @ ..] => {
            let frame = number_of(frame, MAX_SESSION_FRAMES)?;
            let sender = number_of(sender, 2)?;
            let seq = number_of(seq, 4294967295)?;
            let command = command_of(command)?;
            let entry = Entry {
                frame,
                sender: sender as u8,
                seq: seq as u32,
                command,
            };
            if entry.is_valid(loops) {
                Some(entry)
            } else {
                None
            }
        }
        _ => None,
    }
}

/// Reads one line, for so many loops. An error is `Form` where the line has no form, and else
/// `Value`.
pub fn read_line(line: &[u8], loops: u8) -> Result<Entry, TextKind>
    requires { loops ≤ 16 }
    ensures found { IfOk result (λ e. (line.now ≡ entry_line e) × HasLine loops e) }
    ensures wrong { IfErr result (HasNoEntry loops line.now) }
{
    let Some(words) = words_of(line) else {
        return Err(TextKind::Form);
    };
    match entry_of(words.as_slice(), loops) {
        Some(entry) => Ok(entry),
        None => if is_form(words.as_slice()) {
            Err(TextKind::Value)
        } else {
            Err(TextKind::Form)
        },
    }
}
