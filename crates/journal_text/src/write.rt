//! Writing a journal.

ghost use Rattle.std.specs.Prelude.{◌≡◌, ◌++◌, ◌∷◌, [], OnOk, IfOk};
ghost use Rattle.std.specs.String.{string_bytes};
ghost use Rattle.text_lines.specs.Lines.{line_of};
ghost use Rattle.journal_text.specs.JournalLines.{command_words, entry_line};
ghost use Rattle.journal_text.specs.Journals.{journal_text};

use sl_base::{Memory, Name};
use sl_commands::{Command, Control, Entry, Target, Verb};
use std::alloc::{AllocError, Global};

fn write_down(out: &mut String, target: Target, verb: Verb) -> Result<(), AllocError>
    ensures { OnOk result (string_bytes out.new ≡ string_bytes out.old
        ++ line_of (command_words (Command.Down target verb))) }
{
    let number = target.number();
    let name = verb.name();
    write!(out, "down {number} {name}")
}

fn write_up(out: &mut String, target: Target, verb: Verb) -> Result<(), AllocError>
    ensures { OnOk result (string_bytes out.new ≡ string_bytes out.old
        ++ line_of (command_words (Command.Up target verb))) }
{
    let number = target.number();
    let name = verb.name();
    write!(out, "up {number} {name}")
}

fn write_hit(out: &mut String, target: Target, verb: Verb) -> Result<(), AllocError>
    ensures { OnOk result (string_bytes out.new ≡ string_bytes out.old
        ++ line_of (command_words (Command.Hit target verb))) }
{
    let number = target.number();
    let name = verb.name();
    write!(out, "hit {number} {name}")
}

fn write_set(
    out: &mut String,
    target: Target,
    control: Control,
    value: i32,
) -> Result<(), AllocError>
    ensures { OnOk result (string_bytes out.new ≡ string_bytes out.old
        ++ line_of (command_words (Command.Set target control value))) }
{
    let number = target.number();
    let name = control.name();
    write!(out, "set {number} {name} {value}")
}

fn write_set_global(out: &mut String, control: Control, value: i32) -> Result<(), AllocError>
    ensures { OnOk result (string_bytes out.new ≡ string_bytes out.old
        ++ line_of (command_words (Command.SetGlobal control value))) }
{
    let name = control.name();
    write!(out, "gset {name} {value}")
}

fn write_get(out: &mut String, target: Target, control: Control) -> Result<(), AllocError>
    ensures { OnOk result (string_bytes out.new ≡ string_bytes out.old
        ++ line_of (command_words (Command.Get target control))) }
{
    let number = target.number();
    let name = control.name();
    write!(out, "get {number} {name}")
}

fn write_get_global(out: &mut String, control: Control) -> Result<(), AllocError>
    ensures { OnOk result (string_bytes out.new ≡ string_bytes out.old
        ++ line_of (command_words (Command.GetGlobal control))) }
{
    let name = control.name();
    write!(out, "gget {name}")
}

fn write_save(out: &mut String, target: Target, name: &Name) -> Result<(), AllocError>
    ensures { OnOk result (string_bytes out.new ≡ string_bytes out.old
        ++ line_of (command_words (Command.SaveLoop target name.now))) }
{
    let number = target.number();
    let name = name.as_str();
    write!(out, "save {number} {name}")
}

fn write_session(out: &mut String, name: &Name) -> Result<(), AllocError>
    ensures { OnOk result (string_bytes out.new ≡ string_bytes out.old
        ++ line_of (command_words (Command.SaveSession name.now))) }
{
    let name = name.as_str();
    write!(out, "session {name}")
}

fn write_release(out: &mut String, target: Target, outcome: u8) -> Result<(), AllocError>
    ensures { OnOk result (string_bytes out.new ≡ string_bytes out.old
        ++ line_of (command_words (Command.Release target outcome))) }
{
    let number = target.number();
    write!(out, "release {number} {outcome}")
}

/// Writes the words of a command.
fn write_command(out: &mut String, command: &Command) -> Result<(), AllocError>
    ensures { OnOk result
        (string_bytes out.new ≡ string_bytes out.old ++ line_of (command_words command.now)) }
{
    match command {
        Command::Down(target, verb) => write_down(out, *target, *verb),
        Command::Up(target, verb) => write_up(out, *target, *verb),
        Command::Hit(target, verb) => write_hit(out, *target, *verb),
        Command::Set(target, control, value) => write_set(out, *target, *control, *value),
        Command::SetGlobal(control, value) => write_set_global(out, *control, *value),
        Command::Get(target, control) => write_get(out, *target, *control),
        Command::GetGlobal(control) => write_get_global(out, *control),
        Command::SaveLoop(target, name) => write_save(out, *target, name),
        Command::SaveSession(name) => write_session(out, name),
        Command::Release(target, outcome) => write_release(out, *target, *outcome),
        Command::Quit => out.push_str("quit"),
    }
}

/// Writes the line of an entry, with its line feed.
fn write_entry(out: &mut String, entry: &Entry) -> Result<(), AllocError>
    ensures { OnOk result
        (string_bytes out.new ≡ string_bytes out.old ++ (entry_line entry.now ++ (10 ∷ []))) }
{
    let frame = entry.frame;
    let sender = entry.sender;
    let seq = entry.seq;
    write!(out, "{frame} {sender} {seq} ")?;
    write_command(out, &entry.command)?;
    out.push_str("\n")
}

/// Writes the whole journal.
fn write_journal(alloc: Global, entries: &[Entry]) -> Result<String, AllocError>
    ensures { IfOk result (λ text. string_bytes text ≡ journal_text entries.now) }
{
    let mut out = String::from_str(alloc, "looper journal 1\n")?;
    'entries: for place in 0..entries.len() {
        write_entry(&mut out, &entries[place])?;
    }
    out.push_str("end\n")?;
    Ok(out)
}

/// The journal of entries, whatever they are. It is read again where they are those of a journal.
pub fn journal_text(alloc: Global, entries: &[Entry]) -> Result<Vec<u8>, Memory>
    ensures { IfOk result (λ text. text.items ≡ journal_text entries.now) }
{
    let text = write_journal(alloc, entries)?;
    Ok(text.into_bytes())
}
