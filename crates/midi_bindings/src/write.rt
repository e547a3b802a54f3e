//! Writing bindings.

ghost use Rattle.std.specs.Prelude.{◌≡◌, ◌+◌, ◌++◌, ◌∷◌, [], OnOk, IfOk};
ghost use Rattle.std.specs.Fmt.{decimal, signed_decimal};
ghost use Rattle.std.specs.String.{string_bytes};
ghost use Rattle.text_lines.specs.Lines.{line_of};
ghost use Rattle.midi_bindings.specs.declared.binding.Binding.{Binding};
ghost use Rattle.midi_bindings.specs.Lines.{binding_line, kind_word};
ghost use Rattle.midi_bindings.specs.Texts.{bindings_text};

use crate::binding::{BindKind, Binding};
use crate::bindings::Bindings;
use sl_base::Memory;
use sl_commands::{Command, Control, Target, Verb};
use std::alloc::{AllocError, Global};

fn write_down(
    out: &mut String,
    kind: BindKind,
    channel: u8,
    number: u8,
    target: Target,
    verb: Verb,
) -> Result<(), AllocError>
    ensures { OnOk result (string_bytes out.new ≡ string_bytes out.old
        ++ binding_line (Binding.Give kind channel number (Command.Down target verb))) }
{
    let kind = kind.word();
    let channel = channel as u32 + 1;
    let target = target.number();
    let name = verb.name();
    write!(out, "{kind} {channel} {number} down {target} {name}")
}

fn write_up(
    out: &mut String,
    kind: BindKind,
    channel: u8,
    number: u8,
    target: Target,
    verb: Verb,
) -> Result<(), AllocError>
    ensures { OnOk result (string_bytes out.new ≡ string_bytes out.old
        ++ binding_line (Binding.Give kind channel number (Command.Up target verb))) }
{
    let kind = kind.word();
    let channel = channel as u32 + 1;
    let target = target.number();
    let name = verb.name();
    write!(out, "{kind} {channel} {number} up {target} {name}")
}

fn write_hit(
    out: &mut String,
    kind: BindKind,
    channel: u8,
    number: u8,
    target: Target,
    verb: Verb,
) -> Result<(), AllocError>
    ensures { OnOk result (string_bytes out.new ≡ string_bytes out.old
        ++ binding_line (Binding.Give kind channel number (Command.Hit target verb))) }
{
    let kind = kind.word();
    let channel = channel as u32 + 1;
    let target = target.number();
    let name = verb.name();
    write!(out, "{kind} {channel} {number} hit {target} {name}")
}

/// Writes the words of a verb's line. Other commands have none.
fn write_give(
    out: &mut String,
    kind: BindKind,
    channel: u8,
    number: u8,
    command: &Command,
) -> Result<(), AllocError>
    ensures { OnOk result (string_bytes out.new ≡ string_bytes out.old
        ++ binding_line (Binding.Give kind channel number command.now)) }
{
    match command {
        Command::Down(target, verb) => write_down(out, kind, channel, number, *target, *verb),
        Command::Up(target, verb) => write_up(out, kind, channel, number, *target, *verb),
        Command::Hit(target, verb) => write_hit(out, kind, channel, number, *target, *verb),
        _ => {
            let kind = kind.word();
            let channel = channel as u32 + 1;
            write!(out, "{kind} {channel} {number}")
        }
    }
}

fn write_sweep(
    out: &mut String,
    channel: u8,
    number: u8,
    target: Target,
    control: Control,
    low: i32,
    high: i32,
) -> Result<(), AllocError>
    ensures { OnOk result (string_bytes out.new ≡ string_bytes out.old
        ++ binding_line (Binding.Sweep channel number target control low high)) }
{
    let channel = channel as u32 + 1;
    let target = target.number();
    let name = control.name();
    write!(
        out,
        "cv {channel} {number} set {target} {name} {low} {high}"
    )
}

/// Writes the words of a line.
fn write_line(out: &mut String, binding: &Binding) -> Result<(), AllocError>
    ensures { OnOk result
        (string_bytes out.new ≡ string_bytes out.old ++ binding_line binding.now) }
{
    match binding {
        Binding::Give {
            kind,
            channel,
            number,
            command,
        } => write_give(out, *kind, *channel, *number, command),
        Binding::Sweep {
            channel,
            number,
            target,
            control,
            low,
            high,
        } => write_sweep(out, *channel, *number, *target, *control, *low, *high),
    }
}

/// Writes the line of a binding, with its line feed.
fn write_binding(out: &mut String, binding: &Binding) -> Result<(), AllocError>
    ensures { OnOk result
        (string_bytes out.new ≡ string_bytes out.old ++ (binding_line binding.now ++ (10 ∷ []))) }
{
    write_line(out, binding)?;
    out.push_str("\n")
}

/// Writes the whole text.
fn write_bindings(alloc: Global, bindings: &[Binding]) -> Result<String, AllocError>
    ensures { IfOk result (λ text. string_bytes text ≡ bindings_text bindings.now) }
{
    let mut out = String::from_str(alloc, "looper bindings 1\n")?;
    'bindings: for place in 0..bindings.len() {
        write_binding(&mut out, &bindings[place])?;
    }
    out.push_str("end\n")?;
    Ok(out)
}

/// The text of bindings. It is read again for 16 loops.
pub fn bindings_text(alloc: Global, bindings: &Bindings) -> Result<Vec<u8>, Memory>
    ensures { IfOk result (λ text. text.items ≡ bindings_text bindings.now) }
{
    let text = write_bindings(alloc, bindings.as_slice())?;
    Ok(text.into_bytes())
}
