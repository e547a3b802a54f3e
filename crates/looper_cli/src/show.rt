//! `show`: what is in a session.

ghost use Rattle.std.specs.Prelude.{◌≡◌, ◌≤◌, ◌*◌, ◌++◌, [], length, sum_by, IfOk, OnOk};
ghost use Rattle.std.specs.String.{string_bytes};
ghost use Rattle.looper_cli.specs.Console.{loop_line, loop_lines_then, length_in, strips_text};
ghost use Rattle.looper_cli.specs.Endings.{CountsBy, LooksAt, PassesLoad};
ghost use Rattle.sl_base.specs.Limits.{max_loops};

use command_words::Show;
use console_lines::{RunFault, Status};
use session_file::{LoadFault, load};
use sl_base::MAX_LOOPS;
use sl_commands::{Settings, StripSettings};
use sl_ports::Keeper;
use std::alloc::{AllocError, Global};

/// Why a session isn't loaded, as the fault of the run.
fn fault_of(fault: LoadFault) -> RunFault
    ensures { PassesLoad fault result }
{
    match fault {
        LoadFault::File(name, kind, line) => RunFault::BadFile(name, kind, line),
        LoadFault::Read => RunFault::Reading,
        LoadFault::Memory => RunFault::Memory,
    }
}

/// The frames of all lists together.
fn frames_in(strips: &[StripSettings]) -> u64
    requires { length strips.now ≤ max_loops }
    ensures { result ≡ sum_by length_in strips.now }
{
    let mut frames = 0;
    'strips: for index in 0..strips.len() {
        frames += strips[index].length as u64;
    }
    frames
}

/// Writes the line of a loop.
fn write_line(text: &mut String, index: usize, strip: &StripSettings) -> Result<(), AllocError>
    ensures { OnOk result
        (string_bytes text.new ≡ string_bytes text.old ++ loop_line index strip.now) }
{
    let length = strip.length;
    let cycle = strip.cycle;
    write!(text, "loop {index} {length} {cycle}\n")
}

/// Writes the lines of all loops, by index.
fn write_lines(text: &mut String, strips: &[StripSettings]) -> Result<(), AllocError>
    ensures { OnOk result
        (string_bytes text.new ≡ string_bytes text.old ++ loop_lines_then 0 strips.now []) }
{
    'strips: for index in 0..strips.len() {
        write_line(text, index, &strips[index])?;
    }
    Ok(())
}

/// Writes the text of a session with these loops.
fn write_text(alloc: Global, strips: &[StripSettings]) -> Result<String, AllocError>
    requires { length strips.now ≤ max_loops }
    ensures { IfOk result (λ text. string_bytes text ≡ strips_text strips.now) }
{
    let loops = strips.len();
    let frames = frames_in(strips);
    let mut text = format!(in alloc; "session loops {loops} frames {frames}\n")?;
    write_lines(&mut text, strips)?;
    text.push_str(Status::Done.line())?;
    Ok(text)
}

/// Loads a session, and gives the text that tells of it.
pub fn show<P: Keeper>(alloc: Global, keeper: &mut P, session: &Show) -> Result<String, RunFault>
    ensures files { P.files keeper.new ≡ P.files keeper.old }
    ensures told { LooksAt P.Keeper session.now keeper.old keeper.new result }
    ensures counts { CountsBy P.Keeper keeper.old keeper.new result }
{
    let (settings, _lists) = match load(alloc, keeper, &session.name) {
        Ok(loaded) => loaded,
        Err(fault) => return Err(fault_of(fault)),
    };
    match write_text(alloc, settings.strips.as_slice()) {
        Ok(text) => Ok(text),
        Err(_) => Err(RunFault::Memory),
    }
}
