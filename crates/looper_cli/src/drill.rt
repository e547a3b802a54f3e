//! `drill`: the numbers behind a large list of steps.

ghost use Rattle.std.specs.Prelude.{◌≡◌, ◌++◌, IfOk, OnOk};
ghost use Rattle.std.specs.String.{string_bytes};
ghost use Rattle.console_lines.specs.Telling.{done_text};
ghost use Rattle.looper_cli.specs.Console.{drill_words, first_numbers, last_numbers, drill_line};
ghost use Rattle.looper_cli.specs.Endings.{Drills};

use command_words::Drill;
use console_lines::{RunFault, Status};
use ring_world::{Summary, drill as run_drill};
use std::alloc::{AllocError, Global};

/// Writes the words that asked for a drill.
fn write_words(text: &mut String, asked: &Drill) -> Result<(), AllocError>
    ensures { OnOk result (string_bytes text.new ≡ string_bytes text.old ++ drill_words asked.now) }
{
    let number = asked.number;
    let steps = asked.steps;
    write!(text, "drill {number} {steps} ")
}

/// Writes the first of its numbers.
fn write_first(text: &mut String, summary: &Summary) -> Result<(), AllocError>
    ensures { OnOk result
        (string_bytes text.new ≡ string_bytes text.old ++ first_numbers summary.now) }
{
    let accepted = summary.accepted;
    let full = summary.full;
    let stamped = summary.stamped;
    let frames = summary.frames;
    write!(
        text,
        "accepted {accepted} full {full} stamped {stamped} frames {frames} "
    )
}

/// Writes the others.
fn write_last(text: &mut String, summary: &Summary) -> Result<(), AllocError>
    ensures { OnOk result
        (string_bytes text.new ≡ string_bytes text.old ++ last_numbers summary.now) }
{
    let replies = summary.replies;
    let saves = summary.saves;
    let refused = summary.refused;
    let left = summary.left;
    write!(
        text,
        "replies {replies} saves {saves} refused {refused} left {left}\n"
    )
}

/// Writes the line of a drill's numbers.
#[tactic(auto, using(crate::proofs::ConsoleLemmas::three_parts))]
fn write_line(text: &mut String, asked: &Drill, summary: &Summary) -> Result<(), AllocError>
    ensures { OnOk result
        (string_bytes text.new ≡ string_bytes text.old ++ drill_line asked.now summary.now) }
{
    write_words(text, asked)?;
    write_first(text, summary)?;
    write_last(text, summary)
}

/// Writes the line of a drill, and that of the status.
fn write_text(alloc: Global, asked: &Drill, summary: &Summary) -> Result<String, AllocError>
    ensures { IfOk result
        (λ text. string_bytes text ≡ done_text (drill_line asked.now summary.now)) }
{
    let mut text = String::new(alloc);
    write_line(&mut text, asked, summary)?;
    text.push_str(Status::Done.line())?;
    Ok(text)
}

/// Runs a drill, and gives the text that tells of it.
pub fn drill(alloc: Global, asked: &Drill) -> Result<String, RunFault>
    ensures { Drills asked.now result }
{
    let Ok(summary) = run_drill(alloc, asked.number, asked.steps) else {
        return Err(RunFault::Memory);
    };
    match write_text(alloc, asked, &summary) {
        Ok(text) => Ok(text),
        Err(_) => Err(RunFault::Memory),
    }
}
