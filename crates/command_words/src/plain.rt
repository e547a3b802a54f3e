//! The words of the commands that play no device.

ghost use Rattle.std.specs.Prelude.{◌≡◌, ◌∷◌, map, List, ℕ};
ghost use Rattle.std.specs.String.{string_bytes};
ghost use Rattle.command_words.specs.Words.{run_with, run_named, render_in, drill_with, drill_in, show_in, asked_in, max_drill_steps};
ghost use Rattle.command_words.specs.Asking.{IsUpTo};
ghost use Rattle.command_words.specs.Answering.{GivesAsked};

use crate::fault::WordsFault;
use crate::options::{RenderOptions, options_of};
use crate::values::{number_between, session_of};
use sl_base::Name;
use std::marker::Model;

/// The most steps of a drill.
const MAX_DRILL_STEPS: u32 = 1000000;

/// What `render` is asked for.
#[derive(Drop)]
pub struct Render {
    /// The WAV file that is played into the looper.
    pub input: Name,
    /// The commands, each at its frame.
    pub journal: Name,
    /// The WAV file that is written. It may be one of the others.
    pub out: Name,
    /// The most frames that are processed at once, 1 to 8192.
    pub period: u32,
    /// The chunks of 4096 frames that all loops share, 1 to 32768.
    pub chunks: u32,
    /// How many empty loops there are where no session is named, 1 to 16.
    pub loops: u8,
    /// The session that the loops begin with, at most 48 bytes.
    pub session: Option<Name>,
}

impl Model for Render {
    ghost use Rattle.command_words.specs.Words.{RenderAsked};
    ghost use Rattle.command_words.specs.Asking.{IsRenderAsked};

    ghost Value = { RenderAsked };

    ghost view = { λ r. record {
      input = r.input;
      journal = r.journal;
      out = r.out;
      period = r.period;
      chunks = r.chunks;
      loops = r.loops;
      session = r.session;
    } };

    ghost invariant = { λ r. IsRenderAsked (record {
      input = r.input;
      journal = r.journal;
      out = r.out;
      period = r.period;
      chunks = r.chunks;
      loops = r.loops;
      session = r.session;
    }) };
}

/// What `drill` is asked for.
#[derive(Drop)]
pub struct Drill {
    /// What the steps and the input are made from.
    pub number: u32,
    /// How many steps there are, 1 to 1000000.
    pub steps: u32,
}

impl Model for Drill {
    ghost use Rattle.std.specs.Prelude.{◌≤◌};
    ghost use Rattle.command_words.specs.Words.{DrillAsked, max_drill_steps};

    ghost Value = { DrillAsked };

    ghost view = { λ d. record { number = d.number; steps = d.steps } };

    ghost invariant = { λ d. d.steps ≤ max_drill_steps };
}

/// The session that `show` looks at.
#[derive(Drop)]
pub struct Show {
    /// The session's name, at most 48 bytes.
    pub name: Name,
}

impl Model for Show {
    ghost use Rattle.std.specs.Prelude.{ℕ, List, length, ◌≤◌};
    ghost use Rattle.sl_base.specs.Limits.{max_session_name};

    ghost Value = { List ℕ };

    ghost view = { λ s. s.name };

    ghost invariant = { λ s. length s.name ≤ max_session_name };
}

/// What the words of a command without devices ask for, one variant a command.
#[derive(Drop)]
pub enum Plain {
    /// `render IN JOURNAL OUT` with its options.
    Render(Render),
    /// `drill NUMBER STEPS`.
    Drill(Drill),
    /// `show NAME`.
    Show(Show),
}

/// The run of these names with these options.
fn run_of(
    input: Name,
    journal: Name,
    out: Name,
    options: RenderOptions,
) -> Result<Plain, WordsFault>
    ensures { GivesAsked (run_with input journal out options) result }
{
    if options.loops.is_some() && options.session.is_some() {
        return Err(WordsFault::Words);
    }
    Ok(Plain::Render(Render {
        input,
        journal,
        out,
        period: options.period.unwrap_or(1024),
        chunks: options.chunks.unwrap_or(4096),
        loops: options.loops.unwrap_or(1) as u8,
        session: options.session,
    }))
}

/// The run of three words with these options.
fn run_named(
    input: &[u8],
    journal: &[u8],
    out: &[u8],
    options: Option<RenderOptions>,
) -> Result<Plain, WordsFault>
    ensures { GivesAsked (run_named input.now journal.now out.now options) result }
{
    let Some(input) = Name::read(input) else {
        return Err(WordsFault::Words);
    };
    let Some(journal) = Name::read(journal) else {
        return Err(WordsFault::Words);
    };
    let Some(out) = Name::read(out) else {
        return Err(WordsFault::Words);
    };
    match options {
        Some(options) => run_of(input, journal, out, options),
        None => Err(WordsFault::Words),
    }
}

/// The run that the words behind `render` name.
fn render_of(words: &[String]) -> Result<Plain, WordsFault>
    ensures { GivesAsked (render_in (map string_bytes words.now)) result }
{
    if words.len() < 3 {
        return Err(WordsFault::Words);
    }
    run_named(
        words[0].as_bytes(),
        words[1].as_bytes(),
        words[2].as_bytes(),
        options_of(RenderOptions::none(), words.split_at(3).1),
    )
}

/// The drill of two numbers.
fn drill_with(number: Option<u32>, steps: Option<u32>) -> Result<Plain, WordsFault>
    requires { IsUpTo max_drill_steps steps }
    ensures { GivesAsked (drill_with number steps) result }
{
    let Some(number) = number else {
        return Err(WordsFault::Words);
    };
    let Some(steps) = steps else {
        return Err(WordsFault::Words);
    };
    Ok(Plain::Drill(Drill { number, steps }))
}

/// The drill that the words behind `drill` ask for.
fn drill_of(words: &[String]) -> Result<Plain, WordsFault>
    ensures { GivesAsked (drill_in (map string_bytes words.now)) result }
{
    match words {
        [number, steps] => drill_with(
            number_between(0, u32::MAX, number.as_bytes()),
            number_between(1, MAX_DRILL_STEPS, steps.as_bytes()),
        ),
        _ => Err(WordsFault::Words),
    }
}

/// The session that the words behind `show` name.
fn show_of(words: &[String]) -> Result<Plain, WordsFault>
    ensures { GivesAsked (show_in (map string_bytes words.now)) result }
{
    if words.len() != 1 {
        return Err(WordsFault::Words);
    }
    match session_of(words[0].as_bytes()) {
        Some(name) => Ok(Plain::Show(Show { name })),
        None => Err(WordsFault::Words),
    }
}

/// What the words ask for: `render IN JOURNAL OUT` with options behind it in any order, each at
/// most once, `drill NUMBER STEPS`, or `show NAME`, byte for byte.
pub fn plain_words(words: &[String]) -> Result<Plain, WordsFault>
    ensures { GivesAsked (asked_in (map string_bytes words.now)) result }
{
    let Some((first, rest)) = words.split_first() else {
        return Err(WordsFault::Words);
    };
    if first.as_bytes() == b"render".as_slice() {
        return render_of(rest);
    }
    if first.as_bytes() == b"drill".as_slice() {
        return drill_of(rest);
    }
    if first.as_bytes() == b"show".as_slice() {
        return show_of(rest);
    }
    Err(WordsFault::Words)
}
