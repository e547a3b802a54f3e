//! Writing a session.

ghost use Rattle.std.specs.Prelude.{◌≡◌, ◌++◌, ◌∷◌, [], pos, length, OnOk, IfOk};
ghost use Rattle.std.specs.String.{string_bytes};
ghost use Rattle.text_lines.specs.Lines.{lines_then};
ghost use Rattle.session_file.specs.declared.line.Setting.{Setting};
ghost use Rattle.session_file.specs.declared.line.Line.{Line};
ghost use Rattle.session_file.specs.SessionLines.{line_text, loop_lines};
ghost use Rattle.session_file.specs.Sessions.{session_text};

use sl_base::Memory;
use sl_commands::{Globals, Settings, StripSettings};
use std::alloc::{AllocError, Global};

/// Writes the lines of rate and loops.
fn write_front(out: &mut String, rate: u32, loops: usize) -> Result<(), AllocError>
    ensures { OnOk result (string_bytes out.new ≡ string_bytes out.old ++ lines_then line_text
        (Line.Value Setting.Rate (pos rate) ∷ Line.Value Setting.Loops (pos loops) ∷ []) []) }
{
    write!(out, "rate {rate}\nloops {loops}\n")
}

/// Writes the first three lines of the looper's own values.
fn write_mix(out: &mut String, globals: &Globals) -> Result<(), AllocError>
    ensures { OnOk result (string_bytes out.new ≡ string_bytes out.old
        ++ lines_then line_text (Line.Value Setting.GlobalDry (pos globals.now.dry)
        ∷ Line.Value Setting.GlobalSyncSource globals.now.sync_source
        ∷ Line.Value Setting.GlobalSelectedLoopNum (pos globals.now.selected_loop_num) ∷ []) []) }
{
    let dry = globals.dry;
    let sync_source = globals.sync_source;
    let selected = globals.selected_loop_num;
    write!(
        out,
        "dry {dry}\nsync_source {sync_source}\nselected_loop_num {selected}\n"
    )
}

/// Writes the other three.
fn write_times(out: &mut String, globals: &Globals) -> Result<(), AllocError>
    ensures { OnOk result (string_bytes out.new ≡ string_bytes out.old
        ++ lines_then line_text (Line.Value Setting.GlobalFadeStep (pos globals.now.fade_step)
        ∷ Line.Value Setting.GlobalLongPress (pos globals.now.long_press)
        ∷ Line.Value Setting.GlobalPulse (pos globals.now.pulse) ∷ []) []) }
{
    let fade_step = globals.fade_step;
    let long_press = globals.long_press;
    let pulse = globals.pulse;
    write!(
        out,
        "fade_step {fade_step}\nlong_press {long_press}\npulse {pulse}\n"
    )
}

/// Writes the line of a loop, with its line feed.
fn write_strip(out: &mut String, index: usize, strip: &StripSettings) -> Result<(), AllocError>
    ensures { OnOk result (string_bytes out.new ≡ string_bytes out.old
        ++ (line_text (Line.Loop index strip.now) ++ (10 ∷ []))) }
{
    let length = strip.length;
    let cycle = strip.cycle;
    let feedback = strip.feedback;
    let wet = strip.wet;
    let round = strip.round;
    let quantize = strip.quantize;
    let thresh = strip.rec_thresh;
    write!(out, "loop {index} {length} {cycle} {feedback} ")?;
    write!(out, "{wet} {round} {quantize} {thresh}\n")
}

/// Writes the lines of all loops, by index.
fn write_strips(out: &mut String, strips: &[StripSettings]) -> Result<(), AllocError>
    ensures { OnOk result (string_bytes out.new ≡ string_bytes out.old
        ++ lines_then line_text (loop_lines 0 strips.now) []) }
{
    'strips: for index in 0..strips.len() {
        write_strip(out, index, &strips[index])?;
    }
    Ok(())
}

/// Writes the whole session of these parts.
fn write_parts(
    alloc: Global,
    rate: u32,
    globals: &Globals,
    strips: &[StripSettings],
) -> Result<String, AllocError>
    ensures { IfOk result
        (λ text. string_bytes text ≡ session_text
        (record { rate = rate; globals = globals.now; strips = strips.now })) }
{
    let mut out = String::from_str(alloc, "looper session 1\n")?;
    write_front(&mut out, rate, strips.len())?;
    write_mix(&mut out, globals)?;
    write_times(&mut out, globals)?;
    write_strips(&mut out, strips)?;
    out.push_str("end\n")?;
    Ok(out)
}

/// The session of settings, in its one spelling.
pub fn session_text(alloc: Global, settings: &Settings) -> Result<Vec<u8>, Memory>
    ensures { IfOk result (λ text. text.items ≡ session_text settings.now) }
{
    let strips = settings.strips.as_slice();
    let text = write_parts(alloc, settings.rate, &settings.globals, strips)?;
    Ok(text.into_bytes())
}
