//! The closing lines of a session.

ghost use Rattle.std.specs.Prelude.{◌≡◌, ◌++◌, OnOk, IfOk};
ghost use Rattle.std.specs.String.{string_bytes};
ghost use Rattle.live_run.specs.Closing.{first_numbers, last_numbers, closing_text, TellsClosing};

use crate::status::line_of;
use live_core::LiveStatus;
use sl_ports::{Sink, SinkAnswer};
use std::alloc::{AllocError, Global};

/// The numbers of a session: the frames that were played, the entries of its journal, the commands
/// that OSC and MIDI had accepted, the answers that weren't sent, the saves, and how often a loop
/// refused something.
#[derive(Clone, Copy)]
pub struct Numbers {
    pub frames: u64,
    pub entries: usize,
    pub osc: u32,
    pub midi: u32,
    pub unsent: u64,
    pub saves: u32,
    pub refused: u64,
}

/// Writes the first of the numbers.
fn write_first(text: &mut String, n: Numbers) -> Result<(), AllocError>
    ensures { OnOk result (string_bytes text.new ≡ string_bytes text.old ++ first_numbers n) }
{
    let frames = n.frames;
    let entries = n.entries;
    let osc = n.osc;
    let midi = n.midi;
    write!(
        text,
        "frames {frames} entries {entries} osc {osc} midi {midi} "
    )
}

/// Writes the others.
fn write_last(text: &mut String, n: Numbers) -> Result<(), AllocError>
    ensures { OnOk result (string_bytes text.new ≡ string_bytes text.old ++ last_numbers n) }
{
    let unsent = n.unsent;
    let saves = n.saves;
    let refused = n.refused;
    write!(text, "unsent {unsent} saves {saves} refused {refused}\n")
}

/// The line of a session's numbers, and that of its status.
fn closing_text(alloc: Global, n: Numbers, status: LiveStatus) -> Result<String, AllocError>
    ensures { IfOk result (λ text. string_bytes text ≡ closing_text n status) }
{
    let mut text = String::new(alloc);
    write_first(&mut text, n)?;
    write_last(&mut text, n)?;
    text.push_str(line_of(status))?;
    Ok(text)
}

/// Tells the console the closing lines. The answer is `Done`, `WriteFault` or `Memory`.
pub fn tell_closing<C: Sink>(
    alloc: Global,
    console: &mut C,
    n: Numbers,
    status: LiveStatus,
) -> LiveStatus
    ensures { TellsClosing C.Sink (closing_text n status) console.old console.new result }
{
    let Ok(text) = closing_text(alloc, n, status) else {
        return LiveStatus::Memory;
    };
    match console.write_all(text.as_bytes()) {
        SinkAnswer::Done => LiveStatus::Done,
        SinkAnswer::Failed => LiveStatus::WriteFault,
    }
}
