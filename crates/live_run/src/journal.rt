//! The journal of a session, written as a file.

ghost use Rattle.std.specs.Prelude.{◌≡◌};
ghost use Rattle.live_run.specs.Writing.{WritesJournal, WritesText};

use journal_text::journal_text;
use live_core::LiveStatus;
use sl_base::Name;
use sl_commands::Entry;
use sl_ports::{KeepAnswer, Keeper};
use std::alloc::Global;

/// Writes the text of the journal under this name.
fn write_text<P: Keeper>(
    alloc: Global,
    keeper: &mut P,
    name: &Name,
    entries: &[Entry],
) -> LiveStatus
    ensures { WritesText P.Keeper name.now entries.now keeper.old keeper.new result }
{
    let Ok(text) = journal_text(alloc, entries) else {
        return LiveStatus::Memory;
    };
    match keeper.write_file(alloc, name, &text) {
        KeepAnswer::Done => LiveStatus::Done,
        KeepAnswer::Failed => LiveStatus::WriteFault,
        KeepAnswer::Memory => LiveStatus::Memory,
    }
}

/// Writes the journal where it is asked for. The answer is `Done`, `WriteFault` or `Memory`.
pub fn write_journal<P: Keeper>(
    alloc: Global,
    keeper: &mut P,
    name: &Option<Name>,
    entries: &[Entry],
) -> LiveStatus
    ensures { WritesJournal P.Keeper name.now entries.now keeper.old keeper.new result }
{
    match name {
        Some(name) => write_text(alloc, keeper, name, entries),
        None => LiveStatus::Done,
    }
}
