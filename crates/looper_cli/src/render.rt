//! `render`: from the files to the files.

ghost use Rattle.std.specs.Prelude.{◌≡◌, ◌++◌, OnOk, IfErr};
ghost use Rattle.std.specs.String.{string_bytes};
ghost use Rattle.run_files.specs.Named.{IsNamed};
ghost use Rattle.looper_cli.specs.Named.{named_of};
ghost use Rattle.console_lines.specs.Statuses.{status_line};
ghost use Rattle.looper_cli.specs.Endings.{CountsBy, Leaves, PassesPlay};
ghost use Rattle.console_lines.specs.declared.status.RunFault.TheVariants.{Memory as Lacking};
ghost use Rattle.console_lines.specs.declared.status.Status.TheVariants.{Done};

use crate::sources::sources_of;
use command_words::Render;
use console_lines::{RunFault, Status, fault_of};
use journal_run::{Performed, play};
use run_files::read_run;
use save_feeding::Stopped;
use sl_ports::{KeepAnswer, Keeper};
use std::alloc::Global;

/// Why a run gives nothing, as its fault.
fn play_fault_of(fault: Stopped) -> RunFault
    ensures { PassesPlay fault result }
{
    match fault {
        Stopped::Writing => RunFault::Writing,
        Stopped::Memory => RunFault::Memory,
    }
}

/// The text that tells of a run that is done.
fn told(performed: &mut Performed) -> Result<(), RunFault>
    ensures text { OnOk result
        (string_bytes performed.new.text ≡ string_bytes performed.old.text ++ status_line Done) }
    ensures out { performed.new.out ≡ performed.old.out }
    ensures memory { IfErr result (λ fault. fault ≡ Lacking) }
{
    match performed.text.push_str(Status::Done.line()) {
        Ok(()) => Ok(()),
        Err(_) => Err(RunFault::Memory),
    }
}

/// Plays IN into the loops by JOURNAL, writes the files of all saves and at last OUT, and gives the
/// text that tells of it.
pub fn render<P: Keeper>(alloc: Global, keeper: &mut P, asked: &Render) -> Result<String, RunFault>
    ensures named { IsNamed (named_of asked.now) }
    ensures leaves { Leaves P.Keeper asked.now keeper.old keeper.new result }
    ensures counts { CountsBy P.Keeper keeper.old keeper.new result }
{
    let files = match read_run(alloc, keeper, &sources_of(asked)) {
        Ok(files) => files,
        Err(fault) => return Err(fault_of(fault)),
    };
    let played = play(
        alloc,
        keeper,
        files.settings,
        files.initial,
        asked.chunks,
        &files.input,
        files.entries.as_slice(),
        asked.period,
    );
    let mut performed = match played {
        Ok(performed) => performed,
        Err(fault) => return Err(play_fault_of(fault)),
    };
    told(&mut performed)?;
    match keeper.write_file(alloc, &asked.out, &performed.out) {
        KeepAnswer::Done => Ok(performed.text),
        KeepAnswer::Failed => Err(RunFault::Writing),
        KeepAnswer::Memory => Err(RunFault::Memory),
    }
}
