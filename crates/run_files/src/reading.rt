//! Reading each file of a run.

ghost use Rattle.std.specs.Prelude.{◌≡◌, ◌≤◌, List, Option, length, IfSome, IfOk, IsTrue};
ghost use Rattle.sl_base.specs.Limits.{max_session_name};
ghost use Rattle.sl_commands.specs.Settings.{is_loop_count, is_rate};
ghost use Rattle.sl_ports.specs.Effects.{OnlyReads};
ghost use Rattle.session_file.specs.Loading.{is_unread};
ghost use Rattle.run_files.specs.Readings.{TellsInput, TellsJournal, ReadsInput, ReadsBeginning, ReadsJournal};

use journal_text::read_journal as journal_of;
use session_file::{LoadFault, load, read_bytes};
use sl_base::Name;
use sl_commands::{Entries, Initial, ReadText, Settings};
use sl_ports::Keeper;
use std::alloc::Global;
use wav_pcm::Input;

/// The input that bytes are.
fn input_in(name: &Name, bytes: Vec<u8>) -> Result<Input, LoadFault>
    ensures { TellsInput bytes.items name.now result }
{
    match Input::of(bytes) {
        Ok(input) => Ok(input),
        Err(fault) => Err(LoadFault::File(name.duplicate(), fault.number(), 0)),
    }
}

/// Reads IN.
#[tactic(auto, using(crate::proofs::ReadLemmas::input_reads, crate::proofs::ReadLemmas::input_value, crate::proofs::ReadLemmas::no_input))]
pub fn read_input<P: Keeper>(alloc: Global, keeper: &mut P, name: &Name) -> Result<Input, LoadFault>
    ensures reads { OnlyReads P.Keeper keeper.old keeper.new (is_unread result) }
    ensures value { ReadsInput (P.files keeper.old) name.now result }
{
    let bytes = read_bytes(alloc, keeper, name)?;
    input_in(name, bytes)
}

/// Reads what the loops begin with: the session, or so many empty loops at a rate.
pub fn read_beginning<P: Keeper>(
    alloc: Global,
    keeper: &mut P,
    session: &Option<Name>,
    rate: u32,
    loops: u8,
) -> Result<(Settings, Initial), LoadFault>
    requires session { IfSome session.now (λ name. length name ≤ max_session_name) }
    requires rate { IsTrue (is_rate rate) }
    requires loops { IsTrue (is_loop_count loops) }
    ensures reads { OnlyReads P.Keeper keeper.old keeper.new (is_unread result) }
    ensures value { ReadsBeginning (P.files keeper.old) session.now rate loops result }
{
    match session {
        Some(name) => load(alloc, keeper, name),
        None => Ok((Settings::with_defaults(rate, loops), Initial::new(alloc))),
    }
}

/// The entries of the journal that bytes are, for so many loops.
fn journal_in(alloc: Global, name: &Name, loops: u8, bytes: &[u8]) -> Result<Entries, LoadFault>
    requires { loops ≤ 16 }
    ensures { TellsJournal bytes.now name.now loops result }
{
    match journal_of(alloc, bytes, loops) {
        Ok(entries) => Ok(entries),
        Err(ReadText::Fault(fault)) => Err(LoadFault::File(
            name.duplicate(),
            fault.kind.number(),
            fault.line,
        )),
        Err(ReadText::Memory) => Err(LoadFault::Memory),
    }
}

/// Reads JOURNAL, for so many loops.
#[tactic(auto, using(crate::proofs::ReadLemmas::journal_reads, crate::proofs::ReadLemmas::journal_value, crate::proofs::ReadLemmas::no_journal))]
pub fn read_journal<P: Keeper>(
    alloc: Global,
    keeper: &mut P,
    name: &Name,
    loops: u8,
) -> Result<Entries, LoadFault>
    requires { loops ≤ 16 }
    ensures reads { OnlyReads P.Keeper keeper.old keeper.new (is_unread result) }
    ensures value { ReadsJournal (P.files keeper.old) name.now loops result }
{
    let bytes = read_bytes(alloc, keeper, name)?;
    journal_in(alloc, name, loops, &bytes)
}
