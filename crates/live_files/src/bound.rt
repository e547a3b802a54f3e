//! Reading the bindings.

ghost use Rattle.std.specs.Prelude.{◌≤◌};
ghost use Rattle.sl_base.specs.Limits.{max_loops};
ghost use Rattle.sl_ports.specs.Effects.{OnlyReads};
ghost use Rattle.session_file.specs.Loading.{is_unread};
ghost use Rattle.live_files.specs.LiveAnswers.{TellsBindings, ReadsBindings, ReadsBound};

use midi_bindings::{Bindings, read_bindings};
use session_file::{LoadFault, read_bytes};
use sl_base::Name;
use sl_commands::ReadText;
use sl_ports::Keeper;
use std::alloc::Global;

/// The bindings that bytes are, for so many loops.
fn bindings_in(alloc: Global, name: &Name, loops: u8, bytes: &[u8]) -> Result<Bindings, LoadFault>
    requires { loops ≤ max_loops }
    ensures { TellsBindings bytes.now name.now loops result }
{
    match read_bindings(alloc, bytes, loops) {
        Ok(bindings) => Ok(bindings),
        Err(ReadText::Fault(fault)) => Err(LoadFault::File(
            name.duplicate(),
            fault.kind.number(),
            fault.line,
        )),
        Err(ReadText::Memory) => Err(LoadFault::Memory),
    }
}

/// Reads a file of bindings, for so many loops.
#[tactic(auto, using(crate::proofs::BoundLemmas::bindings_reads, crate::proofs::BoundLemmas::bindings_value, crate::proofs::BoundLemmas::no_bindings))]
fn read_file<P: Keeper>(
    alloc: Global,
    keeper: &mut P,
    name: &Name,
    loops: u8,
) -> Result<Bindings, LoadFault>
    requires { loops ≤ max_loops }
    ensures reads { OnlyReads P.Keeper keeper.old keeper.new (is_unread result) }
    ensures value { ReadsBindings (P.files keeper.old) name.now loops result }
{
    let bytes = read_bytes(alloc, keeper, name)?;
    bindings_in(alloc, name, loops, &bytes)
}

/// Reads the bindings for so many loops. Where no file is named there are none.
pub fn read_bound<P: Keeper>(
    alloc: Global,
    keeper: &mut P,
    bind: &Option<Name>,
    loops: u8,
) -> Result<Bindings, LoadFault>
    requires { loops ≤ max_loops }
    ensures reads { OnlyReads P.Keeper keeper.old keeper.new (is_unread result) }
    ensures value { ReadsBound (P.files keeper.old) bind.now loops result }
{
    match bind {
        Some(name) => read_file(alloc, keeper, name, loops),
        None => Ok(Bindings::new(alloc)),
    }
}
