//! All files of a live session.

ghost use Rattle.std.specs.Prelude.{length, IfOk};
ghost use Rattle.sl_ports.specs.Effects.{OnlyReads};
ghost use Rattle.session_file.specs.Loading.{is_unread as is_unloaded};
ghost use Rattle.midi_bindings.specs.Texts.{AreBindings};
ghost use Rattle.looper_rules.specs.Reached.{AreLists, IsBeginning};
ghost use Rattle.run_files.specs.Readings.{is_unread};
ghost use Rattle.live_files.specs.LiveAnswers.{ReadsAllLive, JudgesLive, ReadsLive};

use crate::bound::read_bound;
use crate::sources::LiveSources;
use midi_bindings::Bindings;
use run_files::{FilesFault, fault_of, has_chunks, read_beginning};
use session_file::LoadFault;
use sl_commands::{Initial, Settings};
use sl_ports::Keeper;
use std::alloc::Global;

/// What a live session begins with.
#[derive(Drop)]
pub struct LiveFiles {
    /// What the looper and its loops are set to.
    pub settings: Settings,
    /// The lists that the loops begin with, by index. None is given where no session is named.
    pub initial: Initial,
    /// What a MIDI event gives.
    pub bindings: Bindings,
}

/// Reads all files, in order.
#[tactic(auto, using(crate::proofs::LiveLemmas::session_is_bad, crate::proofs::LiveLemmas::bindings_are_bad, crate::proofs::LiveLemmas::live_is_held, run_files::proofs::ReadLemmas::begins_with_lists, run_files::proofs::ReadLemmas::reads_twice))]
fn read_all<P: Keeper>(
    alloc: Global,
    keeper: &mut P,
    sources: &LiveSources,
) -> Result<LiveFiles, LoadFault>
    ensures reads { OnlyReads P.Keeper keeper.old keeper.new (is_unloaded result) }
    ensures value { ReadsAllLive (P.files keeper.old) sources.now result }
    ensures lists { IfOk result (λ f. AreLists f.settings.strips f.initial) }
{
    let (settings, initial) = read_beginning(
        alloc,
        keeper,
        &sources.session,
        sources.rate,
        sources.loops,
    )?;
    let bindings = read_bound(alloc, keeper, &sources.bind, settings.loop_count())?;
    Ok(LiveFiles {
        settings,
        initial,
        bindings,
    })
}

/// What was read, where there are chunks enough.
fn judge(files: LiveFiles, chunks: u32) -> Result<LiveFiles, FilesFault>
    requires { AreLists files.settings.strips files.initial }
    ensures value { JudgesLive files chunks result }
    ensures begins { IfOk result (λ f. IsBeginning f.settings chunks f.initial) }
{
    if has_chunks(&files.settings, &files.initial, chunks) {
        Ok(files)
    } else {
        Err(FilesFault::Limit)
    }
}

/// Reads all that a live session begins with: the session and its WAV files by index where one is
/// named, and the bindings where they are. The fault is the first by this order, and the limit
/// comes behind all files.
#[tactic(auto, using(crate::proofs::LiveLemmas::judged_reads, crate::proofs::LiveLemmas::judged_value, crate::proofs::LiveLemmas::judged_bindings, crate::proofs::LiveLemmas::fault_reads, crate::proofs::LiveLemmas::fault_value))]
pub fn read_live<P: Keeper>(
    alloc: Global,
    keeper: &mut P,
    sources: &LiveSources,
) -> Result<LiveFiles, FilesFault>
    ensures reads { OnlyReads P.Keeper keeper.old keeper.new (is_unread result) }
    ensures value { ReadsLive (P.files keeper.old) sources.now result }
    ensures begins { IfOk result (λ f. IsBeginning f.settings sources.now.chunks f.initial) }
    ensures lists { IfOk result (λ f. AreLists f.settings.strips f.initial) }
    ensures bound { IfOk result (λ f. AreBindings (length f.settings.strips) f.bindings) }
{
    match read_all(alloc, keeper, sources) {
        Ok(files) => judge(files, sources.chunks),
        Err(fault) => Err(fault_of(fault)),
    }
}
