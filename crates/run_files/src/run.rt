//! All files of a run.

ghost use Rattle.std.specs.Prelude.{◌≡◌, length, IfOk};
ghost use Rattle.sl_ports.specs.Effects.{OnlyReads};
ghost use Rattle.session_file.specs.Loading.{is_unread as is_unloaded};
ghost use Rattle.journal_text.specs.Journals.{AreOfJournal};
ghost use Rattle.looper_rules.specs.Reached.{AreLists, IsBeginning};
ghost use Rattle.run_files.specs.Readings.{IsFaultOf, Judges, ReadsAll, ReadsRun, is_unread};

use crate::limits::has_chunks;
use crate::reading::{read_beginning, read_input, read_journal};
use crate::sources::Sources;
use session_file::LoadFault;
use sl_base::{MAX_FILE_FRAMES, Name};
use sl_commands::{Entries, Initial, Settings};
use sl_ports::Keeper;
use std::alloc::Global;
use wav_pcm::Input;

/// What a run goes over.
#[derive(Drop)]
pub struct RunFiles {
    /// IN, whose frames are read a span after another.
    pub input: Input,
    /// What the looper and its loops are set to.
    pub settings: Settings,
    /// The lists that the loops begin with, by index. None is given where no session is named.
    pub initial: Initial,
    /// The journal's entries, in order.
    pub entries: Entries,
}

/// Why a run isn't read.
#[derive(Drop)]
pub enum FilesFault {
    /// The first bad file: its name, the number of what is wrong (0 missing, a text's kind, a WAV
    /// file's fault, 8 another WAV file than the session says) and the line in the text, 0 for a
    /// WAV file.
    File(Name, u8, u32),
    /// A reading failed.
    Read,
    Memory,
    /// All files were good, and IN has more than 134217728 frames, or the session's lists need more
    /// chunks than there are.
    Limit,
}

/// A fault of reading, as the fault of the run.
pub fn fault_of(fault: LoadFault) -> FilesFault
    ensures { IsFaultOf fault result }
{
    match fault {
        LoadFault::File(name, kind, line) => FilesFault::File(name, kind, line),
        LoadFault::Read => FilesFault::Read,
        LoadFault::Memory => FilesFault::Memory,
    }
}

/// Reads all files, in order.
#[tactic(auto, using(crate::proofs::ReadLemmas::input_is_bad, crate::proofs::ReadLemmas::beginning_is_bad, crate::proofs::ReadLemmas::journal_is_bad, crate::proofs::ReadLemmas::run_is_held, crate::proofs::ReadLemmas::begins_with_lists, crate::proofs::ReadLemmas::input_rate, crate::proofs::ReadLemmas::reads_twice, crate::proofs::ReadLemmas::reads_thrice))]
fn read_all<P: Keeper>(
    alloc: Global,
    keeper: &mut P,
    sources: &Sources,
) -> Result<RunFiles, LoadFault>
    ensures reads { OnlyReads P.Keeper keeper.old keeper.new (is_unloaded result) }
    ensures value { ReadsAll (P.files keeper.old) sources.now result }
    ensures lists { IfOk result (λ f. AreLists f.settings.strips f.initial) }
{
    let input = read_input(alloc, keeper, &sources.input)?;
    let (settings, initial) = read_beginning(
        alloc,
        keeper,
        &sources.session,
        input.rate(),
        sources.loops,
    )?;
    let entries = read_journal(alloc, keeper, &sources.journal, settings.loop_count())?;
    Ok(RunFiles {
        input,
        settings,
        initial,
        entries,
    })
}

/// What was read, where it is within the limits.
fn judge(files: RunFiles, chunks: u32) -> Result<RunFiles, FilesFault>
    requires { AreLists files.settings.strips files.initial }
    ensures value { Judges files chunks result }
    ensures begins { IfOk result (λ f. IsBeginning f.settings chunks f.initial) }
{
    if files.input.len() > MAX_FILE_FRAMES {
        return Err(FilesFault::Limit);
    }
    if !has_chunks(&files.settings, &files.initial, chunks) {
        return Err(FilesFault::Limit);
    }
    Ok(files)
}

/// Reads all that a run goes over: IN, the session and its WAV files by index where one is named,
/// and JOURNAL. The fault is the first by this order, and the limits come behind all files.
#[tactic(auto, using(crate::proofs::RunLemmas::judged_reads, crate::proofs::RunLemmas::judged_value, crate::proofs::RunLemmas::judged_entries, crate::proofs::RunLemmas::fault_reads, crate::proofs::RunLemmas::fault_value))]
pub fn read_run<P: Keeper>(
    alloc: Global,
    keeper: &mut P,
    sources: &Sources,
) -> Result<RunFiles, FilesFault>
    ensures reads { OnlyReads P.Keeper keeper.old keeper.new (is_unread result) }
    ensures value { ReadsRun (P.files keeper.old) sources.now result }
    ensures begins { IfOk result (λ f. IsBeginning f.settings sources.now.chunks f.initial) }
    ensures entries { IfOk result (λ f. AreOfJournal (length f.settings.strips) f.entries) }
{
    match read_all(alloc, keeper, sources) {
        Ok(files) => judge(files, sources.chunks),
        Err(fault) => Err(fault_of(fault)),
    }
}
