//! A run, from its settings, lists and entries.

ghost use Rattle.std.specs.Prelude.{◌≡◌, ◌≤◌, length, map, IfOk};
ghost use Rattle.sl_base.specs.Limits.{max_chunks, max_file_frames, max_period, max_quota};
ghost use Rattle.looper_rules.specs.Reached.{AreLists};
ghost use Rattle.looper_rules.specs.Room.{used};
ghost use Rattle.looper_rules.specs.Run.{start};
ghost use Rattle.journal_text.specs.Journals.{AreOfJournal};
ghost use Rattle.journal_run.specs.Playing.{IsBegun};
ghost use Rattle.journal_run.specs.Performing.{Performs};

use crate::ending::{Performed, perform};
use crate::quota::quota_of;
use looper_engine::{Engine, EngineFault, Setup};
use save_feeding::Stopped;
use sl_base::Memory;
use sl_commands::{Entry, Initial, Settings};
use sl_ports::Keeper;
use std::alloc::Global;
use wav_pcm::Input;

/// The engine that a run begins with. The lists are let go.
fn begin(alloc: Global, setup: &Setup, initial: Initial) -> Result<Engine, Memory>
    requires lists { AreLists setup.now.settings.strips initial }
    requires chunks { setup.now.chunks ≤ max_chunks }
    requires some { 1 ≤ setup.now.quota }
    requires quota { setup.now.quota ≤ max_quota }
    requires room { used (map length initial) ≤ setup.now.chunks }
    ensures { IfOk result (IsBegun setup.now initial) }
{
    match Engine::new(alloc, setup, &initial) {
        Ok(engine) => Ok(engine),
        Err(EngineFault::Limit) => unreachable!(),
        Err(EngineFault::Memory) => Err(Memory),
    }
}

/// Plays the entries of a journal over the input, from these settings and the list of each loop,
/// with so many chunks of 4096 frames (32768 at most), enough for the lists, and at most `period`
/// frames at a time. The quota is the least that the entries need.
#[tactic(auto, using(crate::proofs::JournalLemmas::journal_has_room, crate::proofs::JournalLemmas::journal_is_short))]
pub fn play<P: Keeper>(
    alloc: Global,
    keeper: &mut P,
    settings: Settings,
    initial: Initial,
    chunks: u32,
    input: &Input,
    entries: &[Entry],
    period: u32,
) -> Result<Performed, Stopped>
    requires lists { AreLists settings.strips initial }
    requires chunks { chunks ≤ max_chunks }
    requires room { used (map length initial) ≤ chunks }
    requires journal { AreOfJournal (length settings.strips) entries.now }
    requires short { length input.now.frames ≤ max_file_frames }
    requires period { 1 ≤ period }
    requires within { period ≤ max_period }
    ensures reads { P.read_faults keeper.new ≡ P.read_faults keeper.old }
    ensures value { Performs P.Keeper entries.now input.now
        (start settings chunks initial) keeper.old
        keeper.new result }
{
    let rate = settings.rate;
    let setup = Setup {
        settings,
        chunks,
        quota: quota_of(entries),
    };
    let engine = begin(alloc, &setup, initial)?;
    perform(alloc, keeper, engine, input, entries, period, rate)
}
