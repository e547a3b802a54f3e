//! A journal, played over an input.

ghost use Rattle.std.specs.Prelude.{◌≡◌, ◌≤◌, ◌<◌, ◌^◌, ◌+◌, [], ℕ, None, length, min, option_to_list, OnOk};
ghost use Rattle.looper_rules.specs.Entries.{save};
ghost use Rattle.frame_stamp.specs.Journals.{HasRoom};
ghost use Rattle.loop_saver.specs.SavedFiles.{files_for_all};
ghost use Rattle.engine_steps.specs.Engines.{Beginning, entry_of, left};
ghost use Rattle.save_feeding.specs.Feeding.{IsSomehowInStep, WritesAll};
ghost use Rattle.journal_run.specs.Runs.{Takes};
ghost use Rattle.journal_run.specs.Performing.{IsPlayable, HasTaken, IsComing, ComesOrStops};

use crate::playing::play_to;
use crate::run::Run;
use crate::texts::write_answer;
use save_feeding::{Stopped, feed};
use sl_commands::{Entry, Reply};
use sl_ports::Keeper;
use std::alloc::Global;
use wav_pcm::Input;

/// How many replies there are, one or none.
fn count_of(answer: &Option<Reply>) -> usize
    ensures value { result ≡ length (option_to_list answer.now) }
    ensures within { result ≤ 1 }
{
    match answer {
        Some(_) => 1,
        None => 0,
    }
}

/// Takes an entry: tells its reply, and gives the blocks of its save to the saver.
fn take_entry<P: Keeper>(
    alloc: Global,
    keeper: &mut P,
    run: &mut Run,
    entry: &Entry,
) -> Result<(), Stopped>
    requires room { HasRoom entry.now.sender run.old.engine.journal }
    requires none { left run.old.engine ≡ [] }
    requires step { IsSomehowInStep run.old.engine }
    requires idle { run.old.saver.saving ≡ None }
    requires few { run.old.replies < 2 ^ 63 }
    ensures reads { P.read_faults keeper.new ≡ P.read_faults keeper.old }
    ensures took { OnOk result
        (Takes (entry_of entry.now.sender entry.now.command run.old.engine) run.old run.new) }
    ensures files { WritesAll P.Keeper (files_for_all run.old.saver.rate
        (option_to_list (save (entry_of entry.now.sender entry.now.command run.old.engine)
        run.old.engine.looper)))
        keeper.old keeper.new result }
{
    run.engine.facts();
    let answer = run.engine.take(entry.sender, entry.command.duplicate());
    run.replies += count_of(&answer);
    write_answer(&mut run.text, answer)?;
    feed(alloc, keeper, &mut run.engine, &mut run.saver)
}

/// How many frames lie before an entry's frame.
fn frames_before(frame: u64, count: usize) -> usize
    ensures { result ≡ min frame count }
{
    if frame < count as u64 {
        frame as usize
    } else {
        count
    }
}

/// Plays up to the entry of this index, and takes it.
fn turn<P: Keeper>(
    alloc: Global,
    keeper: &mut P,
    run: &mut Run,
    input: &Input,
    entries: &[Entry],
    index: usize,
) -> Result<(), Stopped>
    requires inside { index < length entries.now }
    requires coming { IsComing P.Keeper entries.now input.now index keeper.old run.old }
    ensures reads { P.read_faults keeper.new ≡ P.read_faults keeper.old }
    ensures come { (b : Beginning) → (start : P) → IsPlayable b entries.now input.now →
        HasTaken P.Keeper b entries.now input.now start index keeper.old run.old →
        ComesOrStops P.Keeper b entries.now input.now start (index + 1) keeper.new run.new result }
{
    let entry = &entries[index];
    play_to(run, input, frames_before(entry.frame, input.len()))?;
    take_entry(alloc, keeper, run, entry)
}

/// Plays up to each entry and takes it, one after another.
pub fn turns<P: Keeper>(
    alloc: Global,
    keeper: &mut P,
    run: &mut Run,
    input: &Input,
    entries: &[Entry],
) -> Result<(), Stopped>
    requires coming { IsComing P.Keeper entries.now input.now 0 keeper.old run.old }
    ensures reads { P.read_faults keeper.new ≡ P.read_faults keeper.old }
    ensures come { (b : Beginning) → (start : P) → IsPlayable b entries.now input.now →
        HasTaken P.Keeper b entries.now input.now start 0 keeper.old run.old →
        ComesOrStops P.Keeper b entries.now input.now start (length entries.now) keeper.new run.new
        result }
{
    for index in 0..entries.len() {
        turn(alloc, keeper, run, input, entries, index)?;
    }
    Ok(())
}
