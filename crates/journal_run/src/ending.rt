//! A whole run: the header of OUT, the entries, the frames behind them, and the numbers.

ghost use Rattle.std.specs.Prelude.{◌≡◌, ◌≤◌, ◌<◌, ◌^◌, ◌++◌, length, IfOk, IfErr, OnOk, IsTrue};
ghost use Rattle.sl_base.specs.Limits.{max_file_frames, max_period};
ghost use Rattle.sl_commands.specs.Entries.{are_stamped};
ghost use Rattle.sl_commands.specs.Settings.{is_rate};
ghost use Rattle.wav_pcm.specs.WavText.{samples_size, padding};
ghost use Rattle.engine_steps.specs.Engines.{Beginning, first_looper};
ghost use Rattle.journal_run.specs.Runs.{IsSpelledAs, Finishes};
ghost use Rattle.journal_run.specs.Performing.{head_of, HasRoomFor, IsFirst, IsPlayable, HasTaken, IsComing, EndsRun, Performs};
ghost use Rattle.save_feeding.specs.declared.stopped.Stopped.TheVariants.{Memory as NoMemory};

use crate::entries::turns;
use crate::playing::play_to;
use crate::run::Run;
use crate::texts::write_numbers;
use loop_saver::Saver;
use looper_engine::Engine;
use periods::Period;
use save_feeding::Stopped;
use sl_commands::Entry;
use sl_ports::Keeper;
use std::alloc::Global;
use wav_pcm::{Input, write_header};

/// What a run gives beside the files of its saves: OUT's bytes, and the text that tells of it.
#[derive(Drop)]
pub struct Performed {
    pub out: Vec<u8>,
    pub text: String,
}

/// The bytes of all frames of an input like this, without the pad.
fn size_of(input: &Input) -> usize
    requires { length input.now.frames ≤ max_file_frames }
    ensures value { result ≡ samples_size (length input.now.frames) input.now.channels
        input.now.bits }
    ensures within { result < 2 ^ 31 }
{
    input.len() * (input.channels() as usize * (input.bits() as usize / 8))
}

/// The 44 bytes before the samples, in a vector with room for all of OUT.
fn begin_out(alloc: Global, input: &Input) -> Result<Vec<u8>, Stopped>
    requires { length input.now.frames ≤ max_file_frames }
    ensures ok { IfOk result (λ out. out.items ≡ head_of input.now) }
    ensures memory { IfErr result (λ why. why ≡ NoMemory) }
{
    let size = size_of(input);
    let mut head = [0; 44];
    write_header(
        &mut head,
        size as u32,
        input.channels(),
        input.bits(),
        input.rate(),
    );
    let mut out = Vec::with_capacity(alloc, 44 + size + size % 2)?;
    out.extend_from_slice(&head)?;
    Ok(out)
}

/// Puts a zero byte behind samples of an odd size.
fn end_out(out: &mut Vec<u8>, size: usize) -> Result<(), Stopped>
    ensures ok { OnOk result (out.new.items ≡ out.old.items ++ padding size) }
    ensures memory { IfErr result (λ why. why ≡ NoMemory) }
{
    if size % 2 != 0 {
        out.push(0)?;
    }
    Ok(())
}

/// Plays the frames behind the last entry of so many, and puts the pad and the numbers at the end.
fn finish(run: &mut Run, input: &Input, entries: usize) -> Result<(), Stopped>
    requires spelled { IsSpelledAs input.now run.old.period }
    requires within { run.old.engine.frames ≤ length input.now.frames }
    requires short { length input.now.frames ≤ max_file_frames }
    ensures ok { OnOk result (Finishes input.now entries run.old run.new) }
    ensures memory { IfErr result (λ why. why ≡ NoMemory) }
{
    play_to(run, input, input.len())?;
    end_out(&mut run.out, size_of(input))?;
    write_numbers(
        &mut run.text,
        input.len(),
        entries,
        run.replies,
        run.engine.saves(),
        run.engine.refused(),
    )?;
    Ok(())
}

/// Plays all entries and all frames, of a run before them.
fn run_all<P: Keeper>(
    alloc: Global,
    keeper: &mut P,
    run: &mut Run,
    input: &Input,
    entries: &[Entry],
) -> Result<(), Stopped>
    requires coming { IsComing P.Keeper entries.now input.now 0 keeper.old run.old }
    ensures reads { P.read_faults keeper.new ≡ P.read_faults keeper.old }
    ensures come { (b : Beginning) → (start : P) → IsPlayable b entries.now input.now →
        HasTaken P.Keeper b entries.now input.now start 0 keeper.old run.old →
        EndsRun P.Keeper entries.now input.now (first_looper b) start keeper.new run.new result }
{
    turns(alloc, keeper, run, input, entries)?;
    finish(run, input, entries.len())
}

/// Plays the entries over the input by an engine before all frames and entries, at most `period`
/// frames at a time. The files of saves are written right behind their entries. The first that
/// isn't written ends the run.
pub fn perform<P: Keeper>(
    alloc: Global,
    keeper: &mut P,
    engine: Engine,
    input: &Input,
    entries: &[Entry],
    period: u32,
    rate: u32,
) -> Result<Performed, Stopped>
    requires first { IsFirst engine }
    requires room { HasRoomFor engine.journal.quota entries.now }
    requires stamped { IsTrue (are_stamped entries.now) }
    requires few { length entries.now < 2 ^ 63 }
    requires short { length input.now.frames ≤ max_file_frames }
    requires period { 1 ≤ period }
    requires within { period ≤ max_period }
    requires rate { rate ≡ engine.looper.rate }
    requires in_range { IsTrue (is_rate rate) }
    ensures reads { P.read_faults keeper.new ≡ P.read_faults keeper.old }
    ensures value { Performs P.Keeper entries.now input.now engine.looper keeper.old keeper.new
        result }
{
    let out = begin_out(alloc, input)?;
    let saver = Saver::new(rate);
    let buffers = Period::new(alloc, input.channels(), input.bits(), period)?;
    let text = String::new(alloc);
    let mut run = Run {
        engine,
        saver,
        period: buffers,
        out,
        text,
        replies: 0,
    };
    run_all(alloc, keeper, &mut run, input, entries)?;
    Ok(run.into_performed())
}
