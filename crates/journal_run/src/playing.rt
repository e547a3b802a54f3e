//! Playing the frames of an input, a span after another.

ghost use Rattle.std.specs.Prelude.{◌≡◌, ◌≤◌, ◌+◌, length, take, OnOk, IfErr};
ghost use Rattle.sl_base.specs.Limits.{max_session_frames};
ghost use Rattle.engine_steps.specs.Engines.{went_on, put_out};
ghost use Rattle.journal_run.specs.Runs.{IsSpelledAs, PlaysTo};
ghost use Rattle.save_feeding.specs.declared.stopped.Stopped.TheVariants.{Memory as NoMemory};

use crate::run::Run;
use looper_engine::Engine;
use periods::Period;
use save_feeding::Stopped;
use sl_base::Frame;
use wav_pcm::Input;

/// Plays the frames, and writes what is heard into the front of `heard`.
fn hear_front(engine: &mut Engine, frames: &[Frame], heard: &mut [Frame])
    requires within { length frames.now ≤ length heard.old }
    requires limit { engine.old.frames + length frames.now ≤ max_session_frames }
    ensures engine { engine.new ≡ went_on frames.now engine.old }
    ensures heard { take (length frames.now) heard.new ≡ put_out frames.now engine.old }
    ensures as_many { length heard.new ≡ length heard.old }
{
    engine.frames(frames, &mut heard[..frames.len()]);
}

/// Plays the first frames of a period, so many.
fn hear(engine: &mut Engine, period: &mut Period, count: usize)
    requires most { count ≤ length period.old.frames }
    requires limit { engine.old.frames + count ≤ max_session_frames }
    ensures engine { engine.new ≡ went_on (take count period.old.frames) engine.old }
    ensures heard { take count period.new.heard
        ≡ put_out (take count period.old.frames) engine.old }
    ensures others { period.new ≡ record period.old { heard = period.new.heard } }
{
    hear_front(engine, &period.frames[..count], &mut period.heard);
}

/// Plays so many frames more.
fn play_span(run: &mut Run, input: &Input, count: usize) -> Result<(), Stopped>
    requires spelled { IsSpelledAs input.now run.old.period }
    requires most { count ≤ length run.old.period.frames }
    requires within { run.old.engine.frames + count ≤ length input.now.frames }
    requires limit { length input.now.frames ≤ max_session_frames }
    ensures memory { IfErr result (λ why. why ≡ NoMemory) }
    ensures ok { OnOk result
        (PlaysTo input.now (run.old.engine.frames + count) run.old run.new) }
{
    let from = run.engine.frames_done() as usize;
    run.period.read(input, from, count);
    hear(&mut run.engine, &mut run.period, count);
    run.period.write(count, &mut run.out)?;
    Ok(())
}

/// Plays the frames up to so many, at most a period at a time.
pub fn play_to(run: &mut Run, input: &Input, until: usize) -> Result<(), Stopped>
    requires spelled { IsSpelledAs input.now run.old.period }
    requires order { run.old.engine.frames ≤ until }
    requires within { until ≤ length input.now.frames }
    requires limit { length input.now.frames ≤ max_session_frames }
    ensures memory { IfErr result (λ why. why ≡ NoMemory) }
    ensures ok { OnOk result (PlaysTo input.now until run.old run.new) }
{
    'spans: while run.done() < until {
        let count = run.next_span(until);
        play_span(run, input, count)?;
    }
    Ok(())
}
