//! The period that a turn reads, plays and writes.

ghost use Rattle.std.specs.Prelude.{◌≡◌, ◌≤◌, ◌-◌, min};
ghost use Rattle.sl_base.specs.Limits.{max_session_frames};
ghost use Rattle.audio_ends.specs.Did.{IsReady};
ghost use Rattle.live_audio.specs.Plays.{Plays};

use audio_ends::{AudioEnds, Halt, fill_bytes, kept_of};
use live_ports::Source;
use looper_engine::Engine;
use sl_base::MAX_SESSION_FRAMES;
use sl_ports::{Sink, SinkAnswer};
use wav_pcm::{frame_size, read_frames, write_samples};

/// What came of a period.
#[derive(Clone, Copy)]
pub(crate) struct Played {
    pub frames: usize,
    pub halt: Halt,
    pub answer: SinkAnswer,
}

/// How many frames may be played: at most one period, and those that are left of a session.
fn frames_due(engine: &Engine, most: usize) -> usize
    ensures { result ≡ min (max_session_frames - engine.now.frames) most }
{
    let left = MAX_SESSION_FRAMES - engine.frames_done();
    left.min(most as u64) as usize
}

/// Reads so many frames or fewer, plays and writes them.
fn play_at_most<A: Source, O: Sink>(
    engine: &mut Engine,
    ends: &mut AudioEnds,
    source: &mut A,
    sink: &mut O,
    due: usize,
) -> Played
    requires ready { IsReady ends.old }
    requires some { 1 ≤ due }
    requires due { due ≡ min (max_session_frames - engine.old.frames) ends.old.most }
    ensures plays { Plays ends.old.channels ends.old.most engine.old engine.new (A.seen source.old)
        (A.seen source.new) (record { faults = O.faults sink.old; held = O.held sink.old })
        (record { faults = O.faults sink.new; held = O.held sink.new }) ends.old.rest.items
        ends.new.rest.items result }
    ensures rings { ends.new.rings ≡ ends.old.rings }
    ensures channels { ends.new.channels ≡ ends.old.channels }
    ensures most { ends.new.most ≡ ends.old.most }
{
    let channels = ends.channels;
    let size = frame_size(channels, 16);
    let bytes = &mut ends.bytes[..];
    let frames = &mut ends.frames[..];
    let heard = &mut ends.heard[..];
    let came = fill_bytes(source, ends.rest.as_slice(), &mut bytes[..due * size]);
    let count = came.count / size;
    read_frames(&bytes[..count * size], &mut frames[..count], channels, 16);
    ends.rest = kept_of(&bytes[count * size..came.count]);
    engine.frames(&frames[..count], &mut heard[..count]);
    write_samples(&mut bytes[..count * size], &heard[..count], channels, 16);
    let answer = sink.write_all(&bytes[..count * size]);
    Played {
        frames: count,
        halt: came.halt,
        answer,
    }
}

/// Reads a period, plays it and writes it. Where all frames of a session are done nothing is read.
pub(crate) fn play<A: Source, O: Sink>(
    engine: &mut Engine,
    ends: &mut AudioEnds,
    source: &mut A,
    sink: &mut O,
) -> Played
    requires ready { IsReady ends.old }
    ensures plays { Plays ends.old.channels ends.old.most engine.old engine.new (A.seen source.old)
        (A.seen source.new) (record { faults = O.faults sink.old; held = O.held sink.old })
        (record { faults = O.faults sink.new; held = O.held sink.new }) ends.old.rest.items
        ends.new.rest.items result }
    ensures rings { ends.new.rings ≡ ends.old.rings }
    ensures channels { ends.new.channels ≡ ends.old.channels }
    ensures most { ends.new.most ≡ ends.old.most }
{
    let due = frames_due(engine, ends.most);
    if due == 0 {
        return Played {
            frames: 0,
            halt: Halt::Whole,
            answer: SinkAnswer::Done,
        };
    }
    play_at_most(engine, ends, source, sink, due)
}
