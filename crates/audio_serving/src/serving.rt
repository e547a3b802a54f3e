//! Turns, until the audio is at its end.

ghost use Rattle.std.specs.Prelude.{◌≡◌};
ghost use Rattle.audio_ends.specs.Ends.{MayTurn};
ghost use Rattle.audio_ends.specs.Did.{IsReady};
ghost use Rattle.audio_serving.specs.Serving.{Served};

use audio_ends::{AudioEnds, AudioState, Stop, Turn};
use live_audio::audio_turn;
use live_ports::Source;
use looper_engine::Engine;
use sl_ports::Sink;
use std::sync::Wait;
use std::thread;
use std::time::{Clock, Duration};

/// How many microseconds the activity pauses where a turn found nothing to do.
const PAUSE: u64 = 500;

/// A turn found nothing to do: it played no frame and moved no budget of items.
fn is_idle(turn: &Turn) -> bool {
    turn.frames == 0
        && turn.osc != Stop::Budget
        && turn.midi != Stop::Budget
        && turn.saver != Stop::Budget
        && turn.blocks != Stop::Budget
}

/// Serves the audio until it is at its end: turns, with a pause behind each that found nothing to
/// do. No memory is taken.
pub fn serve_audio<R: Wait + Clock, A: Source, O: Sink>(
    rt: &R,
    engine: &mut Engine,
    ends: &mut AudioEnds,
    source: &mut A,
    sink: &mut O,
) -> AudioState
    requires may { MayTurn engine.old ends.old.rings }
    requires ready { IsReady ends.old }
    ensures { Served
        (record {
          engine = engine.old;
          ends = ends.old;
          source = A.seen source.old;
          sink = record { faults = O.faults sink.old; held = O.held sink.old };
        })
        (record {
          engine = engine.new;
          ends = ends.new;
          source = A.seen source.new;
          sink = record { faults = O.faults sink.new; held = O.held sink.new };
        }) result }
{
    'turns: for _ in rt.forever() {
        let turn = audio_turn(rt, engine, ends, source, sink);
        if turn.state != AudioState::More {
            return turn.state;
        }
        if is_idle(&turn) {
            thread::sleep(rt, Duration::from_micros(PAUSE));
        }
    }
    unreachable!()
}
