//! A turn of audio.

ghost use Rattle.std.specs.Prelude.{◌≡◌, nat_le};
ghost use Rattle.sl_base.specs.Limits.{max_session_frames};
ghost use Rattle.audio_ends.specs.Ends.{MayTurn};
ghost use Rattle.audio_ends.specs.Did.{IsReady};
ghost use Rattle.audio_ends.specs.Turned.{Turned};

use crate::blocks::put_blocks;
use crate::play::play;
use crate::takes::take_all;
use audio_ends::{AudioEnds, Turn, Waiting, Way, state_of};
use live_ports::Source;
use looper_engine::Engine;
use sl_base::MAX_SESSION_FRAMES;
use sl_ports::Sink;
use std::sync::Wait;

/// All frames of a session are done.
fn all_done(engine: &Engine) -> bool
    ensures { result ≡ nat_le max_session_frames engine.now.frames }
{
    MAX_SESSION_FRAMES <= engine.frames_done()
}

/// A turn whose calls on the rings go this way.
pub fn audio_turn_by<Y: Way, A: Source, O: Sink>(
    way: &Y,
    engine: &mut Engine,
    ends: &mut AudioEnds,
    source: &mut A,
    sink: &mut O,
) -> Turn
    requires may { MayTurn engine.old ends.old.rings }
    requires ready { IsReady ends.old }
    ensures { Turned
        (record {
          engine = engine.old;
          ends = ends.old;
          source = A.seen source.old;
          sink = record { faults = O.faults sink.old; held = O.held sink.old };
        })
        (record {
          engine = engine.new;
          ends = ends.new;
          source = A.seen source.new;
          sink = record { faults = O.faults sink.new; held = O.held sink.new };
        }) result }
{
    let taken = take_all(way, engine, &mut ends.rings);
    let played = play(engine, ends, source, sink);
    let blocks = put_blocks(way, engine, &mut ends.rings);
    let done = all_done(engine);
    let state = state_of(
        played.halt,
        played.answer,
        ends.rest.len(),
        ends.rings.quit,
        done,
    );
    Turn {
        frames: played.frames as u32,
        osc: taken.osc,
        midi: taken.midi,
        saver: taken.saver,
        blocks,
        state,
    }
}

/// One turn: the held reply, commands and outcomes, one period, blocks. No memory is taken.
pub fn audio_turn<W: Wait, A: Source, O: Sink>(
    wait: &W,
    engine: &mut Engine,
    ends: &mut AudioEnds,
    source: &mut A,
    sink: &mut O,
) -> Turn
    requires may { MayTurn engine.old ends.old.rings }
    requires ready { IsReady ends.old }
    ensures { Turned
        (record {
          engine = engine.old;
          ends = ends.old;
          source = A.seen source.old;
          sink = record { faults = O.faults sink.old; held = O.held sink.old };
        })
        (record {
          engine = engine.new;
          ends = ends.new;
          source = A.seen source.new;
          sink = record { faults = O.faults sink.new; held = O.held sink.new };
        }) result }
{
    audio_turn_by(&Waiting { wait }, engine, ends, source, sink)
}
