//! Each activity over its own part, from what it was given to what it gives back.

ghost use Rattle.live_joining.specs.Running.{MayTell, MayRunAudio, MayRunSaver, RanAudio, RanOsc, RanMidi, RanSaver};

use crate::activities::{ServesAudio, ServesMidi, ServesOsc, ServesSaver};
use crate::parts::{AudioBack, AudioPart, MidiBack, MidiPart, OscBack, OscPart, SaverPart};
use event_rings::Putter;
use live_ports::{Link, Source};
use sl_ports::{Keeper, Sink};
use std::alloc::Global;
use std::sync::Wait;
use std::time::Clock;

/// Tells on a ring that was sent nothing that audio is over.
fn tell_over<R: Wait>(rt: &R, frames: u64, over: &mut Putter<u64>)
    requires { MayTell over.old }
{
    let _ = over.put(rt, frames);
}

/// Runs the activity of audio, and then tells the others that it is over.
pub(crate) fn run_audio<X: ServesAudio<A, O>, A: Source, O: Sink, R: Wait + Clock>(
    acts: &X,
    rt: &R,
    mut part: AudioPart<A, O>,
) -> AudioBack<A, O>
    requires { MayRunAudio A.Source O.Sink part }
    ensures { RanAudio A.Source O.Sink part result }
{
    let state = acts.serve_audio(
        rt,
        &mut part.engine,
        &mut part.ends,
        &mut part.source,
        &mut part.sink,
    );
    let frames = part.engine.frames_done();
    tell_over(rt, frames, &mut part.overs.osc);
    tell_over(rt, frames, &mut part.overs.midi);
    tell_over(rt, frames, &mut part.overs.saver);
    AudioBack { part, state }
}

/// Runs the activity of OSC.
pub(crate) fn run_osc<X: ServesOsc<L>, L: Link, R: Wait + Clock>(
    acts: &X,
    alloc: Global,
    rt: &R,
    mut part: OscPart<L>,
) -> OscBack<L>
    ensures { RanOsc L.Link part result }
{
    let ended = acts.serve_osc(
        alloc,
        rt,
        &mut part.link,
        &mut part.sender,
        &mut part.replies,
        &mut part.over,
    );
    part.sender.facts();
    OscBack { part, ended }
}

/// Runs the activity of MIDI.
pub(crate) fn run_midi<X: ServesMidi<M>, M: Source, R: Wait + Clock>(
    acts: &X,
    rt: &R,
    mut part: MidiPart<M>,
) -> MidiBack<M>
    ensures { RanMidi M.Source part result }
{
    let ended = acts.serve_midi(rt, &mut part.source, &mut part.sender, &mut part.over);
    part.sender.facts();
    MidiBack { part, ended }
}

/// Runs the activity of the saver.
pub(crate) fn run_saver<X: ServesSaver<P>, P: Keeper, R: Wait + Clock>(
    acts: &X,
    alloc: Global,
    rt: &R,
    mut part: SaverPart<P>,
) -> SaverPart<P>
    requires { MayRunSaver part }
    ensures { RanSaver P.Keeper part result }
{
    part.held = acts.serve_saver(
        alloc,
        rt,
        &mut part.keeper,
        &mut part.saver,
        &mut part.blocks,
        &mut part.releases,
        &mut part.over,
    );
    part
}
