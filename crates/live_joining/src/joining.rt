//! The four activities, joined. Audio runs on the thread that calls, and the others on threads of
//! their own; where one can't be made, its work is done behind that of audio.

ghost use Rattle.std.specs.Thread.{IsSend, IsSync};
ghost use Rattle.live_joining.specs.Running.{MayRunAudio, MayRunSaver, RanSaver, TwoRan, ThreeRan, AllRan};

use crate::activities::{ServesAudio, ServesMidi, ServesOsc, ServesSaver};
use crate::parts::{AllBack, AudioPart, MidiPart, OscPart, SaverPart, ThreeBack, TwoBack};
use crate::running::{run_audio, run_midi, run_osc, run_saver};
use live_ports::{Link, Source};
use sl_ports::{Keeper, Sink};
use std::alloc::Global;
use std::sync::Wait;
use std::thread::{self, Threads};
use std::time::Clock;

/// Runs audio, and OSC beside it.
fn join_osc<
    X: ServesAudio<A, O> + ServesOsc<L> + Sync,
    A: Source,
    O: Sink,
    L: Link + Send,
    R: Wait + Clock + Threads + Sync,
>(acts: &X, alloc: Global, rt: &R, audio: AudioPart<A, O>, osc: OscPart<L>) -> TwoBack<A, O, L>
    requires { MayRunAudio A.Source O.Sink audio }
    ensures { TwoRan A.Source O.Sink L.Link audio osc result }
{
    let (osc, audio) = thread::join(
        rt,
        || run_osc(acts, alloc, rt, osc),
        || run_audio(acts, rt, audio),
    );
    TwoBack { audio, osc }
}

/// Runs audio and OSC, and MIDI beside them.
fn join_midi<
    X: ServesAudio<A, O> + ServesOsc<L> + ServesMidi<M> + Sync,
    A: Source,
    O: Sink,
    L: Link + Send,
    M: Source + Send,
    R: Wait + Clock + Threads + Sync,
>(
    acts: &X,
    alloc: Global,
    rt: &R,
    audio: AudioPart<A, O>,
    osc: OscPart<L>,
    midi: MidiPart<M>,
) -> ThreeBack<A, O, L, M>
    requires { MayRunAudio A.Source O.Sink audio }
    ensures { ThreeRan A.Source O.Sink L.Link M.Source audio osc midi result }
{
    let (midi, two) = thread::join(
        rt,
        || run_midi(acts, rt, midi),
        || -> TwoBack<A, O, L>
            requires { IsSync X.row × IsSync R.row × IsSend L.row
                × MayRunAudio A.Source O.Sink audio }
            ensures { TwoRan A.Source O.Sink L.Link audio osc result }
        { join_osc(acts, alloc, rt, audio, osc) },
    );
    ThreeBack { two, midi }
}

/// Runs all four.
pub fn join_all<
    X: ServesAudio<A, O> + ServesOsc<L> + ServesMidi<M> + ServesSaver<P> + Sync,
    A: Source,
    O: Sink,
    L: Link + Send,
    M: Source + Send,
    P: Keeper + Send,
    R: Wait + Clock + Threads + Sync,
>(
    acts: &X,
    alloc: Global,
    rt: &R,
    audio: AudioPart<A, O>,
    osc: OscPart<L>,
    midi: MidiPart<M>,
    saver: SaverPart<P>,
) -> AllBack<A, O, L, M, P>
    requires audio { MayRunAudio A.Source O.Sink audio }
    requires saver { MayRunSaver saver }
    ensures { AllRan A.Source O.Sink L.Link M.Source P.Keeper audio osc midi saver result }
{
    let (saver, three) = thread::join(
        rt,
        || -> SaverPart<P>
            requires { MayRunSaver saver }
            ensures { RanSaver P.Keeper saver result }
        { run_saver(acts, alloc, rt, saver) },
        || -> ThreeBack<A, O, L, M>
            requires { IsSync X.row × IsSync R.row × IsSend L.row × IsSend M.row
                × MayRunAudio A.Source O.Sink audio }
            ensures { ThreeRan A.Source O.Sink L.Link M.Source audio osc midi result }
        { join_midi(acts, alloc, rt, audio, osc, midi) },
    );
    AllBack { three, saver }
}
