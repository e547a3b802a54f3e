//! The four activities, from what was made.

ghost use Rattle.std.specs.Prelude.{◌≡◌, List};
ghost use Rattle.midi_bindings.specs.declared.binding.Binding.{Binding};
ghost use Rattle.engine_steps.specs.Engines.{Beginning};
ghost use Rattle.live_session.specs.Session.{IsMade, HaveRun};
ghost use Rattle.live_joining.specs.Causes.{lacked_memory};
ghost use Rattle.live_joining.specs.Running.{MayRunAudio, MayRunSaver, AllRan};
ghost use Rattle.live_core.specs.Sessions.{session_of, session_back};

use crate::starting::Parts;
use live_joining::{AllBack, ServesAudio, ServesMidi, ServesOsc, ServesSaver, join_all};
use live_ports::{Link, Source};
use sl_ports::{Keeper, Sink};
use std::alloc::Global;
use std::sync::Wait;
use std::thread::Threads;
use std::time::Clock;

/// Runs the four activities.
pub(crate) fn run<
    X: ServesAudio<A, O> + ServesOsc<L> + ServesMidi<M> + ServesSaver<P> + Sync,
    A: Source,
    O: Sink,
    L: Link + Send,
    M: Source + Send,
    P: Keeper + Send,
    R: Wait + Clock + Threads + Sync,
>(acts: &X, alloc: Global, rt: &R, parts: Parts<A, O, L, M, P>) -> AllBack<A, O, L, M, P>
    requires audio { MayRunAudio A.Source O.Sink parts.audio }
    requires saver { MayRunSaver parts.saver }
    ensures all { AllRan A.Source O.Sink L.Link M.Source P.Keeper parts.audio parts.osc parts.midi
        parts.saver result }
    ensures ran { (b : Beginning) → (bindings : List Binding) →
        IsMade b bindings (session_of A.Source O.Sink L.Link M.Source parts.audio parts.osc
        parts.midi parts.saver) → parts.saver.saver.rate ≡ b.settings.rate →
        HaveRun P.Keeper b bindings
        (session_of A.Source O.Sink L.Link M.Source parts.audio parts.osc parts.midi parts.saver)
        (session_back A.Source O.Sink L.Link M.Source result) result.three.two.audio.state
        (lacked_memory result.three.two.osc.ended) }
{
    let Parts {
        audio,
        osc,
        midi,
        saver,
    } = parts;
    join_all(acts, alloc, rt, audio, osc, midi, saver)
}
