//! A session, from its setup to where it may be settled.

ghost use Rattle.std.specs.Prelude.{◌≡◌, ◌≤◌, ◌<◌, length, map, IfOk, IfErr};
ghost use Rattle.sl_base.specs.Limits.{max_chunks, max_quota, max_period};
ghost use Rattle.wav_pcm.specs.WavText.{IsFormat};
ghost use Rattle.looper_rules.specs.Reached.{AreLists};
ghost use Rattle.looper_rules.specs.Room.{used};
ghost use Rattle.whole_looper.specs.declared.fault.BeginFault.TheVariants.{Limit};
ghost use Rattle.midi_bindings.specs.Texts.{AreBindings};
ghost use Rattle.looper_engine.specs.Beginnings.{beginning_of};
ghost use Rattle.live_core.specs.Closing.{HasClosed};

use crate::closing::{Closed, close};
use crate::devices::Devices;
use crate::preparing::prepare;
use crate::run::run;
use crate::starting::start;
use live_joining::{ServesAudio, ServesMidi, ServesOsc, ServesSaver};
use live_ports::{Link, Source};
use looper_engine::{EngineFault, Setup};
use midi_bindings::Bindings;
use sl_commands::Initial;
use sl_ports::{Keeper, Sink};
use std::alloc::Global;
use std::sync::Wait;
use std::thread::Threads;
use std::time::Clock;

/// A session that didn't begin: why, and its devices, which weren't used.
#[derive(Drop)]
pub struct NotBegun<P: Keeper, A: Source, O: Sink, L: Link, M: Source> {
    pub fault: EngineFault,
    pub devices: Devices<P, A, O, L, M>,
}

/// Runs the four activities of a session over these devices, and brings the ends of its rings
/// together. `channels` is 1 or 2, and a period has 1 to 8192 frames. It waits, and isn't promised
/// to return.
pub fn run_session<
    X: ServesAudio<A, O> + ServesOsc<L> + ServesMidi<M> + ServesSaver<P> + Sync,
    P: Keeper + Send,
    A: Source,
    O: Sink,
    L: Link + Send,
    M: Source + Send,
    R: Wait + Clock + Threads + Sync,
>(
    acts: &X,
    alloc: Global,
    rt: &R,
    setup: &Setup,
    initial: &Initial,
    bindings: Bindings,
    channels: u8,
    period: usize,
    devices: Devices<P, A, O, L, M>,
) -> Result<Closed<A, O, L, M, P>, NotBegun<P, A, O, L, M>>
    requires lists { AreLists setup.now.settings.strips initial.now }
    requires chunks { setup.now.chunks ≤ max_chunks }
    requires some { 1 ≤ setup.now.quota }
    requires quota { setup.now.quota ≤ max_quota }
    requires bound { AreBindings (length setup.now.settings.strips) bindings }
    requires format { IsFormat channels 16 }
    requires frames { 1 ≤ period }
    requires within { period ≤ max_period }
    ensures closed { IfOk result (HasClosed A.Source O.Sink L.Link M.Source P.Keeper
        (beginning_of setup.now initial.now) bindings channels devices) }
    ensures unchanged { IfErr result (λ e. e.devices ≡ devices) }
    ensures limit { IfErr result (λ e. e.fault ≡ Limit →
        setup.now.chunks < used (map length initial.now)) }
{
    let prepared = match prepare(alloc, rt, setup, initial, bindings, channels, period) {
        Ok(prepared) => prepared,
        Err(fault) => return Err(NotBegun { fault, devices }),
    };
    let parts = start(prepared, devices);
    let back = run(acts, alloc, rt, parts);
    Ok(close(rt, back))
}
