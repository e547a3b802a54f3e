//! A whole session.

ghost use Rattle.std.specs.Prelude.{◌≡◌, ◌≤◌, ◌<◌, length, map, IfOk, IfErr};
ghost use Rattle.sl_base.specs.Limits.{max_chunks, max_quota, max_period};
ghost use Rattle.wav_pcm.specs.WavText.{IsFormat};
ghost use Rattle.looper_rules.specs.Reached.{AreLists};
ghost use Rattle.looper_rules.specs.Room.{used};
ghost use Rattle.whole_looper.specs.declared.fault.BeginFault.TheVariants.{Limit};
ghost use Rattle.midi_bindings.specs.Texts.{AreBindings};
ghost use Rattle.looper_engine.specs.Beginnings.{beginning_of};
ghost use Rattle.live_core.specs.Ending.{HasEnded};

use crate::devices::Devices;
use crate::ending::{LiveEnd, end};
use crate::session::{NotBegun, run_session};
use live_joining::{ServesAudio, ServesMidi, ServesOsc, ServesSaver};
use live_ports::{Link, Source};
use looper_engine::Setup;
use midi_bindings::Bindings;
use sl_commands::Initial;
use sl_ports::{Keeper, Sink};
use std::alloc::Global;
use std::sync::Wait;
use std::thread::Threads;
use std::time::Clock;

/// Runs a session over these devices to its end. `channels` is 1 or 2, and a period has 1 to 8192
/// frames. It waits, and isn't promised to return. Where it doesn't begin, its devices come back
/// unused; and a limit is the reason only where the lists need more chunks than there are.
#[tactic(auto, using(crate::proofs::EndLemmas::may_end, crate::proofs::EndLemmas::has_ended))]
pub fn live_core<
    X: ServesAudio<A, O> + ServesOsc<L> + ServesMidi<M> + ServesSaver<P> + Sync,
    P: Keeper + Send,
    A: Source,
    O: Sink,
    L: Link + Send,
    M: Source + Send,
    R: Wait + Clock + Threads + Sync,
>(
    acts: &X,
    alloc: Global,
    rt: &R,
    setup: &Setup,
    initial: &Initial,
    bindings: Bindings,
    channels: u8,
    period: usize,
    devices: Devices<P, A, O, L, M>,
) -> Result<LiveEnd<P, A, O, L, M>, NotBegun<P, A, O, L, M>>
    requires lists { AreLists setup.now.settings.strips initial.now }
    requires chunks { setup.now.chunks ≤ max_chunks }
    requires some { 1 ≤ setup.now.quota }
    requires quota { setup.now.quota ≤ max_quota }
    requires bound { AreBindings (length setup.now.settings.strips) bindings }
    requires format { IsFormat channels 16 }
    requires frames { 1 ≤ period }
    requires within { period ≤ max_period }
    ensures ended { IfOk result (HasEnded A.Source O.Sink L.Link M.Source P.Keeper
        (beginning_of setup.now initial.now) bindings channels devices) }
    ensures unchanged { IfErr result (λ e. e.devices ≡ devices) }
    ensures limit { IfErr result (λ e. e.fault ≡ Limit →
        setup.now.chunks < used (map length initial.now)) }
{
    match run_session(
        acts, alloc, rt, setup, initial, bindings, channels, period, devices,
    ) {
        Ok(closed) => Ok(end(alloc, rt, closed)),
        Err(not_begun) => Err(not_begun),
    }
}
