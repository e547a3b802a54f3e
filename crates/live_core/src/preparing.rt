//! What a session is made of, before it uses a device.

ghost use Rattle.std.specs.Prelude.{◌≡◌, ◌≤◌, ◌<◌, length, map, false, None, [], IfOk, IfErr};
ghost use Rattle.sl_base.specs.Limits.{max_chunks, max_quota, max_period};
ghost use Rattle.wav_pcm.specs.WavText.{IsFormat};
ghost use Rattle.looper_rules.specs.Reached.{AreLists};
ghost use Rattle.looper_rules.specs.Room.{used};
ghost use Rattle.whole_looper.specs.declared.fault.BeginFault.TheVariants.{Limit};
ghost use Rattle.midi_bindings.specs.Texts.{AreBindings};
ghost use Rattle.looper_engine.specs.Beginnings.{beginning_of};
ghost use Rattle.senders.specs.Tallies.{empty_tally};
ghost use Rattle.senders.specs.Senders.{IsNewMidi};
ghost use Rattle.audio_ends.specs.Did.{IsReady};
ghost use Rattle.live_rings.specs.Rings.{AreNew};
ghost use Rattle.live_core.specs.Preparing.{IsPrepared, IsArranged, AreEnds};

use audio_ends::{AudioEnds, RingEnds};
use event_rings::{Putter, Taker};
use live_joining::Overs;
use live_rings::{OverRings, Ring, Rings, live_rings, over_rings};
use loop_saver::Saver;
use looper_engine::{Engine, EngineFault, Setup};
use midi_bindings::Bindings;
use senders::{MidiSender, OscSender};
use sl_base::Memory;
use sl_commands::{Block, Command, Initial, Reply};
use std::alloc::Global;
use std::sync::Wait;

/// All that the activities own but for the devices.
#[derive(Drop)]
pub(crate) struct Prepared {
    pub engine: Engine,
    pub ends: AudioEnds,
    pub overs: Overs,
    pub osc: OscSender,
    pub replies: Taker<Reply>,
    pub osc_over: Taker<u64>,
    pub midi: MidiSender,
    pub midi_over: Taker<u64>,
    pub saver: Saver,
    pub blocks: Taker<Block>,
    pub releases: Putter<u8>,
    pub saver_over: Taker<u64>,
}

/// The ends that audio owns, with nothing kept or held.
fn ends_of(
    osc: Taker<Command>,
    midi: Taker<Command>,
    saver: Taker<u8>,
    replies: Putter<Reply>,
    blocks: Putter<Block>,
    channels: u8,
    period: usize,
) -> AudioEnds
    requires format { IsFormat channels 16 }
    requires some { 1 ≤ period }
    requires within { period ≤ max_period }
    ensures ends { AreEnds osc midi saver replies blocks result }
    ensures channels { result.channels ≡ channels }
    ensures ready { IsReady result }
{
    let rings = RingEnds {
        osc,
        midi,
        saver,
        replies,
        blocks,
        held: None,
        quit: false,
    };
    AudioEnds::new(rings, channels, period)
}

/// The two senders over their rings, which were sent nothing.
fn senders_of(
    alloc: Global,
    setup: &Setup,
    bindings: Bindings,
    osc: Putter<Command>,
    midi: Putter<Command>,
) -> Result<(OscSender, MidiSender), Memory>
    requires quota { setup.now.quota ≤ max_quota }
    requires osc { (osc.sent ≡ []) × (osc.fulls ≡ 0) × (setup.now.quota ≤ osc.limit) }
    requires midi { (midi.sent ≡ []) × (midi.fulls ≡ 0) × (setup.now.quota ≤ midi.limit) }
    ensures osc { IfOk result (λ s. s.0 ≡ record {
      account = record { tally = empty_tally setup.now.quota; unsent = 0 };
      loops = length setup.now.settings.strips;
      ring = osc;
    }) }
    ensures midi { IfOk result (λ s. IsNewMidi setup.now.quota bindings midi s.1) }
{
    let loops = setup.loops();
    let osc = OscSender::new(alloc, setup.quota, loops, osc)?;
    let midi = MidiSender::new(alloc, setup.quota, bindings, midi)?;
    Ok((osc, midi))
}

/// All that the activities own, over new rings.
fn arrange(
    alloc: Global,
    setup: &Setup,
    bindings: Bindings,
    channels: u8,
    period: usize,
    engine: Engine,
    rings: Rings,
    overs: OverRings,
) -> Result<Prepared, Memory>
    requires quota { setup.now.quota ≤ max_quota }
    requires new { AreNew setup.now.quota rings }
    requires format { IsFormat channels 16 }
    requires some { 1 ≤ period }
    requires within { period ≤ max_period }
    ensures { IfOk result (IsArranged setup.now bindings channels engine rings overs) }
{
    let Rings {
        osc,
        midi,
        saver,
        replies,
        blocks,
    } = rings;
    let Ring {
        putter: osc_puts,
        taker: osc_takes,
    } = osc;
    let Ring {
        putter: midi_puts,
        taker: midi_takes,
    } = midi;
    let Ring {
        putter: releases,
        taker: outcomes,
    } = saver;
    let Ring {
        putter: reply_puts,
        taker: replies,
    } = replies;
    let Ring {
        putter: block_puts,
        taker: blocks,
    } = blocks;
    let OverRings { osc, midi, saver } = overs;
    let Ring {
        putter: osc_tells,
        taker: osc_over,
    } = osc;
    let Ring {
        putter: midi_tells,
        taker: midi_over,
    } = midi;
    let Ring {
        putter: saver_tells,
        taker: saver_over,
    } = saver;
    let (osc, midi) = senders_of(alloc, setup, bindings, osc_puts, midi_puts)?;
    let ends = ends_of(
        osc_takes, midi_takes, outcomes, reply_puts, block_puts, channels, period,
    );
    setup.facts();
    Ok(Prepared {
        engine,
        ends,
        overs: Overs {
            osc: osc_tells,
            midi: midi_tells,
            saver: saver_tells,
        },
        osc,
        replies,
        osc_over,
        midi,
        midi_over,
        saver: Saver::new(setup.settings.rate),
        blocks,
        releases,
        saver_over,
    })
}

/// All that the activities own, for this setup, these lists and these bindings. Only this call
/// takes memory before the session begins.
pub(crate) fn prepare<R: Wait>(
    alloc: Global,
    rt: &R,
    setup: &Setup,
    initial: &Initial,
    bindings: Bindings,
    channels: u8,
    period: usize,
) -> Result<Prepared, EngineFault>
    requires lists { AreLists setup.now.settings.strips initial.now }
    requires chunks { setup.now.chunks ≤ max_chunks }
    requires some { 1 ≤ setup.now.quota }
    requires quota { setup.now.quota ≤ max_quota }
    requires bound { AreBindings (length setup.now.settings.strips) bindings }
    requires format { IsFormat channels 16 }
    requires frames { 1 ≤ period }
    requires within { period ≤ max_period }
    ensures prepared { IfOk result (IsPrepared setup.now initial.now bindings channels) }
    ensures limit { IfErr result (λ fault. fault ≡ Limit →
        setup.now.chunks < used (map length initial.now)) }
{
    let engine = match Engine::new(alloc, setup, initial) {
        Ok(engine) => engine,
        Err(fault) => return Err(fault),
    };
    let Ok(rings) = live_rings(alloc, rt, setup.quota) else {
        return Err(EngineFault::Memory);
    };
    let Ok(overs) = over_rings(alloc, rt) else {
        return Err(EngineFault::Memory);
    };
    match arrange(
        alloc, setup, bindings, channels, period, engine, rings, overs,
    ) {
        Ok(prepared) => Ok(prepared),
        Err(_) => Err(EngineFault::Memory),
    }
}
