//! The end of a session.

ghost use Rattle.std.specs.Prelude.{◌≡◌, ◌≤◌, []};
ghost use Rattle.sl_base.specs.Limits.{max_session_frames};
ghost use Rattle.settling.specs.Settled.{MaySettle, unsettled};
ghost use Rattle.live_joining.specs.Causes.{lacked_memory, link_failed};
ghost use Rattle.live_core.specs.Ending.{HasSettled, SettledTo, StaysAsClosed, IsEndOf, midi_failed};

use crate::closing::Closed;
use crate::devices::Devices;
use crate::status::{LiveStatus, status_of};
use crate::telling::LinkTeller;
use audio_ends::AudioState;
use frame_stamp::Journal;
use live_joining::OscOver;
use live_ports::{Link, Source};
use loop_saver::Saver;
use looper_engine::Engine;
use midi_serving::MidiEnd;
use senders::Account;
use settling::settle;
use sl_base::MAX_SESSION_FRAMES;
use sl_ports::{Keeper, Sink};
use std::alloc::Global;
use std::sync::Wait;

/// A session that has ended: its status, its devices, the journal, the account of each sender, how
/// many frames were played, and how often a loop refused an opening, a write or an extension.
#[derive(Drop)]
pub struct LiveEnd<P: Keeper, A: Source, O: Sink, L: Link, M: Source> {
    pub status: LiveStatus,
    pub devices: Devices<P, A, O, L, M>,
    pub journal: Journal,
    pub osc: Account,
    pub midi: Account,
    pub frames: u64,
    pub refused: u64,
}

/// What is settled: the engine, the devices, the accounts, and why each activity ended.
#[derive(Drop)]
pub(crate) struct Settlement<A: Source, O: Sink, L: Link, M: Source, P: Keeper> {
    pub engine: Engine,
    pub saver: Saver,
    pub osc: Account,
    pub midi: Account,
    pub keeper: P,
    pub audio: A,
    pub out: O,
    pub link: L,
    pub midi_source: M,
    pub state: AudioState,
    pub osc_ended: OscOver,
    pub midi_ended: MidiEnd,
}

/// Settles a session.
fn settle_closed<P: Keeper, A: Source, O: Sink, L: Link, M: Source, R: Wait>(
    alloc: Global,
    rt: &R,
    closed: Closed<A, O, L, M, P>,
) -> Settlement<A, O, L, M, P>
    requires { MaySettle (unsettled closed.engine closed.reply closed.saver.saving closed.keeper
        closed.outcome []) closed.rings }
    ensures settled { SettledTo L.Link P.Keeper closed result }
    ensures others { StaysAsClosed closed result }
{
    let Closed {
        rings,
        mut engine,
        reply,
        mut saver,
        outcome,
        osc,
        midi,
        mut keeper,
        audio,
        out,
        link,
        midi_source,
        state,
        osc_ended,
        midi_ended,
    } = closed;
    let mut teller = LinkTeller { link, account: osc };
    settle(
        rt,
        alloc,
        rings,
        reply,
        outcome,
        &mut engine,
        &mut keeper,
        &mut saver,
        &mut teller,
    );
    let LinkTeller { link, account: osc } = teller;
    Settlement {
        engine,
        saver,
        osc,
        midi,
        keeper,
        audio,
        out,
        link,
        midi_source,
        state,
        osc_ended,
        midi_ended,
    }
}

/// There was no memory to hear a packet.
fn lacked_memory(ended: OscOver) -> bool
    ensures { result ≡ lacked_memory ended }
{
    match ended {
        OscOver::Memory => true,
        _ => false,
    }
}

/// A receive failed.
fn link_failed(ended: OscOver) -> bool
    ensures { result ≡ link_failed ended }
{
    match ended {
        OscOver::LinkFault => true,
        _ => false,
    }
}

/// A read of MIDI failed.
fn midi_failed(ended: MidiEnd) -> bool
    ensures { result ≡ midi_failed ended }
{
    match ended {
        MidiEnd::ReadFault => true,
        _ => false,
    }
}

/// What a settled session gives back.
fn give_back<P: Keeper, A: Source, O: Sink, L: Link, M: Source>(
    settlement: Settlement<A, O, L, M, P>,
) -> LiveEnd<P, A, O, L, M>
    ensures end { IsEndOf settlement result }
    ensures within { result.frames ≤ max_session_frames }
{
    let Settlement {
        engine,
        saver: _,
        osc,
        midi,
        keeper,
        audio,
        out,
        link,
        midi_source,
        state,
        osc_ended,
        midi_ended,
    } = settlement;
    let frames = engine.frames_done();
    let refused = engine.refused();
    let status = status_of(
        lacked_memory(osc_ended),
        midi_failed(midi_ended),
        state,
        frames == MAX_SESSION_FRAMES,
        link_failed(osc_ended),
    );
    LiveEnd {
        status,
        devices: Devices {
            keeper,
            audio,
            out,
            link,
            midi: midi_source,
        },
        journal: engine.into_journal(),
        osc,
        midi,
        frames,
        refused,
    }
}

/// Settles a session, and gives back what it leaves.
#[tactic(auto, using(crate::proofs::EndLemmas::has_settled))]
pub(crate) fn end<P: Keeper, A: Source, O: Sink, L: Link, M: Source, R: Wait>(
    alloc: Global,
    rt: &R,
    closed: Closed<A, O, L, M, P>,
) -> LiveEnd<P, A, O, L, M>
    requires { MaySettle (unsettled closed.engine closed.reply closed.saver.saving closed.keeper
        closed.outcome []) closed.rings }
    ensures { HasSettled L.Link P.Keeper closed result }
{
    give_back(settle_closed(alloc, rt, closed))
}
