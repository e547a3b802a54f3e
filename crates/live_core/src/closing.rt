//! The ends of all rings, once the activities have given their parts back.

ghost use Rattle.live_session.specs.Session.{SameRings};
ghost use Rattle.live_core.specs.Sessions.{session_back};
ghost use Rattle.live_core.specs.Closing.{IsClosed};

use audio_ends::{AudioEnds, AudioState, RingEnds};
use live_joining::{
    AllBack, AudioBack, AudioPart, MidiBack, MidiPart, OscBack, OscOver, OscPart, SaverPart,
    ThreeBack, TwoBack,
};
use live_ports::{Link, Source};
use live_rings::{MetRings, Ring, Rings, meet_rings};
use loop_saver::Saver;
use looper_engine::Engine;
use midi_serving::MidiEnd;
use senders::Account;
use sl_commands::Reply;
use sl_ports::{Keeper, Sink};
use std::sync::Wait;

/// What is to be settled: the rings with the two ends of each in one, the engine and the reply that
/// audio held, the saver and the outcome that it held, the accounts, the devices, and
/// why each activity ended.
#[derive(Drop)]
pub struct Closed<A: Source, O: Sink, L: Link, M: Source, P: Keeper> {
    pub rings: MetRings,
    pub engine: Engine,
    pub reply: Option<Reply>,
    pub saver: Saver,
    pub outcome: Option<u8>,
    pub osc: Account,
    pub midi: Account,
    pub keeper: P,
    pub audio: A,
    pub out: O,
    pub link: L,
    pub midi_source: M,
    pub state: AudioState,
    pub osc_ended: OscOver,
    pub midi_ended: MidiEnd,
}

/// Brings the ends of each ring together.
pub(crate) fn close<A: Source, O: Sink, L: Link, M: Source, P: Keeper, R: Wait>(
    rt: &R,
    back: AllBack<A, O, L, M, P>,
) -> Closed<A, O, L, M, P>
    requires { SameRings (session_back A.Source O.Sink L.Link M.Source back) }
    ensures { IsClosed A.Source O.Sink L.Link M.Source back result }
{
    let AllBack { three, saver } = back;
    let ThreeBack { two, midi } = three;
    let TwoBack { audio, osc } = two;
    let AudioBack { part: audio, state } = audio;
    let OscBack {
        part: osc,
        ended: osc_ended,
    } = osc;
    let MidiBack {
        part: midi,
        ended: midi_ended,
    } = midi;
    let AudioPart {
        engine,
        ends,
        source,
        sink,
        overs: _,
    } = audio;
    let AudioEnds {
        rings: ends,
        rest: _,
        channels: _,
        most: _,
        frames: _,
        heard: _,
        bytes: _,
    } = ends;
    let RingEnds {
        osc: osc_takes,
        midi: midi_takes,
        saver: outcomes,
        replies: reply_puts,
        blocks: block_puts,
        held: reply,
        quit: _,
    } = ends;
    let OscPart {
        link,
        sender: osc,
        replies: reply_takes,
        over: _,
    } = osc;
    let MidiPart {
        source: midi_source,
        sender: midi,
        over: _,
    } = midi;
    let SaverPart {
        keeper,
        saver,
        blocks,
        releases,
        held: outcome,
        over: _,
    } = saver;
    let (osc, osc_puts) = osc.into_parts();
    let (midi, midi_puts) = midi.into_parts();
    let rings = meet_rings(
        rt,
        Rings {
            osc: Ring {
                putter: osc_puts,
                taker: osc_takes,
            },
            midi: Ring {
                putter: midi_puts,
                taker: midi_takes,
            },
            saver: Ring {
                putter: releases,
                taker: outcomes,
            },
            replies: Ring {
                putter: reply_puts,
                taker: reply_takes,
            },
            blocks: Ring {
                putter: block_puts,
                taker: blocks,
            },
        },
    );
    Closed {
        rings,
        engine,
        reply,
        saver,
        outcome,
        osc,
        midi,
        keeper,
        audio: source,
        out: sink,
        link,
        midi_source,
        state,
        osc_ended,
        midi_ended,
    }
}
