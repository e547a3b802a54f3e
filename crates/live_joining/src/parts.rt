//! What each activity owns, and gives back with why it ended.

use crate::activities::OscOver;
use audio_ends::{AudioEnds, AudioState};
use event_rings::{Putter, Taker};
use live_ports::{Link, Source};
use loop_saver::Saver;
use looper_engine::Engine;
use midi_serving::MidiEnd;
use senders::{MidiSender, OscSender};
use sl_commands::{Block, Reply};
use sl_ports::{Keeper, Sink};

/// The ends of the rings by which the activity of audio tells the others that it is over.
#[derive(Drop)]
pub struct Overs {
    pub osc: Putter<u64>,
    pub midi: Putter<u64>,
    pub saver: Putter<u64>,
}

/// What the activity of audio owns.
#[derive(Drop)]
pub struct AudioPart<A: Source, O: Sink> {
    pub engine: Engine,
    pub ends: AudioEnds,
    pub source: A,
    pub sink: O,
    pub overs: Overs,
}

/// What the activity of OSC owns.
#[derive(Drop)]
pub struct OscPart<L: Link> {
    pub link: L,
    pub sender: OscSender,
    pub replies: Taker<Reply>,
    pub over: Taker<u64>,
}

/// What the activity of MIDI owns.
#[derive(Drop)]
pub struct MidiPart<M: Source> {
    pub source: M,
    pub sender: MidiSender,
    pub over: Taker<u64>,
}

/// What the activity of the saver owns, with the outcome that is held where there is one.
#[derive(Drop)]
pub struct SaverPart<P: Keeper> {
    pub keeper: P,
    pub saver: Saver,
    pub blocks: Taker<Block>,
    pub releases: Putter<u8>,
    pub held: Option<u8>,
    pub over: Taker<u64>,
}

/// What the activity of audio gives back.
#[derive(Drop)]
pub struct AudioBack<A: Source, O: Sink> {
    pub part: AudioPart<A, O>,
    pub state: AudioState,
}

/// What that of OSC does.
#[derive(Drop)]
pub struct OscBack<L: Link> {
    pub part: OscPart<L>,
    pub ended: OscOver,
}

/// What that of MIDI does.
#[derive(Drop)]
pub struct MidiBack<M: Source> {
    pub part: MidiPart<M>,
    pub ended: MidiEnd,
}

/// What audio and OSC give back.
#[derive(Drop)]
pub struct TwoBack<A: Source, O: Sink, L: Link> {
    pub audio: AudioBack<A, O>,
    pub osc: OscBack<L>,
}

/// What audio, OSC and MIDI give back.
#[derive(Drop)]
pub struct ThreeBack<A: Source, O: Sink, L: Link, M: Source> {
    pub two: TwoBack<A, O, L>,
    pub midi: MidiBack<M>,
}

/// What all four give back.
#[derive(Drop)]
pub struct AllBack<A: Source, O: Sink, L: Link, M: Source, P: Keeper> {
    pub three: ThreeBack<A, O, L, M>,
    pub saver: SaverPart<P>,
}
