//! The activities, each by the call of its own crate.

ghost use Rattle.std.specs.Prelude.{◌≡◌};
ghost use Rattle.live_activities.specs.Ends.{told_as};

use audio_ends::{AudioEnds, AudioState};
use event_rings::{Putter, Taker};
use live_joining::{OscOver, ServesAudio, ServesMidi, ServesOsc, ServesSaver};
use live_ports::{Link, Source};
use loop_saver::Saver;
use looper_engine::Engine;
use midi_serving::MidiEnd;
use osc_serving::OscEnd;
use senders::{MidiSender, OscSender};
use sl_commands::{Block, Reply};
use sl_ports::{Keeper, Sink};
use std::alloc::Global;
use std::sync::Wait;
use std::time::Clock;

/// Serves all four.
#[derive(Clone, Copy)]
pub struct Activities;

/// How the activity of OSC ended, as the session is told of it.
fn told_as(ended: OscEnd) -> OscOver
    ensures { result ≡ told_as ended }
{
    match ended {
        OscEnd::Over => OscOver::Over,
        OscEnd::LinkFault => OscOver::LinkFault,
        OscEnd::Memory => OscOver::Memory,
        OscEnd::Strange(_) => OscOver::Strange,
    }
}

impl<A: Source, O: Sink> ServesAudio<A, O> for Activities {
    fn serve_audio<R: Wait + Clock>(
        &self,
        rt: &R,
        engine: &mut Engine,
        ends: &mut AudioEnds,
        source: &mut A,
        sink: &mut O,
    ) -> AudioState {
        audio_serving::serve_audio(rt, engine, ends, source, sink)
    }
}

impl<L: Link> ServesOsc<L> for Activities {
    fn serve_osc<R: Wait + Clock>(
        &self,
        alloc: Global,
        rt: &R,
        link: &mut L,
        sender: &mut OscSender,
        replies: &mut Taker<Reply>,
        over: &mut Taker<u64>,
    ) -> OscOver {
        told_as(osc_serving::serve_osc(alloc, rt, link, sender, replies, over))
    }
}

impl<M: Source> ServesMidi<M> for Activities {
    fn serve_midi<R: Wait + Clock>(
        &self,
        rt: &R,
        source: &mut M,
        sender: &mut MidiSender,
        over: &mut Taker<u64>,
    ) -> MidiEnd {
        midi_serving::serve_midi(rt, source, sender, over)
    }
}

impl<P: Keeper> ServesSaver<P> for Activities {
    fn serve_saver<R: Wait + Clock>(
        &self,
        alloc: Global,
        rt: &R,
        keeper: &mut P,
        saver: &mut Saver,
        blocks: &mut Taker<Block>,
        releases: &mut Putter<u8>,
        over: &mut Taker<u64>,
    ) -> Option<u8> {
        saver_serving::serve_saver(rt, alloc, keeper, saver, blocks, releases, over)
    }
}
