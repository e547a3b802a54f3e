//! The four activities, each as one call whose contract is its promise. No promise speaks of
//! another activity.

ghost use Rattle.std.specs.Prelude.{◌≡◌, None};
ghost use Rattle.audio_ends.specs.Did.{MayGoOn};
ghost use Rattle.midi_serving.specs.Serving.{MidiDid};
ghost use Rattle.saver_serving.specs.Serving.{MayServe, SaverDid};
ghost use Rattle.live_session.specs.Audio.{AudioRan};
ghost use Rattle.live_session.specs.Osc.{OscRan};
ghost use Rattle.live_joining.specs.Parts.{audio_at, osc_at, serving};
ghost use Rattle.live_joining.specs.Causes.{lacked_memory, LinkCause};

use audio_ends::{AudioEnds, AudioState};
use event_rings::{Putter, Taker};
use live_ports::{Link, Source};
use loop_saver::Saver;
use looper_engine::Engine;
use midi_serving::MidiEnd;
use senders::{MidiSender, OscSender};
use sl_commands::{Block, Reply};
use sl_ports::{Keeper, Sink};
use std::alloc::Global;
use std::sync::Wait;
use std::time::Clock;

/// Why the activity of OSC ended.
#[derive(Clone, Copy, Debug, PartialEq, Eq)]
pub enum OscOver {
    /// The session is over.
    Over,
    /// A receive failed, and the link's count of receives rose.
    LinkFault,
    /// There was no memory to hear a packet.
    Memory,
    /// A reply without a return address was taken.
    Strange,
}

/// Serves the audio until it is at its end.
pub trait ServesAudio<A: Source, O: Sink> {
    fn serve_audio<R: Wait + Clock>(
        &self,
        rt: &R,
        engine: &mut Engine,
        ends: &mut AudioEnds,
        source: &mut A,
        sink: &mut O,
    ) -> AudioState
        requires may { MayGoOn (audio_at engine.old ends.old (A.seen source.old)
            (O.faults sink.old) (O.held sink.old)) }
        ensures ran { AudioRan
            (audio_at engine.old ends.old (A.seen source.old) (O.faults sink.old)
            (O.held sink.old))
            (audio_at engine.new ends.new (A.seen source.new) (O.faults sink.new)
            (O.held sink.new)) result };
}

/// Serves OSC until the session is over, which `over` tells by a number, or a cause of its own ends
/// it.
pub trait ServesOsc<L: Link> {
    fn serve_osc<R: Wait + Clock>(
        &self,
        alloc: Global,
        rt: &R,
        link: &mut L,
        sender: &mut OscSender,
        replies: &mut Taker<Reply>,
        over: &mut Taker<u64>,
    ) -> OscOver
        ensures ran { OscRan (osc_at (L.seen link.old) sender.old replies.old)
            (osc_at (L.seen link.new) sender.new replies.new) (lacked_memory result) }
        ensures cause { LinkCause (L.seen link.old) (L.seen link.new) result };
}

/// Serves MIDI likewise.
pub trait ServesMidi<M: Source> {
    fn serve_midi<R: Wait + Clock>(
        &self,
        rt: &R,
        source: &mut M,
        sender: &mut MidiSender,
        over: &mut Taker<u64>,
    ) -> MidiEnd
        ensures did { MidiDid (M.seen source.old) (M.seen source.new) sender.old sender.new
            over.old over.new result };
}

/// Serves the saver until the session is over. Gives the outcome that is held then.
pub trait ServesSaver<P: Keeper> {
    fn serve_saver<R: Wait + Clock>(
        &self,
        alloc: Global,
        rt: &R,
        keeper: &mut P,
        saver: &mut Saver,
        blocks: &mut Taker<Block>,
        releases: &mut Putter<u8>,
        over: &mut Taker<u64>,
    ) -> Option<u8>
        requires may { MayServe (serving saver.old.saving keeper.old blocks.old releases.old
            None) }
        ensures rate { saver.new.rate ≡ saver.old.rate }
        ensures may { MayServe (serving saver.new.saving keeper.new blocks.new releases.new
            result) }
        ensures did { SaverDid P.Keeper saver.old.rate
            (serving saver.old.saving keeper.old blocks.old releases.old None)
            (serving saver.new.saving keeper.new blocks.new releases.new result) };
}
