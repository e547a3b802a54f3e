//! Serving MIDI.

ghost use Rattle.midi_serving.specs.Serving.{HearsBytes, MidiDid};
ghost use Rattle.midi_serving.specs.Turns.{TurnsOnce};

use event_rings::Taker;
use live_ports::{Source, SourceAnswer};
use senders::MidiSender;
use std::sync::Wait;

/// Why serving MIDI ended.
#[derive(Clone, Copy, Debug, PartialEq, Eq)]
pub enum MidiEnd {
    /// The session is over.
    Over,
    /// The source is at its end.
    End,
    /// A read failed, and the source's count of faults rose.
    ReadFault,
}

/// Has bytes heard, in order.
fn hear<R: Wait>(wait: &R, sender: &mut MidiSender, bytes: &[u8])
    ensures { HearsBytes bytes.now sender.old sender.new }
{
    'bytes: for place in 0..bytes.len() {
        let _decision = sender.byte(wait, bytes[place]);
    }
}

/// Reads once and has what came heard. Some where serving ends.
fn serve_bytes<M: Source, R: Wait>(
    wait: &R,
    source: &mut M,
    sender: &mut MidiSender,
    buf: &mut [u8; 256],
) -> Option<MidiEnd>
    ensures { TurnsOnce (M.seen source.old) (M.seen source.new) sender.old sender.new result }
{
    match source.read(buf) {
        SourceAnswer::Got(count) => {
            hear(wait, sender, &buf[..count]);
            None
        }
        SourceAnswer::Idle => None,
        SourceAnswer::End => Some(MidiEnd::End),
        SourceAnswer::Failed => Some(MidiEnd::ReadFault),
    }
}

/// Serves MIDI until the session is over, which `over` tells by a number, or a cause of its own
/// ends it. It may wait for the source and for the other ends of the rings, and takes no memory.
pub fn serve_midi<M: Source, R: Wait>(
    wait: &R,
    source: &mut M,
    sender: &mut MidiSender,
    over: &mut Taker<u64>,
) -> MidiEnd
    ensures { MidiDid (M.seen source.old) (M.seen source.new) sender.old sender.new over.old
        over.new result }
{
    let mut buf = [0; 256];
    'turns: for _ in wait.forever() {
        if let Some(end) = serve_bytes(wait, source, sender, &mut buf) {
            return end;
        }
        if over.take(wait).is_some() {
            return MidiEnd::Over;
        }
    }
    unreachable!()
}
