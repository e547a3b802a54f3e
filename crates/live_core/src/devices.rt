//! What stands outside of a session.

use live_ports::{Link, Source};
use sl_ports::{Keeper, Sink};

/// The keeper of files, the source and the sink of audio, the link of OSC, and the source of MIDI.
#[derive(Drop)]
pub struct Devices<P: Keeper, A: Source, O: Sink, L: Link, M: Source> {
    pub keeper: P,
    pub audio: A,
    pub out: O,
    pub link: L,
    pub midi: M,
}
