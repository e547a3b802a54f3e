//! What stands outside of a live session, and what it gives back.

use frame_stamp::Journal;
use live_ports::{Link, Source};
use senders::Account;
use sl_ports::{Keeper, Sink};

/// The keeper of files, the source and the sink of audio, the link of OSC, the source of MIDI, and
/// the console.
#[derive(Drop)]
pub struct Outside<P: Keeper, A: Source, O: Sink, L: Link, M: Source, C: Sink> {
    pub keeper: P,
    pub audio: A,
    pub out: O,
    pub link: L,
    pub midi: M,
    pub console: C,
}

/// What a session that used its devices leaves beside them.
#[derive(Drop)]
pub struct Session {
    /// Each accepted command, once.
    pub journal: Journal,
    /// What came of all that OSC heard.
    pub osc: Account,
    /// What came of all that MIDI heard.
    pub midi: Account,
    /// How many frames were played.
    pub frames: u64,
    /// How often a loop refused an opening, a write or an extension.
    pub refused: u64,
}

/// A run that has ended: its exit status, what stands outside, and the session, which is None where
/// no device was used.
#[derive(Drop)]
pub struct End<P: Keeper, A: Source, O: Sink, L: Link, M: Source, C: Sink> {
    pub status: u8,
    pub outside: Outside<P, A, O, L, M, C>,
    pub session: Option<Session>,
}
