//! What a live session is read from.

use sl_base::Name;
use std::marker::Model;

/// The files that a live session names, the rate and how many loops there are where no session is
/// named, and how many chunks.
#[derive(Drop)]
pub struct LiveSources {
    /// The session that the loops begin with, at most 48 bytes.
    pub session: Option<Name>,
    /// The file of the bindings.
    pub bind: Option<Name>,
    /// Frames a second where no session is named, 1 to 768000.
    pub rate: u32,
    /// How many empty loops there are where no session is named, 1 to 16.
    pub loops: u8,
    /// The chunks of 4096 frames that all loops share.
    pub chunks: u32,
}

impl Model for LiveSources {
    ghost use Rattle.live_files.specs.LiveNamed.{LiveNamed, IsLiveNamed};

    ghost Value = { LiveNamed };

    ghost view = { λ s. record {
      session = s.session;
      bind = s.bind;
      rate = s.rate;
      loops = s.loops;
      chunks = s.chunks;
    } };

    ghost invariant = { λ s. IsLiveNamed (record {
      session = s.session;
      bind = s.bind;
      rate = s.rate;
      loops = s.loops;
      chunks = s.chunks;
    }) };
}
