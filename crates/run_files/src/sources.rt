//! What a run is read from.

use sl_base::Name;
use std::marker::Model;

/// The files that a run names, how many loops there are where no session is named, and how many
/// chunks.
#[derive(Drop)]
pub struct Sources {
    /// The WAV file that is played into the looper.
    pub input: Name,
    /// The session that the loops begin with, at most 48 bytes.
    pub session: Option<Name>,
    /// How many empty loops the run begins with where no session is named, 1 to 16.
    pub loops: u8,
    /// The commands, each at its frame.
    pub journal: Name,
    /// The chunks of 4096 frames that all loops share.
    pub chunks: u32,
}

impl Model for Sources {
    ghost use Rattle.run_files.specs.Named.{Named, IsNamed};

    ghost Value = { Named };

    ghost view = { λ s. record {
      input = s.input;
      session = s.session;
      loops = s.loops;
      journal =
          s.journal;
      chunks = s.chunks;
    } };

    ghost invariant = { λ s.
        IsNamed (record {
          input = s.input;
          session = s.session;
          loops = s.loops;
          journal =
              s.journal;
          chunks = s.chunks;
        }) };
}
