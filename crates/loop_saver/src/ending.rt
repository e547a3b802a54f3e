//! How a save goes.

ghost use Rattle.std.specs.Prelude.{◌≡◌};
ghost use Rattle.loop_saver.specs.Savers.{ending_number};

/// How the writing of a save goes, and ends.
#[derive(Clone, Copy, Debug, PartialEq, Eq)]
pub enum Ending {
    /// All that was due is written.
    Written,
    /// A write of the keeper failed.
    Failed,
    /// Out of memory.
    Memory,
}

impl Ending {
    /// The outcome in a release: 0 written, 1 a write failed, 4 out of memory.
    pub fn number(self) -> u8
        ensures { result ≡ ending_number self }
    {
        match self {
            Ending::Written => 0,
            Ending::Failed => 1,
            Ending::Memory => 4,
        }
    }
}
