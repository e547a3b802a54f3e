//! Where bytes go.

ghost use Rattle.std.specs.Prelude.{ℕ, List, Option};
ghost use Rattle.sl_base.specs.Counting.{Counts};
ghost use Rattle.sl_ports.specs.Texts.{is_failed, Writes};

/// What came of a write.
#[derive(Clone, Copy, Debug, PartialEq, Eq)]
pub enum SinkAnswer {
    /// All bytes were taken.
    Done,
    /// The sink took a prefix of the bytes, maybe none, and raised its count of faults.
    Failed,
}

/// Takes bytes in order: a console, raw audio, a list in memory.
pub trait Sink: Drop {
    // The number of writes that failed.
    ghost faults: { Self → ℕ };

    // The bytes taken so far, where the sink tells them.
    ghost held: { Self → Option (List ℕ) };

    /// Writes the bytes behind those that the sink holds. It takes no memory of the caller.
    fn write_all(&mut self, bytes: &[u8]) -> SinkAnswer
        ensures counts { Counts (faults self.old) (faults self.new) (is_failed result) }
        ensures value { Writes (held self.old) (held self.new) bytes.now result };
}
