//! Steps and their outcomes.

ghost use Rattle.std.specs.Prelude.{◌≡◌};

use sl_commands::Command;

/// One put, one take, or a period.
#[derive(Drop)]
pub enum Step {
    /// A command is put on the ring of sender 0.
    PutOsc(Command),
    /// A command is put on the ring of sender 1.
    PutMidi(Command),
    /// The engine takes a command of sender 0.
    TakeOsc,
    /// The engine takes a command of sender 1.
    TakeMidi,
    /// The engine takes the outcome of a save, as its release.
    TakeSaver,
    /// So many frames are played.
    Period(u16),
    /// A reply is taken from its ring.
    ReplyTake,
    /// The engine's next block is put on its ring.
    BlockPut,
    /// The saver takes a block.
    BlockTake,
    /// The held reply is put on its ring.
    ReplyPut,
    /// The oldest remembered outcome is put on the saver's ring.
    PutSaver,
}

impl Step {
    /// The same step once more.
    pub fn duplicate(&self) -> Step
        ensures { result ≡ self.now }
    {
        match self {
            Step::PutOsc(command) => Step::PutOsc(command.duplicate()),
            Step::PutMidi(command) => Step::PutMidi(command.duplicate()),
            Step::TakeOsc => Step::TakeOsc,
            Step::TakeMidi => Step::TakeMidi,
            Step::TakeSaver => Step::TakeSaver,
            Step::Period(frames) => Step::Period(*frames),
            Step::ReplyTake => Step::ReplyTake,
            Step::BlockPut => Step::BlockPut,
            Step::BlockTake => Step::BlockTake,
            Step::ReplyPut => Step::ReplyPut,
            Step::PutSaver => Step::PutSaver,
        }
    }
}

/// What came of a step.
#[derive(Clone, Copy, Debug, PartialEq, Eq)]
pub enum Outcome {
    Done,
    /// The ring that is put on holds its capacity.
    Full,
    /// Nothing waits in the ring that is taken from.
    Empty,
    /// A reply is held, so the engine takes nothing.
    Held,
    /// There is nothing to put.
    Nothing,
}
