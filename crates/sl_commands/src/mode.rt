//! What a loop is doing, what can be seen of it, and how it writes.

ghost use Rattle.std.specs.Prelude.{◌≡◌};
ghost use Rattle.sl_commands.specs.Modes.{is_writing, is_mode_of};

use crate::verb::Verb;

/// What a loop is doing.
#[derive(Clone, Copy, PartialEq, Eq)]
pub enum Mode {
    Off,
    WaitStart,
    Recording,
    Playing,
    Overdubbing,
    Multiplying,
    Inserting,
    Replacing,
    Muted,
    OneShot,
    Substituting,
    Paused,
}

impl Mode {
    /// A frame of the input is written at each frame.
    pub fn is_writing(self) -> bool
        ensures { result ≡ is_writing self }
    {
        match self {
            Mode::Recording => true,
            Mode::Overdubbing => true,
            Mode::Multiplying => true,
            Mode::Inserting => true,
            Mode::Replacing => true,
            Mode::Substituting => true,
            _ => false,
        }
    }

    /// It is the mode of this verb.
    pub fn is_of(self, verb: Verb) -> bool
        ensures { result ≡ is_mode_of verb self }
    {
        match (verb, self) {
            (Verb::Rec, Mode::Recording) => true,
            (Verb::Overdub, Mode::Overdubbing) => true,
            (Verb::Multiply, Mode::Multiplying) => true,
            (Verb::Insert, Mode::Inserting) => true,
            (Verb::Replace, Mode::Replacing) => true,
            (Verb::Substitute, Mode::Substituting) => true,
            (Verb::Mute, Mode::Muted) => true,
            (Verb::Pause, Mode::Paused) => true,
            (Verb::OneShot, Mode::OneShot) => true,
            _ => false,
        }
    }
}

/// A verb that is held down, and the frame at which it was pressed.
#[derive(Clone, Copy, PartialEq, Eq)]
pub struct Held {
    pub verb: Verb,
    pub frame: u64,
}

/// A loop as its verbs see it. `pos`, `length`, `cycle` and `base` are frames, `base` the length of
/// the list from which the open layer began; `layers` and `redo` are numbers of layers, `refused`
/// is what was refused so far.
#[derive(Clone, Copy, PartialEq, Eq)]
pub struct Face {
    pub mode: Mode,
    pub rounding: bool,
    pub pos: u32,
    pub backward: bool,
    pub length: u32,
    pub cycle: u32,
    pub base: u32,
    pub layers: u32,
    pub redo: u32,
    pub waiting: Option<Verb>,
    pub press: Option<Held>,
    pub refused: u32,
    pub pinned: bool,
}

/// How a frame is written: over the one at a place, in the loop's direction, before it, or at the
/// end.
#[derive(Clone, Copy, PartialEq, Eq)]
pub enum How {
    Forward,
    Backward,
    Insert,
    Append,
}

/// What became of the start of a layer: `Ok`, or there are too many layers, too many seams, or no
/// room on the tape.
#[derive(Clone, Copy, PartialEq, Eq)]
pub enum Started {
    Ok,
    Layers,
    Seams,
    Room,
}
