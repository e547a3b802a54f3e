//! What a save sends to the saver, piece by piece.

ghost use Rattle.std.specs.Prelude.{◌≡◌, [], ◌∷◌, ◌++◌, ◌<◌, ◌≤◌, length};

use crate::command::Target;
use crate::settings::Settings;
use arrayvec::ArrayVec;
use sl_base::{Frame, Name};
use std::marker::Model;

/// Frames of a saved list that follow one another, 256 at most.
#[derive(Drop)]
pub struct PartFrames {
    frames: ArrayVec<Frame, 256>,
}

impl Model for PartFrames {
    ghost use Rattle.std.specs.Prelude.{List};
    ghost use Rattle.sl_base.specs.Sounds.{Sound};

    ghost Value = { List Sound };

    ghost view = { λ p. p.frames.items };
}

impl PartFrames {
    /// The greatest number of frames.
    pub const CAPACITY: usize = 256;

    /// No frames.
    pub fn new() -> PartFrames
        ensures { result ≡ [] }
    {
        PartFrames {
            frames: ArrayVec::new(),
        }
    }

    /// Puts one frame at the end.
    pub fn push(&mut self, frame: Frame)
        requires { length self.old < 256 }
        ensures { self.new ≡ self.old ++ frame ∷ [] }
    {
        self.frames.push(frame);
    }

    /// The frames, in the order of the list.
    pub fn as_slice(&self) -> &[Frame]
        ensures { result.now ≡ self.now }
    {
        self.frames.as_slice()
    }

    /// How many frames there are.
    pub fn len(&self) -> usize
        ensures value { result ≡ length self.now }
        ensures within { length self.now ≤ 256 }
    {
        self.frames.as_slice().len()
    }
}

/// One piece of a save. `save` is the number of the save, counted from 0, and `index` the loop's.
#[derive(Drop)]
pub enum Block {
    Head {
        save: u32,
        name: Name,
        target: Target,
        settings: Settings,
    },
    Part {
        save: u32,
        index: u8,
        frames: PartFrames,
    },
    End {
        save: u32,
    },
}
