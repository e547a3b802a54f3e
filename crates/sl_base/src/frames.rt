//! Lists of frames.

ghost use Rattle.std.specs.Prelude.{◌≡◌, ℕ, [], ◌∷◌, ◌++◌, length, OnOk, OnErr};

use crate::frame::Frame;
use crate::memory::Memory;
use std::alloc::Global;
use std::marker::Model;

/// A list of frames, oldest first. It owns them.
#[derive(Drop)]
pub struct Frames {
    frames: Vec<Frame>,
}

impl Model for Frames {
    ghost use Rattle.std.specs.Prelude.{List};
    ghost use Rattle.sl_base.specs.Sounds.{Sound};

    ghost Value = { List Sound };

    ghost view = { λ f. f.frames.items };
}

impl Frames {
    /// No frames.
    pub fn new(alloc: Global) -> Frames
        ensures { result ≡ [] }
    {
        Frames {
            frames: Vec::new(alloc),
        }
    }

    /// The frames of a vector.
    pub fn of(frames: Vec<Frame>) -> Frames
        ensures { result ≡ frames.items }
    {
        Frames { frames }
    }

    /// Puts one frame at the end. After `Memory` the list is as before.
    pub fn push(&mut self, frame: Frame) -> Result<(), Memory>
        ensures ok { OnOk result (self.new ≡ self.old ++ frame ∷ []) }
        ensures unchanged { OnErr result (self.new ≡ self.old) }
    {
        self.frames.push(frame)?;
        Ok(())
    }

    /// The frames, oldest first.
    pub fn as_slice(&self) -> &[Frame]
        ensures { result.now ≡ self.now }
    {
        &self.frames
    }

    /// How many frames there are.
    pub fn len(&self) -> usize
        ensures { result ≡ length self.now }
    {
        self.frames.len()
    }

    /// The frames in the vector that holds them. No memory is taken.
    pub fn into_vec(self) -> Vec<Frame>
        ensures { result.items ≡ self }
    {
        self.frames
    }
}
