//! The frames that a world put out.

ghost use Rattle.std.specs.Prelude.{◌≡◌, ◌≤◌, ◌+◌, ◌++◌, [], length, OnOk, OnErr};
ghost use Rattle.sl_base.specs.Limits.{max_session_frames};
ghost use Rattle.engine_steps.specs.Engines.{went_on, put_out};

use looper_engine::Engine;
use sl_base::{Frame, Memory};
use std::alloc::Global;
use std::marker::Model;

/// All frames, oldest first.
#[derive(Drop)]
pub struct Output {
    frames: Vec<Frame>,
}

impl Model for Output {
    ghost use Rattle.std.specs.Prelude.{List};
    ghost use Rattle.sl_base.specs.Sounds.{Sound};

    ghost Value = { List Sound };

    ghost view = { λ o. o.frames.items };
}

impl Output {
    /// None yet.
    pub fn new(alloc: Global) -> Output
        ensures { result ≡ [] }
    {
        Output {
            frames: Vec::new(alloc),
        }
    }

    /// Lets the engine play these frames, and keeps what it puts out.
    pub fn play(&mut self, engine: &mut Engine, input: &[Frame]) -> Result<(), Memory>
        requires limit { engine.old.frames + length input.now ≤ max_session_frames }
        ensures ok { OnOk result (self.new ≡ self.old ++ put_out input.now engine.old) }
        ensures engine { OnOk result (engine.new ≡ went_on input.now engine.old) }
        ensures unchanged { OnErr result (self.new ≡ self.old) }
        ensures same { OnErr result (engine.new ≡ engine.old) }
    {
        let done = self.frames.len();
        self.frames.resize(done + input.len(), Frame::silence())?;
        engine.frames(input, &mut self.frames[done..]);
        Ok(())
    }

    /// All frames, oldest first.
    pub fn as_slice(&self) -> &[Frame]
        ensures { result.now ≡ self.now }
    {
        &self.frames
    }
}
