//! What goes on in a run.

ghost use Rattle.std.specs.Prelude.{◌≡◌, ◌≤◌, ◌<◌, ◌-◌, length};
ghost use Rattle.std.specs.String.{string_bytes};

use crate::ending::Performed;
use loop_saver::Saver;
use looper_engine::Engine;
use periods::Period;
use std::marker::Model;

/// What goes on in a run: the engine, the saver, the buffers of a period, OUT as far as it was
/// heard, and what was told, and in how many replies.
#[derive(Drop)]
pub struct Run {
    pub engine: Engine,
    pub saver: Saver,
    pub period: Period,
    pub out: Vec<u8>,
    pub text: String,
    pub replies: usize,
}

impl Model for Run {
    ghost use Rattle.std.specs.String.{string_bytes};
    ghost use Rattle.journal_run.specs.Runs.{RunOf, run_of};

    ghost Value = { RunOf };

    ghost view = { λ r. run_of r.engine r.saver r.period r.out.items (string_bytes r.text)
        r.replies };
}

impl Run {
    /// How many frames were played.
    pub fn done(&self) -> usize
        ensures { result ≡ self.now.engine.frames }
    {
        self.engine.frames_done() as usize
    }

    /// How many frames are played next, on the way up to so many.
    pub fn next_span(&self, until: usize) -> usize
        requires { self.now.engine.frames < until }
        ensures some { 1 ≤ result }
        ensures most { result ≤ length self.now.period.frames }
        ensures within { result ≤ until - self.now.engine.frames }
    {
        (until - self.done()).min(self.period.most())
    }

    /// What the run gives.
    pub fn into_performed(self) -> Performed
        ensures out { result.out.items ≡ self.out }
        ensures text { string_bytes result.text ≡ self.text }
    {
        Performed {
            out: self.out,
            text: self.text,
        }
    }
}
