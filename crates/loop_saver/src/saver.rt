//! Taking the blocks of saves.

ghost use Rattle.std.specs.Prelude.{◌≡◌, ◌≤◌, Some, None, true, IsTrue};
ghost use Rattle.sl_base.specs.Limits.{max_rate};
ghost use Rattle.sl_commands.specs.Settings.{is_rate};
ghost use Rattle.loop_saver.specs.Savers.{may_come};
ghost use Rattle.loop_saver.specs.Accepting.{Accepts};

use crate::ending::Ending;
use crate::saving::Saving;
use sl_commands::{Block, Target};
use sl_ports::Keeper;
use std::alloc::Global;
use std::marker::Model;

/// What came of a block.
#[derive(Clone, Copy, PartialEq, Eq)]
pub enum Saved {
    /// The save goes on.
    Continue,
    /// The save of this target has ended: 0 written, 1 a write of the keeper failed, 4 out of
    /// memory.
    Finished(Target, u8),
}

/// Writes the files of saves, block by block.
#[derive(Drop)]
pub struct Saver {
    rate: u32,
    saving: Option<Saving>,
}

impl Model for Saver {
    ghost use Rattle.std.specs.Prelude.{IsTrue};
    ghost use Rattle.sl_commands.specs.Settings.{is_rate};
    ghost use Rattle.loop_saver.specs.Savers.{SaverOf};

    ghost Value = { SaverOf };

    ghost view = { λ s. record { rate = s.rate; saving = s.saving } };

    ghost invariant = { λ s. IsTrue (is_rate s.rate) };
}

impl Saver {
    /// A saver before all saves. `rate` is that of the WAV files that it writes, in frames a
    /// second.
    pub fn new(rate: u32) -> Saver
        requires { IsTrue (is_rate rate) }
        ensures { result ≡ record { rate = rate; saving = None } }
    {
        Saver { rate, saving: None }
    }

    /// Takes the next block, and writes the files that it shows to be whole. Want of memory ends
    /// the save, not the call.
    pub fn accept<P: Keeper>(&mut self, alloc: Global, keeper: &mut P, block: &Block) -> Saved
        requires next { IsTrue (may_come self.old.saving block.now) }
        ensures rate { self.new.rate ≡ self.old.rate }
        ensures reads { P.read_faults keeper.new ≡ P.read_faults keeper.old }
        ensures accepted { Accepts P.Keeper self.old.rate block.now self.old.saving self.new.saving
            keeper.old keeper.new result }
    {
        match block {
            Block::Head {
                save: _,
                name,
                target,
                settings,
            } => {
                self.saving = Some(Saving::begin(alloc, name, *target, settings));
                Saved::Continue
            }
            Block::Part {
                save: _,
                index,
                frames,
            } => match &mut self.saving {
                Some(saving) => {
                    saving.take_part(alloc, keeper, self.rate, *index, frames);
                    Saved::Continue
                }
                None => unreachable!(),
            },
            Block::End { save: _ } => match self.saving.take() {
                Some(saving) => {
                    let ending = saving.end(alloc, keeper, self.rate);
                    Saved::Finished(saving.target(), ending.number())
                }
                None => unreachable!(),
            },
        }
    }
}
