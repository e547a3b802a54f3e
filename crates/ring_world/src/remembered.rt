//! Outcomes of saves that weren't put yet.

ghost use Rattle.std.specs.Prelude.{◌≡◌, [], ◌++◌, drop, slice_get, option_to_list, OnOk, OnErr};
ghost use Rattle.ring_world.specs.Rings.{passed_on};

use crate::ring::Ring;
use sl_base::Memory;
use sl_commands::Block;
use std::alloc::Global;
use std::collections::VecDeque;
use std::marker::Model;

/// Outcomes, oldest first.
#[derive(Drop)]
pub struct Remembered {
    outcomes: VecDeque<u8>,
}

impl Model for Remembered {
    ghost use Rattle.std.specs.Prelude.{ℕ, List};

    ghost Value = { List ℕ };

    ghost view = { λ r. r.outcomes.items };
}

impl Remembered {
    /// None yet.
    pub fn new(alloc: Global) -> Remembered
        ensures { result ≡ [] }
    {
        Remembered {
            outcomes: VecDeque::new(alloc),
        }
    }

    /// The oldest outcome.
    pub fn first(&self) -> Option<u8>
        ensures { result ≡ slice_get self.now 0 }
    {
        self.outcomes.front().copied()
    }

    /// Takes the next block from its ring, and puts the outcome that it gives behind the others.
    pub fn keep(&mut self, outcome: Option<u8>, blocks: &mut Ring<Block>) -> Result<(), Memory>
        ensures ok { OnOk result (self.new ≡ self.old ++ option_to_list outcome) }
        ensures passed { OnOk result (blocks.new ≡ passed_on blocks.old) }
        ensures unchanged { OnErr result (self.new ≡ self.old) }
        ensures same { OnErr result (blocks.new ≡ blocks.old) }
    {
        self.outcomes.reserve(1)?;
        blocks.pass()?;
        if let Some(outcome) = outcome {
            self.outcomes.push_back_reserved(outcome);
        }
        Ok(())
    }

    /// Forgets the oldest outcome.
    pub fn forget(&mut self)
        ensures { self.new ≡ drop 1 self.old }
    {
        self.outcomes.pop_front();
    }
}
