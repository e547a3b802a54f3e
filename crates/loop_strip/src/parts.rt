//! The parts of a strip.

ghost use Rattle.std.specs.Prelude.{◌≡◌, ◌≤◌, [], is_some, IsTrue, IfOk};
ghost use Rattle.sl_base.specs.Limits.{max_chunks};
ghost use Rattle.sl_commands.specs.Settings.{is_strip};
ghost use Rattle.looper_rules.specs.Run.{first_loop};
ghost use Rattle.looper_rules.specs.Loop.{face_of};
ghost use Rattle.loop_strip.specs.Parts.{loop_of, strip_of, IsWhole};

use crate::deck::{Controls, Deck};
use layer_memory::Layers;
use sl_base::Memory;
use sl_commands::{Face, StripSettings};
use std::alloc::Global;

/// A loop over its layers. `refused` is how often something was refused, and `pinned` says whether
/// a pin stands.
#[derive(Drop)]
pub(crate) struct Parts {
    pub(crate) deck: Deck,
    pub(crate) controls: Controls,
    pub(crate) refused: u32,
    pub(crate) pinned: bool,
    pub(crate) layers: Layers,
}

impl Parts {
    /// A loop that is Off, with these controls.
    #[tactic(auto, using(crate::proofs::SavingLemmas::new_whole))]
    pub(crate) fn new(alloc: Global, settings: &StripSettings, chunks: u32) -> Result<Parts, Memory>
        requires settings { IsTrue (is_strip settings.now) }
        requires chunks { chunks ≤ max_chunks }
        ensures value { IfOk result
            (λ s. strip_of s ≡ record {
              loop = first_loop [] settings.now;
              tape =
                  record { chunks = []; len = 0; room = chunks };
            }) }
        ensures whole { IfOk result (λ s. IsWhole s) }
    {
        match Layers::new(alloc, chunks) {
            Err(_) => Err(Memory),
            Ok(layers) => Ok(Parts {
                deck: Deck::new(),
                controls: Controls::of(settings),
                refused: 0,
                pinned: false,
                layers,
            }),
        }
    }

    /// What is seen of the loop.
    pub(crate) fn face(&self) -> Face
        requires whole { IsWhole self.now }
        ensures { result ≡ face_of (loop_of self.now) }
    {
        let sizes = self.layers.sizes();
        Face {
            mode: self.deck.mode,
            rounding: self.deck.rounding,
            pos: self.deck.pos,
            backward: self.deck.backward,
            length: sizes.length,
            cycle: sizes.cycle,
            base: sizes.base,
            layers: sizes.layers,
            redo: sizes.redo,
            waiting: self.deck.waiting,
            press: self.deck.press,
            refused: self.refused,
            pinned: self.pinned,
        }
    }
}
