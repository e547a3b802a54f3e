//! What a save tells, and pins for it.

ghost use Rattle.std.specs.Prelude.{◌≡◌, ℕ};
ghost use Rattle.std.specs.declared.option.Option.TheVariants.{None};
ghost use Rattle.looper_rules.specs.Loop.{with_stack};
ghost use Rattle.looper_rules.specs.Saves.{pinned, unpinned, strip_of as settings_of};
ghost use Rattle.loop_strip.specs.Strips.{DidAlone};
ghost use Rattle.loop_strip.specs.Parts.{loop_of, strip_of, IsWhole};

use crate::modes::saved_cycle;
use crate::parts::Parts;
use sl_commands::StripSettings;

impl Parts {
    /// The settings that a save tells.
    pub(crate) fn settings(&self) -> StripSettings
        requires whole { IsWhole self.now }
        ensures { result ≡ settings_of (loop_of self.now) }
    {
        let sizes = self.layers.sizes();
        StripSettings {
            length: sizes.length,
            cycle: saved_cycle(self.deck.mode, sizes.length, sizes.cycle),
            feedback: self.controls.feedback,
            wet: self.controls.wet,
            round: self.controls.round,
            quantize: self.controls.quantize,
            rec_thresh: self.controls.rec_thresh,
        }
    }

    /// Pins the list.
    #[tactic(auto, using(crate::proofs::SavingLemmas::pinning))]
    pub(crate) fn pin(&mut self)
        requires whole { IsWhole self.old }
        requires free { self.old.layers.stack.pin ≡ None }
        ensures did { DidAlone (λ reach l. with_stack (pinned l.stack) l) (strip_of self.old)
            (strip_of self.new) }
        ensures whole { IsWhole self.new }
    {
        self.layers.pin();
        self.layers.facts();
        self.pinned = true;
    }

    /// Takes the pin away.
    #[tactic(auto, using(crate::proofs::SavingLemmas::pinning))]
    pub(crate) fn release_pin(&mut self)
        requires whole { IsWhole self.old }
        ensures did { DidAlone (λ reach l. with_stack (unpinned l.stack) l) (strip_of self.old)
            (strip_of self.new) }
        ensures whole { IsWhole self.new }
    {
        self.layers.release();
        self.layers.facts();
        self.pinned = false;
    }
}
