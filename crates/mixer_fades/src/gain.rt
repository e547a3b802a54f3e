//! A gain that moves toward its target by steps.

ghost use Rattle.std.specs.Prelude.{◌≡◌, ◌≤◌};
ghost use Rattle.looper_rules.specs.Gains.{gain_after};

use std::marker::Model;

/// A number of thousandths, 0 to 1000.
#[derive(Drop)]
pub struct Gain {
    value: u16,
}

impl Model for Gain {
    ghost use Rattle.std.specs.Prelude.{ℕ, ◌≤◌};

    ghost Value = { ℕ };

    ghost view = { λ g. g.value };

    ghost invariant = { λ g. g.value ≤ 1000 };
}

impl Gain {
    /// A gain of so many thousandths.
    pub fn new(value: u16) -> Gain
        requires { value ≤ 1000 }
        ensures { result ≡ value }
    {
        Gain { value }
    }

    /// Moves by at most `by` toward `target`, and gives the new value.
    pub fn step(&mut self, target: u16, by: u16) -> u16
        requires target { target ≤ 1000 }
        requires by { by ≤ 1000 }
        ensures value { result ≡ gain_after self.old target by }
        ensures new { self.new ≡ result }
        ensures within { result ≤ 1000 }
    {
        let value = if self.value <= target {
            target.min(self.value + by)
        } else {
            target.max(self.value.saturating_sub(by))
        };
        self.value = value;
        value
    }
}
