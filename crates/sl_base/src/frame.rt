//! One moment's sample on both sides.

ghost use Rattle.std.specs.Prelude.{◌≡◌};
ghost use Rattle.sl_base.specs.Sounds.{silence};

use std::marker::Model;

/// One moment's sample on both sides, each -8388608 to 8388607.
#[derive(Clone, Copy, Debug, Default, PartialEq, Eq)]
pub struct Frame {
    pub left: i32,
    pub right: i32,
}

impl Model for Frame {
    ghost use Rattle.std.specs.Prelude.{pos, negsuc, ◌≤ℤ◌};
    ghost use Rattle.sl_base.specs.Arithmetic.{IsSample};
    ghost use Rattle.sl_base.specs.Sounds.{Sound};

    ghost Value = { Sound };

    ghost view = { λ f. record { left = f.left; right = f.right } };

    ghost invariant = { λ f. IsSample f.left × IsSample f.right };

    ghost inverse = { λ s. record { left = s.left; right = s.right } };
}

impl Frame {
    /// Both sides at zero.
    pub fn silence() -> Frame
        ensures { result ≡ silence }
    {
        Frame { left: 0, right: 0 }
    }
}
