//! Why no looper is made.

ghost use Rattle.std.specs.Prelude.{◌≡◌};
ghost use Rattle.whole_looper.specs.declared.fault.BeginFault.TheVariants.{Memory as NoRoom};

use sl_base::Memory;

/// Why a looper doesn't begin.
#[derive(Clone, Copy, Debug, PartialEq, Eq)]
pub enum BeginFault {
    /// The lists need more chunks than there are.
    Limit,
    /// There was no memory.
    Memory,
}

impl From<Memory> for BeginFault {
    ghost from_gives = { λ _ fault. fault ≡ NoRoom };

    fn from(_: Memory) -> BeginFault {
        BeginFault::Memory
    }
}
