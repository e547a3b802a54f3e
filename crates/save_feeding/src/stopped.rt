//! Why files aren't written.

ghost use Rattle.std.specs.Prelude.{◌≡◌};
ghost use Rattle.save_feeding.specs.declared.stopped.Stopped.TheVariants.{Memory as NoMemory};

use sl_base::Memory;
use std::alloc::{AllocError, AllocFailed};

/// Why not all files were written.
#[derive(Clone, Copy, Debug, PartialEq, Eq)]
pub enum Stopped {
    /// A write of the keeper failed.
    Writing,
    /// Out of memory.
    Memory,
}

impl From<Memory> for Stopped {
    ghost from_gives = { λ _ why. why ≡ NoMemory };

    fn from(_: Memory) -> Stopped {
        Stopped::Memory
    }
}

impl From<AllocError> for Stopped {
    ghost from_gives = { λ _ why. why ≡ NoMemory };

    fn from(_: AllocError) -> Stopped {
        Stopped::Memory
    }
}

impl<T: Drop> From<AllocFailed<T>> for Stopped {
    ghost from_gives = { λ _ why. why ≡ NoMemory };

    fn from(_: AllocFailed<T>) -> Stopped {
        Stopped::Memory
    }
}
