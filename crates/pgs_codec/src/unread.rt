ghost use Rattle.std.specs.Prelude.{◌≡◌};
ghost use Rattle.pgs_codec.specs.declared.unread.Unread.TheVariants.{Memory as OutOfMemory, Unfit as NotFit};

use pgs_base::Memory;
use std::alloc::{AllocError, AllocFailed};

/// The bytes are not those of what is read.
#[derive(Clone, Copy, PartialEq, Eq)]
pub(crate) struct Unfit;

/// Why nothing was read.
#[derive(Clone, Copy, PartialEq, Eq)]
pub(crate) enum Unread {
    /// There was no memory for it.
    Memory,
    /// The bytes are not those of what is read.
    Unfit,
}

impl From<Unfit> for Unread {
    ghost from_gives = { λ _ e. e ≡ NotFit };

    fn from(_: Unfit) -> Unread {
        Unread::Unfit
    }
}

impl From<Memory> for Unread {
    ghost from_gives = { λ _ e. e ≡ OutOfMemory };

    fn from(_: Memory) -> Unread {
        Unread::Memory
    }
}

impl From<AllocError> for Unread {
    ghost from_gives = { λ _ e. e ≡ OutOfMemory };

    fn from(_: AllocError) -> Unread {
        Unread::Memory
    }
}

impl<T: Drop> From<AllocFailed<T>> for Unread {
    ghost from_gives = { λ _ e. e ≡ OutOfMemory };

    fn from(_: AllocFailed<T>) -> Unread {
        Unread::Memory
    }
}
