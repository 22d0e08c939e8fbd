ghost use Rattle.std.specs.Prelude.{◌≡◌};
ghost use Rattle.pgs_parser.specs.declared.unread.Unread.TheVariants as unread;

use pgs_base::Memory;
use std::alloc::{AllocError, AllocFailed};

/// Why a text wasn't read.
#[derive(Clone, Copy, PartialEq, Eq)]
pub enum Unread {
    /// There was no memory.
    Memory,
    /// The text isn't of the form.
    OtherForm,
}

impl From<Memory> for Unread {
    ghost from_gives = { λ _ e. e ≡ unread.Memory };

    fn from(_: Memory) -> Unread {
        Unread::Memory
    }
}

impl From<AllocError> for Unread {
    ghost from_gives = { λ _ e. e ≡ unread.Memory };

    fn from(_: AllocError) -> Unread {
        Unread::Memory
    }
}

impl<T: Drop> From<AllocFailed<T>> for Unread {
    ghost from_gives = { λ _ e. e ≡ unread.Memory };

    fn from(_: AllocFailed<T>) -> Unread {
        Unread::Memory
    }
}
