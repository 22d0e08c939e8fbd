use std::alloc::AllocFailed;

/// Why nothing was read.
#[derive(Clone, Copy, PartialEq, Eq)]
pub enum Unread {
    /// There was no memory for it.
    Memory,
    /// What was given isn't of the form that is read.
    Unfit,
}

impl From<pgs_base::Memory> for Unread {
    ghost use Rattle.std.specs.Prelude.{◌≡◌};
    ghost use Rattle.pgs_json.specs.declared.unread.Unread.TheVariants.{Memory as OutOfMemory};

    ghost from_gives = { λ _ e. e ≡ OutOfMemory };

    fn from(_: pgs_base::Memory) -> Unread {
        Unread::Memory
    }
}

impl<T: Drop> From<AllocFailed<T>> for Unread {
    ghost use Rattle.std.specs.Prelude.{◌≡◌};
    ghost use Rattle.pgs_json.specs.declared.unread.Unread.TheVariants.{Memory as OutOfMemory};

    ghost from_gives = { λ _ e. e ≡ OutOfMemory };

    fn from(_: AllocFailed<T>) -> Unread {
        Unread::Memory
    }
}

impl From<json::Invalid> for Unread {
    ghost use Rattle.std.specs.Prelude.{◌≡◌};
    ghost use Rattle.pgs_json.specs.declared.unread.Unread.TheVariants.{Unfit};

    ghost from_gives = { λ _ e. e ≡ Unfit };

    fn from(_: json::Invalid) -> Unread {
        Unread::Unfit
    }
}
