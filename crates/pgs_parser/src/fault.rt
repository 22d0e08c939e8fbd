ghost use Rattle.std.specs.Prelude.{◌≡◌};
ghost use Rattle.pgs_parser.specs.declared.fault.ParseFault.TheVariants as faults;

use std::alloc::AllocFailed;

/// Why tokens are no script.
#[derive(Clone, Copy, PartialEq, Eq)]
pub enum ParseFault {
    /// There was no memory for the tree.
    Memory,
    /// The tokens up to the semicolon of this number, from 1, or those after the last one, are no statement, and all
    /// earlier ones are.
    Syntax { statement: u64 },
}

impl<T: Drop> From<AllocFailed<T>> for ParseFault {
    ghost from_gives = { λ _ e. e ≡ faults.Memory };

    fn from(_: AllocFailed<T>) -> ParseFault {
        ParseFault::Memory
    }
}
