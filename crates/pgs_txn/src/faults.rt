ghost use Rattle.std.specs.Prelude.{◌≡◌};
ghost use Rattle.pgs_txn.specs.Answers.{fault_at};

use pgs_base::Memory;
use pgs_violation::{Cause, Structural};

/// Why a transaction was not staged.
#[derive(Clone, Copy, PartialEq, Eq)]
pub enum StageFault {
    /// There was no memory for it.
    Memory,
    /// The transaction is refused.
    Refused(Structural),
}

/// Why an operation was not done.
#[derive(Clone, Copy, PartialEq, Eq)]
pub(crate) enum OpFault {
    /// There was no memory for it.
    Memory,
    /// It can't be done.
    Unable(Cause),
    /// Its element would have over 64 labels or 256 properties.
    TooLarge,
}

impl From<Memory> for OpFault {
    ghost use Rattle.std.specs.Prelude.{◌≡◌};
    ghost use Rattle.pgs_txn.specs.declared.faults.OpFault.TheVariants as faults;

    ghost from_gives = { λ _ e. e ≡ faults.Memory };

    fn from(_: Memory) -> OpFault {
        OpFault::Memory
    }
}

impl From<Memory> for StageFault {
    ghost use Rattle.std.specs.Prelude.{◌≡◌};
    ghost use Rattle.pgs_txn.specs.declared.faults.StageFault.TheVariants as faults;

    ghost from_gives = { λ _ e. e ≡ faults.Memory };

    fn from(_: Memory) -> StageFault {
        StageFault::Memory
    }
}

impl OpFault {
    /// The fault of the operation at a place, from 1, as that of its transaction.
    pub fn at(self, place: u64) -> StageFault
        ensures { result ≡ fault_at place self }
    {
        match self {
            OpFault::Memory => StageFault::Memory,
            OpFault::Unable(cause) => StageFault::Refused(Structural::BadOp { op: place, cause }),
            OpFault::TooLarge => StageFault::Refused(Structural::ElementTooLarge { op: place }),
        }
    }
}
