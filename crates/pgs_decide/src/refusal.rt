use pgs_base::Memory;
use pgs_violation::Rejection;
use thiserror::Error;

/// Why a guard didn't take a transaction.
#[derive(Debug, Drop, Error)]
pub enum GuardRefusal {
    /// There was no memory.
    #[error("there is not enough memory")]
    Memory,
    /// The transaction is rejected.
    #[error("the transaction is rejected")]
    Rejected(Rejection),
}

impl From<Memory> for GuardRefusal {
    ghost use Rattle.std.specs.Prelude.{◌≡◌};
    ghost use Rattle.pgs_decide.specs.declared.refusal.GuardRefusal.TheVariants as faults;

    ghost from_gives = { λ _ e. e ≡ faults.Memory };

    fn from(_: Memory) -> GuardRefusal {
        GuardRefusal::Memory
    }
}
