use crate::unread::Unread;
use pgs_base::TEXT_LIMIT;
use thiserror::Error;

/// Why a line gives no transaction.
#[derive(Clone, Copy, Debug, PartialEq, Eq, Error)]
pub enum LineFault {
    /// There was no memory for it.
    #[error("there is not enough memory")]
    Memory,
    /// The line is no transaction.
    #[error("the line is not a transaction")]
    Unreadable,
    /// The line has over `TEXT_LIMIT` bytes.
    #[error("the line is longer than {TEXT_LIMIT} bytes")]
    LineTooLong,
}

impl From<Unread> for LineFault {
    ghost use Rattle.std.specs.Prelude.{◌≡◌};
    ghost use Rattle.pgs_json.specs.Line.{fault_of};

    ghost from_gives = { λ unread fault. fault ≡ fault_of unread };

    fn from(unread: Unread) -> LineFault {
        match unread {
            Unread::Memory => LineFault::Memory,
            Unread::Unfit => LineFault::Unreadable,
        }
    }
}
