use crate::commit::COMMIT_LIMIT;
use crate::unread::Unread;
use thiserror::Error;

/// Why a line gives no commit.
#[derive(Clone, Copy, Debug, PartialEq, Eq, Error)]
pub enum CommitFault {
    /// There was no memory for it.
    #[error("there is not enough memory")]
    Memory,
    /// The line is no commit.
    #[error("the line is not a commit")]
    Unreadable,
    /// The line has over `COMMIT_LIMIT` bytes.
    #[error("the line is longer than {COMMIT_LIMIT} bytes")]
    LineTooLong,
}

impl From<Unread> for CommitFault {
    ghost use Rattle.std.specs.Prelude.{◌≡◌};
    ghost use Rattle.pgs_json.specs.Commit.{fault_of};

    ghost from_gives = { λ unread fault. fault ≡ fault_of unread };

    fn from(unread: Unread) -> CommitFault {
        match unread {
            Unread::Memory => CommitFault::Memory,
            Unread::Unfit => CommitFault::Unreadable,
        }
    }
}
