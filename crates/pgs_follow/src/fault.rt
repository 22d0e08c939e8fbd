use pgs_json::COMMIT_LIMIT;
use pgs_violation::Structural;
use thiserror::Error;

/// Why a feed is followed no further. The first fault ends it.
#[derive(Clone, Copy, Debug, PartialEq, Eq, Error)]
pub enum FollowFault {
    /// 47: this line, from 1, has over `COMMIT_LIMIT` bytes, whether it is ended or not.
    #[error("line {line} is longer than {COMMIT_LIMIT} bytes")]
    LineTooLong { line: u64 },
    /// 48: this line, from 1, is no commit.
    #[error("line {line} is not a commit")]
    BadLine { line: u64 },
    /// 49: the next commit is `expected`, and a line is of commit `found`, which is greater.
    #[error("commit {expected} is missing before commit {found}")]
    Gap { expected: u64, found: u64 },
    /// 50: the transaction of this commit can't be staged.
    #[error("commit {commit} cannot be done")]
    BadCommit { commit: u64, cause: Structural },
}
