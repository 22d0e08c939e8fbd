//! The line of a fault.

ghost use Rattle.std.specs.Prelude.{◌≡◌, IfOk};
ghost use Rattle.pgs_run_follow.specs.Texts.{fault_line, fault_text};

use pgs_answer::{
    bad_commit_text, feed_refused_line, gap_text, line_too_long_at_text, not_a_commit_text,
};
use pgs_base::{Bytes, Limits, Memory};
use pgs_follow::FollowFault;
use std::alloc::Global;

// The text of a fault.
fn fault_text(alloc: Global, fault: FollowFault) -> Result<Bytes, Memory>
    ensures { IfOk result (λ text. text ≡ fault_text fault) }
{
    match fault {
        FollowFault::LineTooLong { line } => line_too_long_at_text(alloc, line),
        FollowFault::BadLine { line } => not_a_commit_text(alloc, line),
        FollowFault::Gap { expected, found } => gap_text(alloc, expected, found),
        FollowFault::BadCommit { commit, cause } => {
            bad_commit_text(alloc, commit, &cause, &Limits::standard())
        }
    }
}

/// The line of a fault: 47 to 50.
pub(crate) fn fault_line(alloc: Global, fault: FollowFault) -> Result<Bytes, Memory>
    ensures { IfOk result (λ line. line ≡ fault_line fault) }
{
    let text = fault_text(alloc, fault)?;
    feed_refused_line(alloc, text.as_slice())
}
