//! The lines of a feed: each is a commit, a number and a transaction.

ghost use Rattle.std.specs.Prelude.{◌≡◌, codes, option_map, option_and_then};
ghost use Rattle.serde_json.specs.Read.{read};
ghost use Rattle.pgs_json.specs.Commit.{number_of, commit_form, commit_of, ReadsCommit};
ghost use Rattle.pgs_json.specs.Form.{ops_of, part};
ghost use Rattle.pgs_json.specs.Tree.{view};
ghost use Rattle.pgs_json.specs.Unread.{Gives};

use crate::commit_fault::CommitFault;
use crate::json_op::ops;
use crate::json_part::{has_only, id_part};
use crate::tree::Json;
use crate::unread::Unread;
use json::Scratch;
use pgs_base::List;
use pgs_graph::{Op, Txn};
use std::alloc::Global;
use std::str;

/// The most bytes of a line of a feed (docs/FORMATS.md).
pub const COMMIT_LIMIT: usize = 2_097_152;

/// The number that a member is, which has to be there: an id that isn't 0.
fn number_part(part: Option<&Json<'_>>) -> Result<u64, Unread>
    ensures { Gives (λ x. x) result (option_and_then number_of (option_map (λ value. view value.now) part.entry)) }
{
    let number = id_part(part)?;
    if number == 0 {
        return Err(Unread::Unfit);
    }
    Ok(number)
}

/// The operations that a member is, which has to be there.
fn ops_part(alloc: Global, part: Option<&Json<'_>>) -> Result<List<Op>, Unread>
    ensures { Gives (λ x. x) result (option_and_then ops_of (option_map (λ value. view value.now) part.entry)) }
{
    match part {
        Some(value) => ops(alloc, value),
        None => Err(Unread::Unfit),
    }
}

/// The commit that a JSON value is.
#[tactic(auto, unfolding(crate::specs::Commit::commit_form))]
fn commit(alloc: Global, value: &Json<'_>) -> Result<(u64, Txn), Unread>
    ensures { Gives (λ x. x) result (commit_form (view value.now)) }
{
    if !has_only(value, &["commit", "ops"]) {
        return Err(Unread::Unfit);
    }
    let number = number_part(value.get("commit"))?;
    let ops = ops_part(alloc, value.get("ops"))?;
    Ok((number, Txn { ops }))
}

fn text_commit(alloc: Global, text: &str, scratch: &mut Scratch) -> Result<(u64, Txn), Unread>
    ensures { Gives (λ x. x) result (option_and_then commit_form (read text.now)) }
{
    let value = Json::from_str(alloc, text, scratch)?;
    commit(alloc, &value)
}

/// The commit of a line of whatever length.
#[tactic(auto, using(crate::proofs::Commits::line_text, crate::proofs::Commits::line_none))]
fn line_commit(alloc: Global, line: &[u8], scratch: &mut Scratch) -> Result<(u64, Txn), Unread>
    ensures { Gives (λ x. x) result (commit_of line.now) }
{
    match str::from_utf8(line) {
        Ok(text) => text_commit(alloc, text, scratch),
        Err(_) => Err(Unread::Unfit),
    }
}

/// The commit of a line as `read_commit` reads it, with what reading writes to lent.
#[tactic(auto, unfolding(crate::specs::Commit::read_commit_line))]
pub fn read_commit_in(
    alloc: Global,
    line: &[u8],
    scratch: &mut Scratch,
) -> Result<(u64, Txn), CommitFault>
    ensures { ReadsCommit result line.now }
{
    if line.len() > COMMIT_LIMIT {
        return Err(CommitFault::LineTooLong);
    }
    Ok(line_commit(alloc, line, scratch)?)
}

/// The commit of a line of a feed, given without its line feed: its number, from 1, and its transaction. `LineTooLong` exactly where
/// it has over `COMMIT_LIMIT` bytes, else `Unreadable` exactly where it is no JSON text or its value isn't an object with the two members
/// `commit`, an id of at least 1, and `ops`, as docs/FORMATS.md tells. Many lines are read by a `LineReader`.
pub fn read_commit(alloc: Global, line: &[u8]) -> Result<(u64, Txn), CommitFault>
    ensures { ReadsCommit result line.now }
{
    let mut scratch = Scratch::new(alloc);
    read_commit_in(alloc, line, &mut scratch)
}
