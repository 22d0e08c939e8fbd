//! The cause for which a JSON value is no transaction.

ghost use Rattle.std.specs.Prelude.{◌≡◌, ◌++◌, codes, decimal, IfOk, OnOk, option_map};
ghost use Rattle.std.specs.List.{find};
ghost use Rattle.pgs_json.specs.Form.{names_in};
ghost use Rattle.pgs_json.specs.Tree.{view, items_view, members_view};
ghost use Rattle.pgs_json_causes.specs.Cause.{is_not_ops, numbered, ops_cause, ops_member_cause, line_object_cause, cause_of};

use crate::operation::op_cause;
use crate::shown::{of_text, words};
use pgs_base::{Bytes, Memory};
use pgs_base_text::TextBuffer;
use pgs_json::{Json, Member, member};
use std::alloc::Global;

/// The most bytes that stand before the cause of an operation.
const BEFORE: usize = 32;

/// Puts the number of an operation last.
fn push_op(number: u64, out: &mut TextBuffer) -> Result<(), Memory>
    ensures { OnOk result (out.new ≡ out.old ++ (codes "op " ++ (decimal number ++ codes ": "))) }
{
    out.push(b"op ")?;
    out.push_number(number)?;
    out.push(b": ")
}

/// A cause behind the number of its operation.
fn numbered(alloc: Global, number: u64, cause: &[u8]) -> Result<Bytes, Memory>
    ensures { IfOk result (λ text. text ≡ numbered number cause.now) }
{
    let mut out = TextBuffer::with_room(alloc, cause.len().saturating_add(BEFORE))?;
    push_op(number, &mut out)?;
    out.push(cause)?;
    Ok(out.into_bytes())
}

/// The cause of the first operation at fault, with its number from 1.
fn ops_cause(alloc: Global, items: &[Json<'_>]) -> Result<Option<Bytes>, Memory>
    ensures { IfOk result (λ cause. cause ≡ ops_cause 1 (items_view items.now)) }
{
    for (at, item) in items.iter().enumerate() {
        if let Some(cause) = op_cause(alloc, item)? {
            return Ok(Some(numbered(alloc, at as u64 + 1, cause.as_slice())?));
        }
    }
    Ok(None)
}

fn ops_member_cause(alloc: Global, part: Option<&Json<'_>>) -> Result<Option<Bytes>, Memory>
    ensures { IfOk result (λ cause. cause ≡ ops_member_cause (option_map (λ value. view value.now) part.entry)) }
{
    let Some(value) = part else {
        return Ok(Some(words(alloc, b"the line lacks \"ops\"")?));
    };
    match value.as_array() {
        Some(items) => ops_cause(alloc, items),
        None => Ok(Some(words(alloc, b"\"ops\" is no list")?)),
    }
}

/// The first member that a line may not have.
fn other_member<'a>(members: &[Member<'a>]) -> Option<&'a str>
    ensures { option_map (λ found. found.now) result ≡ find is_not_ops (names_in (members_view members.now)) }
{
    for (name, _) in members {
        if "ops" != *name {
            return Some(*name);
        }
    }
    None
}

fn object_cause(alloc: Global, members: &[Member<'_>]) -> Result<Option<Bytes>, Memory>
    ensures { IfOk result (λ cause. cause ≡ line_object_cause (Some (members_view members.now))) }
{
    match other_member(members) {
        Some(name) => Ok(Some(of_text(alloc, name, b" is no member of a line")?)),
        None => ops_member_cause(alloc, member(members, "ops")),
    }
}

/// The cause for which a JSON value is no transaction. `None` where it is one.
#[tactic(auto, unfolding(crate::specs::Cause::cause_of))]
pub fn cause_of(alloc: Global, value: &Json<'_>) -> Result<Option<Bytes>, Memory>
    ensures { IfOk result (λ cause. cause ≡ cause_of (view value.now)) }
{
    match value.as_object() {
        Some(members) => object_cause(alloc, members),
        None => Ok(Some(words(alloc, b"the line is no object")?)),
    }
}
