//! The cause of an operation.

ghost use Rattle.std.specs.Prelude.{◌≡◌, map, IfOk, option_map};
ghost use Rattle.std.specs.List.{find};
ghost use Rattle.pgs_json.specs.Form.{names_in};
ghost use Rattle.pgs_json.specs.Kinds.{kind_in};
ghost use Rattle.pgs_json.specs.Tree.{view, members_view};
ghost use Rattle.pgs_json_causes.specs.Cause.{tells_other, is_none_of, lacking, both_text, no_member_text, lacks_text, kind_cause, told_cause, object_cause, op_cause};

use crate::member_cause::cause_in_all;
use crate::member_form::{Row, kind_word, members_of_kind};
use crate::member_test::MemberTest;
use crate::shown::{ROOM, of_text, of_text_and, words};
use pgs_base::{Bytes, Memory};
use pgs_base_text::TextBuffer;
use pgs_json::{Json, Kind, Member, kind_in, kind_named, member};
use std::alloc::Global;

/// The tests of members, in their order.
const TESTS: [MemberTest; 5] = [
    MemberTest::Ids,
    MemberTest::Texts,
    MemberTest::Names,
    MemberTest::Parts,
    MemberTest::Values,
];

fn tells_other(kind: Kind, name: &str) -> bool
    ensures { result ≡ tells_other kind name.now }
{
    kind_named(name).is_some() && name != kind_word(kind)
}

/// The first name that tells another kind.
fn other_kind<'a>(kind: Kind, members: &[Member<'a>]) -> Option<&'a str>
    ensures { option_map (λ found. found.now) result ≡ find (tells_other kind) (names_in (members_view members.now)) }
{
    for (name, _) in members {
        if tells_other(kind, name) {
            return Some(*name);
        }
    }
    None
}

fn both_text(alloc: Global, kind: Kind, other: &str) -> Result<Bytes, Memory>
    ensures { IfOk result (λ cause. cause ≡ both_text kind other.now) }
{
    let mut out = TextBuffer::with_room(alloc, ROOM)?;
    out.push(b"is both ")?;
    out.push(kind_word(kind).as_bytes())?;
    out.push(b" and ")?;
    out.push(other.as_bytes())?;
    Ok(out.into_bytes())
}

fn is_none_of(rows: &[Row], name: &str) -> bool
    ensures { result ≡ is_none_of (map (λ row. (row.0.now, row.1)) rows.now) name.now }
{
    for (own, _) in rows {
        if name == *own {
            return false;
        }
    }
    true
}

/// The first name that is none of these.
fn other_member<'a>(rows: &[Row], members: &[Member<'a>]) -> Option<&'a str>
    ensures { option_map (λ found. found.now) result
        ≡ find (is_none_of (map (λ row. (row.0.now, row.1)) rows.now)) (names_in (members_view members.now)) }
{
    for (name, _) in members {
        if is_none_of(rows, name) {
            return Some(*name);
        }
    }
    None
}

fn no_member_text(alloc: Global, kind: Kind, name: &str) -> Result<Bytes, Memory>
    ensures { IfOk result (λ cause. cause ≡ no_member_text kind name.now) }
{
    let word = kind_word(kind);
    let cause = of_text_and(alloc, name, b" is no member of ", word.as_bytes())?;
    Ok(cause)
}

/// The first name that has to be there and isn't.
fn lacking(rows: &[Row], members: &[Member<'_>]) -> Option<&'static str>
    ensures { option_map (λ found. found.now) result
        ≡ lacking (map (λ row. (row.0.now, row.1)) rows.now) (members_view members.now) }
{
    for (name, form) in rows {
        if !form.is_optional() && member(members, name).is_none() {
            return Some(*name);
        }
    }
    None
}

fn lacks_text(alloc: Global, kind: Kind, name: &str) -> Result<Bytes, Memory>
    ensures { IfOk result (λ cause. cause ≡ lacks_text kind name.now) }
{
    let mut out = TextBuffer::with_room(alloc, ROOM)?;
    out.push(kind_word(kind).as_bytes())?;
    out.push(b" lacks ")?;
    out.push_quoted(name.as_bytes())?;
    Ok(out.into_bytes())
}

/// The cause of an object whose members tell this kind.
#[tactic(auto, unfolding(crate::specs::Cause::kind_cause))]
fn kind_cause(alloc: Global, kind: Kind, members: &[Member<'_>]) -> Result<Option<Bytes>, Memory>
    ensures { IfOk result (λ cause. cause ≡ kind_cause kind (members_view members.now)) }
{
    let rows = members_of_kind(kind);
    if let Some(other) = other_kind(kind, members) {
        return Ok(Some(both_text(alloc, kind, other)?));
    }
    if let Some(name) = other_member(rows, members) {
        return Ok(Some(no_member_text(alloc, kind, name)?));
    }
    if let Some(name) = lacking(rows, members) {
        return Ok(Some(lacks_text(alloc, kind, name)?));
    }
    cause_in_all(alloc, &TESTS, rows, members)
}

/// The cause of an object whose first member has this name.
fn told_cause(alloc: Global, first: &str, members: &[Member<'_>]) -> Result<Option<Bytes>, Memory>
    ensures { IfOk result (λ cause. cause
        ≡ told_cause first.now (kind_in (members_view members.now)) (members_view members.now)) }
{
    match kind_in(members) {
        Some(kind) => kind_cause(alloc, kind, members),
        None => Ok(Some(of_text(alloc, first, b" is no operation")?)),
    }
}

fn object_cause(alloc: Global, members: &[Member<'_>]) -> Result<Option<Bytes>, Memory>
    ensures { IfOk result (λ cause. cause ≡ object_cause (members_view members.now)) }
{
    match members {
        [] => Ok(Some(words(alloc, b"is empty")?)),
        [(first, _), ..] => told_cause(alloc, first, members),
    }
}

/// The cause of an operation, without its number.
pub fn op_cause(alloc: Global, value: &Json<'_>) -> Result<Option<Bytes>, Memory>
    ensures { IfOk result (λ cause. cause ≡ op_cause (view value.now)) }
{
    match value.as_object() {
        Some(members) => object_cause(alloc, members),
        None => Ok(Some(words(alloc, b"is no object")?)),
    }
}
