//! The causes of a member of an operation, by the test that finds one.

ghost use Rattle.std.specs.Prelude.{◌≡◌, ◌++◌, None, codes, decimal, not, map, IfOk, Some, option_map, option_and_then};
ghost use Rattle.std.specs.List.{find};
ghost use Rattle.pgs_base.specs.Name.{is_name};
ghost use Rattle.pgs_base_text.specs.Text.{quoted};
ghost use Rattle.serde_json.specs.Find.{get_member};
ghost use Rattle.pgs_json.specs.Form.{names_in, name_in};
ghost use Rattle.pgs_json.specs.Tree.{view, items_view, members_view};
ghost use Rattle.pgs_json_causes.specs.Cause.{value_cause, first_value_cause, no_name, lesser_text, lesser, least_no_name, first_no_text, no_name_in, id_cause, text_cause, text_at_fault, name_cause, parts_cause, values_cause, cause_by, cause_in, cause_in_all};

use crate::member_form::{MemberForm, Row};
use crate::member_test::MemberTest;
use crate::shown::{ROOM, of_member, of_text_and};
use crate::value_fault::value_fault;
use pgs_base::{Bytes, Memory, Name};
use pgs_base_text::TextBuffer;
use pgs_json::{Json, Member, member};
use std::alloc::Global;

/// A member's name, quoted, and words behind it, as a cause.
fn member_told(alloc: Global, name: &str, words: &[u8]) -> Result<Option<Bytes>, Memory>
    ensures { IfOk result (λ cause. cause ≡ Some (quoted name.now ++ words.now)) }
{
    let text = of_member(alloc, name, words)?;
    Ok(Some(text))
}

/// A member that has to be an id.
fn id_cause(
    alloc: Global,
    name: &str,
    form: MemberForm,
    value: &Json<'_>,
) -> Result<Option<Bytes>, Memory>
    ensures { IfOk result (λ cause. cause ≡ id_cause name.now form (view value.now)) }
{
    match (form, value.as_u64()) {
        (MemberForm::Id, None) => member_told(alloc, name, b" is no id"),
        _ => Ok(None),
    }
}

/// The first item that is no text, from 1.
fn first_no_text(items: &[Json<'_>]) -> Option<u64>
    ensures { result ≡ first_no_text 1 (items_view items.now) }
{
    for (at, item) in items.iter().enumerate() {
        if item.as_str().is_none() {
            return Some(at as u64 + 1);
        }
    }
    None
}

fn item_cause(alloc: Global, name: &str, number: u64) -> Result<Bytes, Memory>
    ensures { IfOk result (λ cause. cause
        ≡ codes "item " ++ (decimal number ++ (codes " of " ++ (quoted name.now ++ codes " is no name")))) }
{
    let mut out = TextBuffer::with_room(alloc, ROOM)?;
    out.push(b"item ")?;
    out.push_number(number)?;
    out.push(b" of ")?;
    out.push_quoted(name.as_bytes())?;
    out.push(b" is no name")?;
    Ok(out.into_bytes())
}

/// A member that has to be a text, or a list of texts.
fn text_cause(
    alloc: Global,
    name: &str,
    form: MemberForm,
    value: &Json<'_>,
) -> Result<Option<Bytes>, Memory>
    ensures { IfOk result (λ cause. cause ≡ text_cause name.now form (view value.now)) }
{
    match form {
        MemberForm::Name => match value.as_str() {
            Some(_) => Ok(None),
            None => member_told(alloc, name, b" is no name"),
        },
        MemberForm::Labels => match value.as_array().and_then(|items| first_no_text(items)) {
            Some(number) => Ok(Some(item_cause(alloc, name, number)?)),
            None => Ok(None),
        },
        MemberForm::Id | MemberForm::Value | MemberForm::Props => Ok(None),
    }
}

/// A text that is no name.
fn no_name<'a>(text: &'a str) -> Option<&'a str>
    ensures { option_map (λ found. found.now) result ≡ no_name text.now }
{
    if Name::is_name(text.as_bytes()) {
        None
    } else {
        Some(text)
    }
}

fn lesser<'a>(a: Option<&'a str>, b: Option<&'a str>) -> Option<&'a str>
    ensures { option_map (λ found. found.now) result
        ≡ lesser (option_map (λ text. text.now) a.entry) (option_map (λ text. text.now) b.entry) }
{
    match (a, b) {
        (Some(a), Some(b)) => if b.cmp(a).is_lt() { Some(b) } else { Some(a) },
        (Some(a), None) => Some(a),
        (None, b) => b,
    }
}

/// The least text among the items that is no name.
fn least_no_name<'a>(items: &[Json<'a>]) -> Option<&'a str>
    ensures { option_map (λ found. found.now) result ≡ least_no_name None (items_view items.now) }
{
    let mut least = None;
    for item in items {
        least = lesser(least, item.as_str().and_then(|text| no_name(text)));
    }
    least
}

/// The first name of a member that is none.
fn bad_name<'a>(members: &[Member<'a>]) -> Option<&'a str>
    ensures { option_map (λ found. found.now) result ≡ find (λ key. not (is_name key)) (names_in (members_view members.now)) }
{
    for (name, _) in members {
        if !Name::is_name(name.as_bytes()) {
            return Some(*name);
        }
    }
    None
}

/// The text in a member that has to be a name and is none.
fn text_at_fault<'a>(form: MemberForm, value: &Json<'a>) -> Option<&'a str>
    ensures { option_map (λ found. found.now) result ≡ text_at_fault form (view value.now) }
{
    match form {
        MemberForm::Name => no_name(value.as_str()?),
        MemberForm::Labels => least_no_name(value.as_array()?),
        MemberForm::Props => bad_name(value.as_object()?),
        MemberForm::Id | MemberForm::Value => None,
    }
}

fn no_name_text(alloc: Global, name: &str, text: &str) -> Result<Bytes, Memory>
    ensures { IfOk result (λ cause. cause ≡ no_name_in name.now text.now) }
{
    let behind = of_member(alloc, name, b" is no name")?;
    of_text_and(alloc, text, b" in ", behind.as_slice())
}

/// A member whose texts have to be names.
fn name_cause(
    alloc: Global,
    name: &str,
    form: MemberForm,
    value: &Json<'_>,
) -> Result<Option<Bytes>, Memory>
    ensures { IfOk result (λ cause. cause ≡ name_cause name.now form (view value.now)) }
{
    match text_at_fault(form, value) {
        Some(text) => Ok(Some(no_name_text(alloc, name, text)?)),
        None => Ok(None),
    }
}

/// A member that has to be a list, or an object.
fn parts_cause(
    alloc: Global,
    name: &str,
    form: MemberForm,
    value: &Json<'_>,
) -> Result<Option<Bytes>, Memory>
    ensures { IfOk result (λ cause. cause ≡ parts_cause name.now form (view value.now)) }
{
    match form {
        MemberForm::Labels => match value.as_array() {
            Some(_) => Ok(None),
            None => member_told(alloc, name, b" is no list"),
        },
        MemberForm::Props => match value.as_object() {
            Some(_) => Ok(None),
            None => member_told(alloc, name, b" is no object"),
        },
        MemberForm::Id | MemberForm::Name | MemberForm::Value => Ok(None),
    }
}

/// A member that has to be a value.
fn value_cause(alloc: Global, name: &str, value: &Json<'_>) -> Result<Option<Bytes>, Memory>
    ensures { IfOk result (λ cause. cause ≡ value_cause name.now (view value.now)) }
{
    let Some(words) = value_fault(value) else {
        return Ok(None);
    };
    let mut out = TextBuffer::with_room(alloc, ROOM)?;
    out.push_quoted(name.as_bytes())?;
    out.push(b" is ")?;
    out.push(words.as_bytes())?;
    Ok(Some(out.into_bytes()))
}

/// The first member whose value is none of a property.
fn first_value_cause(alloc: Global, members: &[Member<'_>]) -> Result<Option<Bytes>, Memory>
    ensures { IfOk result (λ cause. cause ≡ first_value_cause (members_view members.now)) }
{
    for (name, value) in members {
        let cause = value_cause(alloc, name, value)?;
        if cause.is_some() {
            return Ok(cause);
        }
    }
    Ok(None)
}

/// A member whose values have to be values of a property.
fn values_cause(
    alloc: Global,
    name: &str,
    form: MemberForm,
    value: &Json<'_>,
) -> Result<Option<Bytes>, Memory>
    ensures { IfOk result (λ cause. cause ≡ values_cause name.now form (view value.now)) }
{
    match form {
        MemberForm::Value => value_cause(alloc, name, value),
        MemberForm::Props => match value.as_object() {
            Some(members) => first_value_cause(alloc, members),
            None => Ok(None),
        },
        MemberForm::Id | MemberForm::Name | MemberForm::Labels => Ok(None),
    }
}

/// The cause that a test finds in a member.
fn cause_by(
    alloc: Global,
    test: MemberTest,
    row: &Row,
    value: &Json<'_>,
) -> Result<Option<Bytes>, Memory>
    ensures { IfOk result (λ cause. cause ≡ cause_by test row.now.0.now row.now.1 (view value.now)) }
{
    let (name, form) = *row;
    match test {
        MemberTest::Ids => id_cause(alloc, name, form, value),
        MemberTest::Texts => text_cause(alloc, name, form, value),
        MemberTest::Names => name_cause(alloc, name, form, value),
        MemberTest::Parts => parts_cause(alloc, name, form, value),
        MemberTest::Values => values_cause(alloc, name, form, value),
    }
}

/// The cause that a test finds in a member that may be there.
fn cause_at(
    alloc: Global,
    test: MemberTest,
    row: &Row,
    members: &[Member<'_>],
) -> Result<Option<Bytes>, Memory>
    ensures { IfOk result (λ cause. cause
        ≡ option_and_then (cause_by test row.now.0.now row.now.1) (get_member row.now.0.now (members_view members.now))) }
{
    match member(members, row.0) {
        Some(value) => cause_by(alloc, test, row, value),
        None => Ok(None),
    }
}

/// The first cause that a test finds in members with these names and forms.
fn cause_in(
    alloc: Global,
    test: MemberTest,
    rows: &[Row],
    members: &[Member<'_>],
) -> Result<Option<Bytes>, Memory>
    ensures { IfOk result (λ cause. cause ≡ cause_in test (map (λ row. (row.0.now, row.1)) rows.now) (members_view members.now)) }
{
    for row in rows {
        let cause = cause_at(alloc, test, row, members)?;
        if cause.is_some() {
            return Ok(cause);
        }
    }
    Ok(None)
}

/// The first cause that tests find one after another.
pub fn cause_in_all(
    alloc: Global,
    tests: &[MemberTest],
    rows: &[Row],
    members: &[Member<'_>],
) -> Result<Option<Bytes>, Memory>
    ensures { IfOk result (λ cause. cause
        ≡ cause_in_all tests.now (map (λ row. (row.0.now, row.1)) rows.now) (members_view members.now)) }
{
    for test in tests {
        let cause = cause_in(alloc, *test, rows, members)?;
        if cause.is_some() {
            return Ok(cause);
        }
    }
    Ok(None)
}
