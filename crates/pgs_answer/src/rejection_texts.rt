ghost use Rattle.std.specs.Prelude.{◌≡◌, ◌++◌, codes, decimal, IfOk, OnOk};
ghost use Rattle.pgs_base_text.specs.Text.{elem_text, tuple_text};
ghost use Rattle.pgs_answer.specs.Refusals.{unreadable_text, line_too_long_text, cause_words, bad_op_text, too_large_text, structural_text, violation_text, rejection_text};

use crate::pieces::number_between;
use pgs_base::{Bytes, Elem, Limits, Memory, TEXT_LIMIT, Tuple};
use pgs_base_text::TextBuffer;
use pgs_violation::{Cause, Rejection, Structural, Violation};
use std::alloc::Global;

// Room for a text with five numbers.
const ROOM: usize = 128;

/// Refusal 20: the line is not a transaction.
pub fn unreadable_text(alloc: Global) -> Result<Bytes, Memory>
    ensures { IfOk result (λ text. text ≡ unreadable_text) }
{
    Bytes::from_slice(alloc, b"20 line is not a transaction")
}

/// Refusal 21: the line has over `TEXT_LIMIT` bytes.
pub fn line_too_long_text(alloc: Global) -> Result<Bytes, Memory>
    ensures { IfOk result (λ text. text ≡ line_too_long_text) }
{
    number_between(
        alloc,
        b"21 line is longer than ",
        TEXT_LIMIT as u64,
        b" bytes",
    )
}

fn push_cause(text: &mut TextBuffer, cause: Cause) -> Result<(), Memory>
    ensures { OnOk result (text.new ≡ text.old ++ cause_words cause) }
{
    match cause {
        Cause::AlreadyThere(elem) => {
            text.push_elem(elem)?;
            text.push(b" is already there")
        }
        Cause::NoNode(node) => {
            text.push(b"no node ")?;
            text.push_elem(Elem::Node(node))
        }
        Cause::NoEdge(edge) => {
            text.push(b"no edge ")?;
            text.push_elem(Elem::Edge(edge))
        }
        Cause::HasEdges(node, edge) => {
            text.push_elem(Elem::Node(node))?;
            text.push(b" still has edge ")?;
            text.push_elem(Elem::Edge(edge))
        }
    }
}

// That there are more of something than the limit.
fn push_past_limit(
    text: &mut TextBuffer,
    number: &[u8],
    count: u64,
    what: &[u8],
    limit: u64,
) -> Result<(), Memory>
    ensures { OnOk result (text.new ≡ text.old ++ (number.now ++ (decimal count ++ (what.now ++ decimal limit)))) }
{
    text.push(number)?;
    text.push_number(count)?;
    text.push(what)?;
    text.push_number(limit)
}

fn push_bad_op(text: &mut TextBuffer, op: u64, cause: Cause) -> Result<(), Memory>
    ensures { OnOk result (text.new ≡ text.old ++ bad_op_text op cause) }
{
    text.push(b"23 op ")?;
    text.push_number(op)?;
    text.push(b": ")?;
    push_cause(text, cause)
}

fn push_too_large(text: &mut TextBuffer, op: u64) -> Result<(), Memory>
    ensures { OnOk result (text.new ≡ text.old ++ too_large_text op) }
{
    text.push(b"38 op ")?;
    text.push_number(op)?;
    text.push(b": more than 64 labels or 256 properties")
}

/// Puts the text of a structural refusal last.
pub(crate) fn push_structural(
    text: &mut TextBuffer,
    structural: Structural,
    limits: &Limits,
) -> Result<(), Memory>
    ensures { OnOk result (text.new ≡ text.old ++ structural_text structural limits.now) }
{
    match structural {
        Structural::TooManyOps { count } => push_past_limit(
            text,
            b"22 ",
            count,
            b" operations, at most ",
            limits.ops as u64,
        ),
        Structural::BadOp { op, cause } => push_bad_op(text, op, cause),
        Structural::TooManyElements { count } => push_past_limit(
            text,
            b"24 ",
            count,
            b" elements, at most ",
            limits.elements,
        ),
        Structural::ElementTooLarge { op } => push_too_large(text, op),
    }
}

// The number of a violation of a key, the key, and the element at fault.
fn push_key(text: &mut TextBuffer, number: &[u8], key: u32, elem: Elem) -> Result<(), Memory>
    ensures { OnOk result (text.new ≡ text.old ++ (number.now ++ (decimal key ++ (codes ": " ++ elem_text elem)))) }
{
    text.push(number)?;
    text.push_number(key as u64)?;
    text.push(b": ")?;
    text.push_elem(elem)
}

fn push_two_values(text: &mut TextBuffer, first: &Tuple, second: &Tuple) -> Result<(), Memory>
    ensures { OnOk result (text.new ≡ text.old ++ (codes " has " ++ (tuple_text first.now ++ (codes " and " ++ tuple_text second.now)))) }
{
    text.push(b" has ")?;
    text.push_tuple(first)?;
    text.push(b" and ")?;
    text.push_tuple(second)
}

fn push_shared_value(text: &mut TextBuffer, other: Elem, tuple: &Tuple) -> Result<(), Memory>
    ensures { OnOk result (text.new ≡ text.old ++ (codes " and " ++ (elem_text other ++ (codes " share " ++ tuple_text tuple.now)))) }
{
    text.push(b" and ")?;
    text.push_elem(other)?;
    text.push(b" share ")?;
    text.push_tuple(tuple)
}

fn push_count(text: &mut TextBuffer, count: u64, least: u32, most: u32) -> Result<(), Memory>
    ensures { OnOk result (text.new ≡ text.old ++ (codes " has " ++ (decimal count ++ (codes " values, outside "
        ++ (decimal least ++ (codes ".." ++ decimal most)))))) }
{
    text.push(b" has ")?;
    text.push_number(count)?;
    text.push(b" values, outside ")?;
    text.push_number(least as u64)?;
    text.push(b"..")?;
    text.push_number(most as u64)
}

fn push_untyped(text: &mut TextBuffer, number: &[u8], elem: Elem) -> Result<(), Memory>
    ensures { OnOk result (text.new ≡ text.old ++ (number.now ++ (elem_text elem ++ codes " fits no type"))) }
{
    text.push(number)?;
    text.push_elem(elem)?;
    text.push(b" fits no type")?;
    Ok(())
}

fn push_violation(text: &mut TextBuffer, violation: &Violation) -> Result<(), Memory>
    ensures { OnOk result (text.new ≡ text.old ++ violation_text violation.now) }
{
    match violation {
        Violation::UntypedNode { node } => push_untyped(text, b"25 node ", Elem::Node(*node)),
        Violation::UntypedEdge { edge } => push_untyped(text, b"26 edge ", Elem::Edge(*edge)),
        Violation::Mandatory { key, elem } => {
            push_key(text, b"27 key ", *key, *elem)?;
            text.push(b" has no key value")
        }
        Violation::Singleton {
            key,
            elem,
            first,
            second,
        } => {
            push_key(text, b"28 key ", *key, *elem)?;
            push_two_values(text, first, second)
        }
        Violation::Exclusive {
            key,
            first,
            second,
            tuple,
        } => {
            push_key(text, b"29 key ", *key, *first)?;
            push_shared_value(text, *second, tuple)
        }
        Violation::CountOutside {
            key,
            elem,
            count,
            least,
            most,
        } => {
            push_key(text, b"39 key ", *key, *elem)?;
            push_count(text, *count, *least, *most)
        }
    }
}

/// Puts the text of a rejection last.
pub(crate) fn push_rejection(
    text: &mut TextBuffer,
    rejection: &Rejection,
    limits: &Limits,
) -> Result<(), Memory>
    ensures { OnOk result (text.new ≡ text.old ++ rejection_text rejection.now limits.now) }
{
    match rejection {
        Rejection::Structural(structural) => push_structural(text, *structural, limits),
        Rejection::Violation(violation) => push_violation(text, violation),
    }
}

/// Refusals 22, 23, 24 and 38: why the operations of a transaction can't be done within the limits.
pub fn structural_text(
    alloc: Global,
    structural: &Structural,
    limits: &Limits,
) -> Result<Bytes, Memory>
    ensures { IfOk result (λ text. text ≡ structural_text structural.now limits.now) }
{
    let mut text = TextBuffer::with_room(alloc, ROOM)?;
    push_structural(&mut text, *structural, limits)?;
    Ok(text.into_bytes())
}

/// Violations 25 to 29, and 39.
pub fn violation_text(alloc: Global, violation: &Violation) -> Result<Bytes, Memory>
    ensures { IfOk result (λ text. text ≡ violation_text violation.now) }
{
    let mut text = TextBuffer::with_room(alloc, ROOM)?;
    push_violation(&mut text, violation)?;
    Ok(text.into_bytes())
}

/// Why a transaction is rejected: the text of what the rejection holds.
pub fn rejection_text(
    alloc: Global,
    rejection: &Rejection,
    limits: &Limits,
) -> Result<Bytes, Memory>
    ensures { IfOk result (λ text. text ≡ rejection_text rejection.now limits.now) }
{
    let mut text = TextBuffer::with_room(alloc, ROOM)?;
    push_rejection(&mut text, rejection, limits)?;
    Ok(text.into_bytes())
}
