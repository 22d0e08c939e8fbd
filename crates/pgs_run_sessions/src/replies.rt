ghost use Rattle.std.specs.Prelude.{◌≡◌, ◌++◌, ℕ, List as Items, IfOk, [], ◌∷◌, codes, decimal};
ghost use Rattle.pgs_answer.specs.Lines.{refused_line};
ghost use Rattle.pgs_answer.specs.Refusals.{rejection_text};
ghost use Rattle.pgs_run_input.specs.Session.{standard};
ghost use Rattle.pgs_run_sessions.specs.Replies.{word_line, adding, read_text, content_text, reply_line, is_refusal};

use crate::asked::Asked;
use pgs_answer::{
    absent_line, already_open_text, committed_line, no_session_text, refused_line, rejection_text,
    stale_text, too_many_text, txn_line,
};
use pgs_base::{Bytes, Elem, Limits, List, Memory};
use pgs_base_text::TextBuffer;
use pgs_graph::{Op, Txn};
use pgs_sessions_machine::{Content, Reply};
use pgs_violation::Rejection;
use std::alloc::Global;

// Room for a word and two numbers.
const ROOM: usize = 64;

// A line of a word and a number.
fn word_line(alloc: Global, line: u64, word: &[u8], number: u64) -> Result<Bytes, Memory>
    ensures { IfOk result (λ text. text ≡ word_line line word.now number) }
{
    let mut text = TextBuffer::with_room(alloc, ROOM)?;
    text.push_number(line)?;
    text.push(word)?;
    text.push_number(number)?;
    text.push(b"\n")?;
    Ok(text.into_bytes())
}

// The operation that adds an element, where there is one.
fn adding(elem: Elem, content: Content) -> Option<Op>
    ensures { result ≡ adding elem content }
{
    match (elem, content) {
        (Elem::Node(id), Content::Node(row)) => Some(Op::AddNode {
            id,
            labels: row.labels,
            props: row.props,
        }),
        (Elem::Edge(id), Content::Edge(row)) => Some(Op::AddEdge {
            id,
            source: row.source,
            target: row.target,
            labels: row.labels,
            props: row.props,
        }),
        _ => None,
    }
}

// The transaction of one operation.
fn txn_of_one(alloc: Global, op: Op) -> Result<Txn, Memory>
    ensures { IfOk result (λ txn. txn.ops ≡ op ∷ []) }
{
    let mut ops = Vec::new(alloc);
    ops.push(op)?;
    Ok(Txn {
        ops: List::from_vec(ops),
    })
}

fn read_text(alloc: Global, elem: Elem, op: Option<Op>) -> Result<Bytes, Memory>
    ensures { IfOk result (λ text. text ≡ read_text elem op) }
{
    match op {
        Some(op) => txn_line(alloc, &txn_of_one(alloc, op)?),
        None => absent_line(alloc, elem),
    }
}

fn content_text(alloc: Global, elem: Option<Elem>, content: Content) -> Result<Bytes, Memory>
    ensures { IfOk result (λ text. text ≡ content_text elem content) }
{
    match elem {
        Some(elem) => read_text(alloc, elem, adding(elem, content)),
        None => Bytes::from_slice(alloc, b"\n"),
    }
}

// The line of an element that was read.
fn content_line(
    alloc: Global,
    line: u64,
    elem: Option<Elem>,
    content: Content,
) -> Result<Bytes, Memory>
    ensures { IfOk result (λ text. text ≡ decimal line ++ (codes " " ++ content_text elem content)) }
{
    let read = content_text(alloc, elem, content)?;
    let mut text = TextBuffer::with_room(alloc, read.len().saturating_add(ROOM))?;
    text.push_number(line)?;
    text.push(b" ")?;
    text.push(read.as_slice())?;
    Ok(text.into_bytes())
}

// The line of a refusal.
fn refusal_line(alloc: Global, line: u64, text: Result<Bytes, Memory>) -> Result<Bytes, Memory>
    ensures { (words : Items ℕ) → IfOk text (λ text. text ≡ words) → IfOk result (λ all. all ≡ refused_line line words) }
{
    let text = text?;
    refused_line(alloc, line, text.as_slice())
}

// The line of a rejection.
fn rejected_line(alloc: Global, line: u64, rejection: &Rejection) -> Result<Bytes, Memory>
    ensures { IfOk result (λ all. all ≡ refused_line line (rejection_text rejection.now standard)) }
{
    let text = rejection_text(alloc, rejection, &Limits::standard())?;
    refused_line(alloc, line, text.as_slice())
}

/// The line of a reply to an event, with its line feed: the number of the event's line, and what the reply says.
#[tactic(auto, unfolding(crate::specs::Replies::reply_line))]
pub fn reply_line(alloc: Global, line: u64, asked: Asked, reply: Reply) -> Result<Bytes, Memory>
    ensures { IfOk result (λ text. text ≡ reply_line line asked.session asked.elem reply) }
{
    let session = asked.session;
    match reply {
        Reply::Began => word_line(alloc, line, b" began ", session),
        Reply::Content(content) => content_line(alloc, line, asked.elem, content),
        Reply::Staged(count) => word_line(alloc, line, b" staged ", count),
        Reply::Committed(commit) => committed_line(alloc, line, commit),
        Reply::Aborted => word_line(alloc, line, b" aborted ", session),
        Reply::Rejected(rejection) => rejected_line(alloc, line, &rejection),
        Reply::AlreadyOpen => refusal_line(alloc, line, already_open_text(alloc, session)),
        Reply::NoSession => refusal_line(alloc, line, no_session_text(alloc, session)),
        Reply::Stale { elem, commit } => refusal_line(alloc, line, stale_text(alloc, elem, commit)),
        Reply::TooManySessions => refusal_line(alloc, line, too_many_text(alloc, 1000)),
    }
}

/// Whether a reply is a refusal.
pub fn is_refusal(reply: &Reply) -> bool
    ensures { result ≡ is_refusal reply.now }
{
    matches!(
        reply,
        Reply::Rejected(_)
            | Reply::AlreadyOpen
            | Reply::NoSession
            | Reply::Stale { .. }
            | Reply::TooManySessions
    )
}
