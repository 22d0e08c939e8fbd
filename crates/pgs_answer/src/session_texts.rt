ghost use Rattle.std.specs.Prelude.{◌≡◌, IfOk};
ghost use Rattle.pgs_answer.specs.Refusals.{already_open_text, no_session_text, stale_text, too_many_text, no_event_text};

use crate::pieces::{number_behind, number_between, push_count};
use pgs_base::{Bytes, Elem, Memory};
use pgs_base_text::TextBuffer;
use std::alloc::Global;

// Room for a text with two numbers.
const ROOM: usize = 80;

/// Refusal 42: the session is open.
pub fn already_open_text(alloc: Global, session: u64) -> Result<Bytes, Memory>
    ensures { IfOk result (λ text. text ≡ already_open_text session) }
{
    number_between(alloc, b"42 session ", session, b" is open")
}

/// Refusal 43: no session of this number is open.
pub fn no_session_text(alloc: Global, session: u64) -> Result<Bytes, Memory>
    ensures { IfOk result (λ text. text ≡ no_session_text session) }
{
    number_behind(alloc, b"43 no session ", session)
}

/// Refusal 44: the least element that the session watched and that was changed since its begin, and the last commit that changed it.
pub fn stale_text(alloc: Global, elem: Elem, commit: u64) -> Result<Bytes, Memory>
    ensures { IfOk result (λ text. text ≡ stale_text elem commit) }
{
    let mut text = TextBuffer::with_room(alloc, ROOM)?;
    text.push(b"44 ")?;
    text.push_elem(elem)?;
    push_count(&mut text, b" changed at commit ", commit)?;
    Ok(text.into_bytes())
}

/// Refusal 45: so many sessions are open, as many as may be.
pub fn too_many_text(alloc: Global, sessions: u64) -> Result<Bytes, Memory>
    ensures { IfOk result (λ text. text ≡ too_many_text sessions) }
{
    number_between(alloc, b"45 ", sessions, b" sessions are open")
}

/// Refusal 46: the line is no event.
pub fn no_event_text(alloc: Global) -> Result<Bytes, Memory>
    ensures { IfOk result (λ text. text ≡ no_event_text) }
{
    Bytes::from_slice(alloc, b"46 line is not an event")
}
