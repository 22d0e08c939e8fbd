ghost use Rattle.std.specs.Prelude.{◌≡◌, IfOk};
ghost use Rattle.pgs_answer.specs.Lines.{second_refused_line, contained_line, outside_line};

use crate::pieces::text_between;
use pgs_base::{Bytes, Memory, Name};
use pgs_base_text::TextBuffer;
use pgs_graph::Txn;
use pgs_json::{push_txn, txn_room};
use std::alloc::Global;

// Room for the words of a line and one name.
const ROOM: usize = 96;

/// The line of the second of two schemas where it is refused.
#[tactic(auto, unfolding(crate::specs::Lines::second_refused_line))]
pub fn second_refused_line(alloc: Global, text: &[u8]) -> Result<Bytes, Memory>
    ensures { IfOk result (λ line. line ≡ second_refused_line text.now) }
{
    text_between(alloc, b"second schema refused ", text, b"\n")
}

/// The line of a type that is contained in another schema.
#[tactic(auto, unfolding(crate::specs::Lines::contained_line))]
pub fn contained_line(alloc: Global, name: &Name) -> Result<Bytes, Memory>
    ensures { IfOk result (λ line. line ≡ contained_line name.now) }
{
    text_between(alloc, b"contained ", name.bytes(), b"\n")
}

/// The line of a type that isn't contained in another schema: its name, and the canonical text of a transaction that adds what is
/// outside.
#[tactic(auto, unfolding(crate::specs::Lines::outside_line))]
pub fn outside_line(alloc: Global, name: &Name, txn: &Txn) -> Result<Bytes, Memory>
    ensures { IfOk result (λ line. line ≡ outside_line name.now txn.now) }
{
    let mut line = TextBuffer::with_room(alloc, txn_room(txn).saturating_add(ROOM))?;
    line.push(b"outside ")?;
    line.push(name.bytes())?;
    line.push(b" ")?;
    push_txn(&mut line, txn, None)?;
    line.push(b"\n")?;
    Ok(line.into_bytes())
}
