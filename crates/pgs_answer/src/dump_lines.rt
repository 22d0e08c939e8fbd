ghost use Rattle.std.specs.Prelude.{◌≡◌, IfOk};
ghost use Rattle.pgs_answer.specs.Lines.{schema_line, separator_line, type_line, key_scope_line, key_value_line, absent_line};

use crate::pieces::{number_between, text_between};
use pgs_base::{Bytes, Elem, Memory, Name, Tuple};
use pgs_base_text::TextBuffer;
use std::alloc::Global;

// Room for the words of a line and one name or number.
const ROOM: usize = 96;

/// The stored schema as the first lines of a dump: the text and a line feed.
pub fn schema_line(alloc: Global, schema: &[u8]) -> Result<Bytes, Memory>
    ensures { IfOk result (λ line. line ≡ schema_line schema.now) }
{
    let mut line = TextBuffer::with_room(alloc, schema.len().saturating_add(1))?;
    line.push(schema)?;
    line.push(b"\n")?;
    Ok(line.into_bytes())
}

/// The line between the schema and the operations of a dump.
pub fn separator_line(alloc: Global) -> Result<Bytes, Memory>
    ensures { IfOk result (λ line. line ≡ separator_line) }
{
    Bytes::from_slice(alloc, b"---\n")
}

/// The line of a type that an element fits; an abstract type is told apart.
pub fn type_line(alloc: Global, hidden: bool, name: &Name) -> Result<Bytes, Memory>
    ensures { IfOk result (λ line. line ≡ type_line hidden name.now) }
{
    if hidden {
        text_between(alloc, b"abstract ", name.bytes(), b"\n")
    } else {
        text_between(alloc, b"type ", name.bytes(), b"\n")
    }
}

/// The line of a key, by its number from 1, in whose scope an element is.
pub fn key_scope_line(alloc: Global, key: u32) -> Result<Bytes, Memory>
    ensures { IfOk result (λ line. line ≡ key_scope_line key) }
{
    number_between(alloc, b"key ", key as u64, b" scope\n")
}

/// The line of a key value of an element: the number of the key, from 1, and the tuple.
pub fn key_value_line(alloc: Global, key: u32, tuple: &Tuple) -> Result<Bytes, Memory>
    ensures { IfOk result (λ line. line ≡ key_value_line key tuple.now) }
{
    let mut line = TextBuffer::with_room(alloc, ROOM)?;
    line.push(b"key ")?;
    line.push_number(key as u64)?;
    line.push(b" value ")?;
    line.push_tuple(tuple)?;
    line.push(b"\n")?;
    Ok(line.into_bytes())
}

/// The line of an element that isn't in the graph.
pub fn absent_line(alloc: Global, elem: Elem) -> Result<Bytes, Memory>
    ensures { IfOk result (λ line. line ≡ absent_line elem) }
{
    let mut line = TextBuffer::with_room(alloc, ROOM)?;
    line.push_elem(elem)?;
    line.push(b" is not in the graph\n")?;
    Ok(line.into_bytes())
}
