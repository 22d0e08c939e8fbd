ghost use Rattle.std.specs.Prelude.{IfOk};
ghost use Rattle.pgs_resolve.specs.SchemaOf.{Answer};
ghost use Rattle.pgs_schema.specs.Told.{IsRefused};
ghost use Rattle.pgs_run_refusal.specs.Refused.{HasRefusal, IsCauseLine};

use pgs_base::{Bytes, Memory, TEXT_LIMIT};
use pgs_run_input::refused_line;
use pgs_schema::{SchemaFault, SchemaUnread};
use pgs_schema_places::{Refusal, because_line};
use std::alloc::Global;

// What a refusal is about, where it is about a place of the text.
fn refusal_in(fault: &SchemaFault) -> Option<Refusal<'_>> {
    match fault {
        SchemaFault::Lex { line } => Some(Refusal::NoItem(*line)),
        SchemaFault::Syntax { .. } => Some(Refusal::NoStatement),
        SchemaFault::Duplicate { name } => Some(Refusal::Twice(name.bytes())),
        SchemaFault::Unknown { name } => Some(Refusal::NotDeclared(name.bytes())),
        SchemaFault::Kind { name } => Some(Refusal::WrongKind(name.bytes())),
        SchemaFault::Cycle { name } => Some(Refusal::OnCycle(name.bytes())),
        SchemaFault::TooWide { name } => Some(Refusal::TooWide(name.bytes())),
        SchemaFault::BadKey { key, .. } => Some(Refusal::BadKey(*key)),
        SchemaFault::NoGraphType | SchemaFault::TooLong => None,
    }
}

/// The line of the cause of the refusal of a schema text, `because line L, column C: TEXT` with its line feed: a place of the text, and what
/// the text has there (docs/FORMATS.md, "What `pgcheck` prints"). `None` where the refusal is about no place, as 12 and 19. `Memory` where
/// there is none for the line.
pub fn cause_line(
    alloc: Global,
    unread: &SchemaUnread,
    text: &[u8],
) -> Result<Option<Bytes>, Memory>
    ensures { IfOk result (IsCauseLine text.now) }
{
    let SchemaUnread::Schema(fault) = unread else {
        return Ok(None);
    };
    if text.len() > TEXT_LIMIT {
        return Ok(None);
    }
    match refusal_in(fault) {
        Some(refusal) => because_line(alloc, text, &refusal),
        None => Ok(None),
    }
}

/// The lines of a schema text that gave no schema, in the order in which they are put: that of its refusal, and that of the cause, where
/// there is one. `Memory` where the refusal was for want of memory, or where there is none for the lines.
pub fn refused_lines(alloc: Global, unread: SchemaUnread, text: &[u8]) -> Result<Vec<Bytes>, Memory>
    ensures { (answer : Answer) → IsRefused answer unread → IfOk result (λ lines. HasRefusal answer text.now lines.items) }
{
    let cause = cause_line(alloc, &unread, text)?;
    let refusal = refused_line(alloc, unread)?;
    let mut lines = Vec::new(alloc);
    lines.push(refusal)?;
    if let Some(cause) = cause {
        lines.push(cause)?;
    }
    Ok(lines)
}
