ghost use Rattle.std.specs.Prelude.{◌≡◌, Ok, Err, IfOk, IfErr};
ghost use Rattle.pgs_resolve.specs.SchemaOf.{Answer};
ghost use Rattle.pgs_schema.specs.Told.{answer_of, IsRefused};
ghost use Rattle.pgs_run_input.specs.Answers.{IsRefusedLine, schema_answer, schema_or_text};
ghost use Rattle.pgs_run_input.specs.TextFaults.{IsFaultOf};

use crate::TextFault;
use pgs_answer::{
    bad_key_text, cycle_text, duplicate_text, kind_text, lex_text, no_graph_type_text,
    schema_refused_line, syntax_text, too_long_text, too_wide_text, unknown_text,
};
use pgs_base::{Bytes, Memory};
use pgs_schema::{Schema, SchemaFault, SchemaUnread};
use std::alloc::Global;

// The text of a refusal.
fn fault_text(alloc: Global, fault: &SchemaFault) -> Result<Bytes, Memory>
    ensures { IfOk result (λ text. schema_or_text (answer_of fault.now) ≡ Err text) }
{
    match fault {
        SchemaFault::Lex { line } => lex_text(alloc, *line),
        SchemaFault::Syntax { statement } => syntax_text(alloc, *statement),
        SchemaFault::NoGraphType => no_graph_type_text(alloc),
        SchemaFault::Duplicate { name } => duplicate_text(alloc, name),
        SchemaFault::Unknown { name } => unknown_text(alloc, name),
        SchemaFault::Kind { name } => kind_text(alloc, name),
        SchemaFault::Cycle { name } => cycle_text(alloc, name),
        SchemaFault::TooWide { name } => too_wide_text(alloc, name),
        SchemaFault::BadKey { key, cause } => bad_key_text(alloc, *key, cause),
        SchemaFault::TooLong => too_long_text(alloc),
    }
}

/// The text of the refusal of a schema text that gave no schema. `Memory` where that was for want of memory, or where there is none.
pub fn refusal_of(alloc: Global, unread: SchemaUnread) -> Result<Bytes, Memory>
    ensures { (answer : Answer) → IsRefused answer unread → IfOk result (λ text. schema_or_text answer ≡ Err text) }
{
    match unread {
        SchemaUnread::Memory => Err(Memory),
        SchemaUnread::Schema(fault) => fault_text(alloc, &fault),
    }
}

/// The line of the refusal of a schema text that gave no schema. `Memory` where that was for want of memory, or where there is none.
pub fn refused_line(alloc: Global, unread: SchemaUnread) -> Result<Bytes, Memory>
    ensures { (answer : Answer) → IsRefused answer unread → IfOk result (IsRefusedLine answer) }
{
    let text = refusal_of(alloc, unread)?;
    schema_refused_line(alloc, text.as_slice())
}

/// Why a schema text gave no schema: the text of its refusal, or `Memory` where that was for want of memory, or where there is none for
/// the text.
pub fn fault_of(alloc: Global, unread: SchemaUnread) -> TextFault
    ensures { (answer : Answer) → IsRefused answer unread → IsFaultOf (schema_or_text answer) result }
{
    match refusal_of(alloc, unread) {
        Ok(refusal) => TextFault::Refused(refusal),
        Err(Memory) => TextFault::Memory,
    }
}

/// The schema of a text, or the text of its refusal. `Memory` where there was none.
#[tactic(auto, unfolding(crate::specs::Answers::schema_answer))]
pub fn schema_of(alloc: Global, text: &[u8]) -> Result<Schema, TextFault>
    ensures schema { IfOk result (λ schema. schema_answer text.now ≡ Ok schema.resolved) }
    ensures text { IfOk result (λ schema. schema.text ≡ text.now) }
    ensures refused { IfErr result (IsFaultOf (schema_answer text.now)) }
{
    match Schema::read(alloc, text) {
        Ok(schema) => Ok(schema),
        Err(unread) => Err(fault_of(alloc, unread)),
    }
}
