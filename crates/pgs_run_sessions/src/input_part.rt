ghost use Rattle.std.specs.Prelude.{◌≡◌, IfOk};
ghost use Rattle.pgs_run_input.specs.Answers.{schema_answer};
ghost use Rattle.pgs_run_input.specs.Judged.{pieces_of_schema};
ghost use Rattle.pgs_run_lines.specs.Pieces.{pieces_in};
ghost use Rattle.pgs_run_sessions.specs.InputMachine.{stand_of, after_schema};

use crate::event_lines::EventLines;
use pgs_answer::schema_refused_line;
use pgs_base::{Bytes, Memory, Seed};
use pgs_run_input::{SchemaPart, TextFault};
use std::alloc::Global;

/// Whether the schema part goes on, the event lines go on, or the schema was refused.
#[derive(Drop)]
pub enum InputPart {
    Schema(SchemaPart),
    Lines(EventLines),
    Refused,
}

/// Judges a schema text: the part after it, and the line of its refusal.
pub fn judge(alloc: Global, text: &[u8], seed: Seed) -> Result<(InputPart, Option<Bytes>), Memory>
    ensures part { IfOk result (λ next. stand_of next.0 ≡ after_schema (schema_answer text.now)) }
    ensures piece { IfOk result (λ next. pieces_in next.1 ≡ pieces_of_schema (schema_answer text.now)) }
{
    match EventLines::open(alloc, text, seed) {
        Ok(events) => Ok((InputPart::Lines(events), None)),
        Err(TextFault::Refused(text)) => {
            let piece = schema_refused_line(alloc, text.as_slice())?;
            Ok((InputPart::Refused, Some(piece)))
        }
        Err(TextFault::Memory) => Err(Memory),
    }
}
