ghost use Rattle.std.specs.Prelude.{◌≡◌, IfOk};
ghost use Rattle.pgs_run_input.specs.Answers.{schema_answer};
ghost use Rattle.pgs_run_input.specs.Judged.{pieces_of_schema};
ghost use Rattle.pgs_run_lines.specs.Pieces.{pieces_in};
ghost use Rattle.pgs_run_try.specs.Trying.{after_schema};

use crate::Judging;
use crate::session::Session;
use pgs_answer::schema_refused_line;
use pgs_base::{Bytes, Memory, Seed};
use pgs_run_input::{SchemaPart, TextFault};
use std::alloc::Global;

/// Whether the schema part goes on, the transaction lines go on, or the schema was refused.
#[derive(Drop)]
pub enum Phase {
    Schema(Judging, SchemaPart),
    Lines(Session),
    Refused,
}

/// Judges a schema text: the phase after it, and the line of its refusal.
pub fn judge(
    alloc: Global,
    judging: Judging,
    text: &[u8],
    seed: Seed,
) -> Result<(Phase, Option<Bytes>), Memory>
    ensures phase { IfOk result (λ next. next.0 ≡ after_schema judging (schema_answer text.now)) }
    ensures piece { IfOk result (λ next. pieces_in next.1 ≡ pieces_of_schema (schema_answer text.now)) }
{
    match Session::open(alloc, judging, text, seed) {
        Ok(session) => Ok((Phase::Lines(session), None)),
        Err(TextFault::Refused(text)) => {
            let piece = schema_refused_line(alloc, text.as_slice())?;
            Ok((Phase::Refused, Some(piece)))
        }
        Err(TextFault::Memory) => Err(Memory),
    }
}
