ghost use Rattle.std.specs.Prelude.{◌≡◌, IfOk};
ghost use Rattle.pgs_run_input.specs.Answers.{schema_answer};
ghost use Rattle.pgs_run_input.specs.Judged.{pieces_of_schema};
ghost use Rattle.pgs_run_lines.specs.Pieces.{pieces_in};
ghost use Rattle.pgs_run_contain.specs.Comparing.{after_first};

use crate::judging::{Judged, judge};
use crate::kept_text::KeptText;
use pgs_answer::schema_refused_line;
use pgs_base::{Bytes, List, Memory, Name};
use pgs_conform::Compiled;
use pgs_run_input::SchemaPart;
use std::alloc::Global;

/// Whether the first text goes on, the second one does, behind a schema and the names of its text, or the first was refused.
#[derive(Drop)]
pub(crate) enum Phase {
    First(SchemaPart),
    Second(Compiled, List<Name>, SchemaPart),
    Refused(KeptText),
}

/// Judges the first text: the phase after it, and the line of its refusal.
pub(crate) fn judge_first(alloc: Global, part: SchemaPart) -> Result<(Phase, Option<Bytes>), Memory>
    ensures phase { IfOk result (λ next. next.0 ≡ after_first part.text (schema_answer part.text)) }
    ensures piece { IfOk result (λ next. pieces_in next.1 ≡ pieces_of_schema (schema_answer part.text)) }
{
    match judge(alloc, List::new(alloc), part)? {
        Judged::Schema { schema, names } => {
            let next = Phase::Second(schema, names, SchemaPart::new(alloc));
            Ok((next, None))
        }
        Judged::Refused { refusal, text } => {
            let line = schema_refused_line(alloc, refusal.as_slice())?;
            Ok((Phase::Refused(text), Some(line)))
        }
    }
}
