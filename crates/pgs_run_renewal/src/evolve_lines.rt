//! The lines of an evolve.

ghost use Rattle.std.specs.Prelude.{◌≡◌, IfOk};
ghost use Rattle.pgs_answer.specs.Lines.{evolve_refused_line as refused_line, store_refused_line as store_line};
ghost use Rattle.pgs_answer.specs.Refusals.{old_format_text as format_text, violation_text as text_of};
ghost use Rattle.pgs_run_renewal.specs.EvolveTold.{line_of};

use pgs_answer::{
    evolve_refused_line, evolved_line, old_format_text, store_refused_line, violation_text,
};
use pgs_base::{Bytes, Memory};
use pgs_schema::Schema;
use pgs_violation::Violation;
use std::alloc::Global;

/// The line of a schema that is in force.
pub fn line_of(alloc: Global, schema: &Schema) -> Result<Bytes, Memory>
    ensures { IfOk result (λ line. line ≡ line_of schema.now.resolved) }
{
    let guard = &schema.compiled().resolved().guard;
    evolved_line(alloc, guard.types.len() as u64, guard.keys.len() as u64)
}

/// The line where the store is of the first format.
pub fn old_format_line(alloc: Global) -> Result<Bytes, Memory>
    ensures { IfOk result (λ line. line ≡ store_line format_text) }
{
    let text = old_format_text(alloc)?;
    store_refused_line(alloc, text.as_slice())
}

/// The line of the first violation of the graph under the schema.
pub fn violated_line(alloc: Global, violation: &Violation) -> Result<Bytes, Memory>
    ensures { IfOk result (λ line. line ≡ refused_line (text_of violation.now)) }
{
    let text = violation_text(alloc, violation)?;
    evolve_refused_line(alloc, text.as_slice())
}
