ghost use Rattle.std.specs.Prelude.{IfOk};
ghost use Rattle.pgs_run_contain.specs.Judging.{IsJudged};

use crate::kept_text::KeptText;
use crate::names::with_names_in;
use pgs_base::{Bytes, List, Memory, Name};
use pgs_conform::Compiled;
use pgs_run_input::{SchemaPart, refusal_of};
use pgs_schema::read_schema;
use std::alloc::Global;

/// What a text is judged.
#[derive(Drop)]
pub(crate) enum Judged {
    /// The schema of the text, and behind other names those that stand in the text.
    Schema { schema: Compiled, names: List<Name> },
    /// The text of its refusal, and the text itself.
    Refused { refusal: Bytes, text: KeptText },
}

/// Judges the text of a part, behind these names. `Memory` where there was none.
pub(crate) fn judge(alloc: Global, names: List<Name>, part: SchemaPart) -> Result<Judged, Memory>
    ensures { IfOk result (IsJudged names part.text) }
{
    match read_schema(alloc, part.text()) {
        Ok(schema) => {
            let names = with_names_in(alloc, names, part.text())?;
            Ok(Judged::Schema { schema, names })
        }
        Err(unread) => {
            let refusal = refusal_of(alloc, unread)?;
            let text = KeptText::of(part);
            Ok(Judged::Refused { refusal, text })
        }
    }
}
