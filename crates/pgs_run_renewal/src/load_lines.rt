//! The lines of a load.

ghost use Rattle.std.specs.Prelude.{◌≡◌, IfOk};
ghost use Rattle.pgs_answer.specs.Lines.{store_refused_line};
ghost use Rattle.pgs_answer.specs.Refusals.{already_store_text, foreign_text};
ghost use Rattle.pgs_run_renewal.specs.LoadTold.{line_of};

use pgs_answer::{already_store_text, foreign_text, loaded_line, store_refused_line};
use pgs_base::{Bytes, Memory};
use pgs_store::Guard;
use std::alloc::Global;

/// The line of the store that a guard becomes.
pub fn line_of(alloc: Global, guard: &Guard) -> Result<Bytes, Memory>
    ensures { IfOk result (λ line. line ≡ line_of guard.now.schema) }
{
    let schema = &guard.compiled().resolved().guard;
    loaded_line(alloc, schema.types.len() as u64, schema.keys.len() as u64)
}

/// The line where an area is a store.
pub fn occupied_line(alloc: Global) -> Result<Bytes, Memory>
    ensures { IfOk result (λ line. line ≡ store_refused_line already_store_text) }
{
    let text = already_store_text(alloc)?;
    store_refused_line(alloc, text.as_slice())
}

/// The line where an area is another program's file.
pub fn foreign_line(alloc: Global) -> Result<Bytes, Memory>
    ensures { IfOk result (λ line. line ≡ store_refused_line foreign_text) }
{
    let text = foreign_text(alloc)?;
    store_refused_line(alloc, text.as_slice())
}
