ghost use Rattle.std.specs.Prelude.{◌≡◌, [], IfOk};
ghost use Rattle.pgs_resolve.specs.SchemaOf.{Answer};
ghost use Rattle.pgs_schema.specs.Told.{IsRefused};
ghost use Rattle.pgs_run_check_try.specs.Explaining.{after_text};
ghost use Rattle.pgs_run_check_try.specs.Telling.{TellsText};

use crate::session::Session;
use pgs_base::{Bytes, Limits, Memory, Seed};
use pgs_run_input::SchemaPart;
use pgs_run_refusal::refused_lines;
use pgs_store::Guard;
use std::alloc::Global;

/// Whether the schema part goes on, the transaction lines go on, or the schema was refused.
#[derive(Drop)]
pub enum Phase {
    Schema(SchemaPart),
    Lines(Session),
    Refused,
}

/// Judges a schema text: the phase after it, and the lines of its refusal.
#[tactic(auto, unfolding(pgs_run_input::specs::Answers::schema_answer))]
pub fn judge(alloc: Global, text: &[u8], seed: Seed) -> Result<(Phase, Vec<Bytes>), Memory>
    ensures phase { IfOk result (λ next. next.0 ≡ after_text text.now) }
    ensures lines { IfOk result (λ next. TellsText text.now next.1.items) }
{
    match Guard::with_seed(alloc, text, Limits::standard(), seed) {
        Ok(guard) => Ok((Phase::Lines(Session::over(guard)), Vec::new(alloc))),
        Err(unread) => {
            let lines = refused_lines(alloc, unread, text)?;
            Ok((Phase::Refused, lines))
        }
    }
}
