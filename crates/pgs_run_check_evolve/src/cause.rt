//! What is told behind the line of a text that is refused.

ghost use Rattle.std.specs.Prelude.{◌≡◌, IfOk, true};
ghost use Rattle.pgs_run_lines.specs.Calls.{is_of_world};
ghost use Rattle.pgs_run_refusal.specs.Refused.{IsCauseLine};
ghost use Rattle.pgs_run_contain.specs.Behind.{FollowsEnding};
ghost use Rattle.pgs_run_contain.specs.declared.ending.Ending.TheVariants as endings;
ghost use Rattle.pgs_run_check_evolve.specs.Spec.{evolve_behind};

use pgs_base::{Bytes, Memory};
use pgs_command::Status;
use pgs_run_lines::{Stop, put_any};
use pgs_run_refusal::cause_line;
use pgs_schema::{SchemaUnread, read_schema};
use pgs_world::World;
use std::alloc::Global;

// The line of the cause of a text that was refused, where there is one.
fn cause_of(alloc: Global, text: &[u8]) -> Result<Option<Bytes>, Memory>
    ensures { IfOk result (IsCauseLine text.now) }
{
    match read_schema(alloc, text) {
        Ok(_) => Ok(None),
        Err(SchemaUnread::Memory) => Err(Memory),
        Err(unread) => cause_line(alloc, &unread, text),
    }
}

/// Puts the line of the cause of a text that was refused, where there is one: how the run ends.
pub(crate) fn put_cause<W: World>(alloc: Global, world: &mut W, text: &[u8]) -> Stop<Status>
    ensures follows { FollowsEnding evolve_behind (endings.Refused text.now) (W.view world.old) result (W.view world.new) }
    ensures last { is_of_world result ≡ true → W.failed world.new }
{
    let line = match cause_of(alloc, text) {
        Ok(line) => line,
        Err(_) => return Stop::Memory,
    };
    match put_any(world, line) {
        Ok(()) => Stop::Ended(Status::SchemaRefused),
        Err(stop) => stop,
    }
}
