ghost use Rattle.std.specs.Prelude.{◌≡◌, ◌≤◌, List, true};
ghost use Rattle.pgs_command.specs.Calls.{fails_read, fails_world};
ghost use Rattle.pgs_command.specs.Promise.{Promise};
ghost use Rattle.pgs_command.specs.Setting.{setting_of};
ghost use Rattle.pgs_feed.specs.Places.{Place};
ghost use Rattle.pgs_run_lines.specs.Calls.{MakesReads, is_of_world};
ghost use Rattle.pgs_run_contain.specs.Running.{Follows};
ghost use Rattle.pgs_run_contain.specs.Spec.{contain_spec};
ghost use Rattle.pgs_run_lines.specs.declared.budget.TheConstants.{BUDGET};

use crate::ending::Ending;
use crate::texts::read_texts;
use crate::types::put_guard;
use pgs_command::{Status, status_at};
use pgs_run_lines::Stop;
use pgs_world::{Source, World};
use std::alloc::Global;

// Ends a run behind the texts: of two schemas the types are told.
fn end_run<W: World>(alloc: Global, world: &mut W, texts: Stop<Ending>) -> Stop<Status>
    requires { is_of_world texts ≡ true → W.failed world.old }
    ensures follows { Follows texts (W.view world.old) result (W.view world.new) }
    ensures last { is_of_world result ≡ true → W.failed world.new }
{
    match texts {
        Stop::Ended(
            Ending::Fit {
                first,
                second,
                names,
            },
        ) => put_guard(alloc, world, &first, &second, names.as_slice()),
        Stop::Ended(Ending::Refused { .. }) => Stop::Ended(Status::SchemaRefused),
        Stop::Ended(Ending::Cut) => Stop::Ended(Status::InputTooLong),
        Stop::ReadFault => Stop::ReadFault,
        Stop::DiskFault => Stop::DiskFault,
        Stop::PutFault => Stop::PutFault,
        Stop::Memory => Stop::Memory,
    }
}

/// Runs `contain` over an input within a budget of bytes, at most 2^40, and answers the status. What it puts and answers is what
/// `contain_spec` tells by right answers to the types: with none a type is contained in the second schema, else what the answer has is
/// outside, and has a label or a key that stands in a text only where shapes name it. It uses no area.
pub fn run_contain<S: Source, W: World>(
    alloc: Global,
    source: &mut S,
    world: &mut W,
    budget: u64,
) -> Status
    requires { budget ≤ BUDGET }
    ensures promise { (places : List Place) → Promise contain_spec budget (setting_of (S.left source.old) (S.faults source.old) (W.view world.old) places)
        (setting_of (S.left source.new) (S.faults source.new) (W.view world.new) places) result }
    ensures last { fails_world result ≡ true → W.failed world.new }
    ensures calls { MakesReads S.read_made budget source.old (fails_read result) source.new }
{
    let texts = read_texts(alloc, source, world, budget);
    let stop = end_run(alloc, world, texts);
    status_at(stop)
}
