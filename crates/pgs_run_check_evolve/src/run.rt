ghost use Rattle.std.specs.Prelude.{◌≡◌, ◌≤◌, List, true};
ghost use Rattle.pgs_command.specs.Calls.{fails_read, fails_world};
ghost use Rattle.pgs_command.specs.Promise.{Promise};
ghost use Rattle.pgs_command.specs.Setting.{setting_of};
ghost use Rattle.pgs_feed.specs.Places.{Place};
ghost use Rattle.pgs_run_lines.specs.Calls.{MakesReads, is_of_world};
ghost use Rattle.pgs_run_contain.specs.Behind.{FollowsTexts};
ghost use Rattle.pgs_run_check_evolve.specs.Spec.{check_evolve_spec, evolve_behind};
ghost use Rattle.pgs_run_lines.specs.declared.budget.TheConstants.{BUDGET};

use crate::cause::put_cause;
use crate::changes::put_changes;
use pgs_command::{Status, status_at};
use pgs_run_contain::{Ending, read_texts};
use pgs_run_lines::Stop;
use pgs_world::{Source, World};
use std::alloc::Global;

// Ends a run behind the texts: of two schemas it is told what the step changes, of a text that was refused what its cause is.
fn end_run<W: World>(alloc: Global, world: &mut W, texts: Stop<Ending>) -> Stop<Status>
    requires { is_of_world texts ≡ true → W.failed world.old }
    ensures follows { FollowsTexts evolve_behind texts (W.view world.old) result (W.view world.new) }
    ensures last { is_of_world result ≡ true → W.failed world.new }
{
    match texts {
        Stop::Ended(
            Ending::Fit {
                first,
                second,
                names,
            },
        ) => put_changes(alloc, world, &first, &second, names.as_slice()),
        Stop::Ended(Ending::Refused { text }) => put_cause(alloc, world, text.bytes()),
        Stop::Ended(Ending::Cut) => Stop::Ended(Status::InputTooLong),
        Stop::ReadFault => Stop::ReadFault,
        Stop::DiskFault => Stop::DiskFault,
        Stop::PutFault => Stop::PutFault,
        Stop::Memory => Stop::Memory,
    }
}

/// Tells what a step from one schema to another changes, over an input within a budget of bytes, at most 2^40: the old schema's text, a line
/// `---`, and the new one's. It puts the lines of `contain` for the types, where the new guard is strict, then `asks STRICT` where the old one
/// isn't, whether each key of the new guard is kept, which keys of the old guard are dropped, and last `safe` where each graph that conforms to
/// the old schema has to conform to the new one (docs/FORMATS.md, "What pgcheck prints"). The status is `Accepted` with `safe`, else `Refused`.
/// Where a text is refused, it puts its line, and behind it that of the cause, where that has a place; then the status is `SchemaRefused`. It
/// uses no area.
pub fn run_check_evolve<S: Source, W: World>(
    alloc: Global,
    source: &mut S,
    world: &mut W,
    budget: u64,
) -> Status
    requires { budget ≤ BUDGET }
    ensures promise { (places : List Place) → Promise check_evolve_spec budget (setting_of (S.left source.old) (S.faults source.old) (W.view world.old) places)
        (setting_of (S.left source.new) (S.faults source.new) (W.view world.new) places) result }
    ensures last { fails_world result ≡ true → W.failed world.new }
    ensures calls { MakesReads S.read_made budget source.old (fails_read result) source.new }
{
    let texts = read_texts(alloc, source, world, budget);
    let stop = end_run(alloc, world, texts);
    status_at(stop)
}
