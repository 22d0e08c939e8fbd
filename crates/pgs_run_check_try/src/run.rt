ghost use Rattle.std.specs.Prelude.{◌≡◌, ◌≤◌, List, true};
ghost use Rattle.pgs_command.specs.Calls.{fails_read, fails_world};
ghost use Rattle.pgs_command.specs.Promise.{Promise};
ghost use Rattle.pgs_command.specs.Setting.{setting_of};
ghost use Rattle.pgs_feed.specs.Places.{Place};
ghost use Rattle.pgs_run_lines.specs.Calls.{MakesReads};
ghost use Rattle.pgs_run_lines.specs.declared.budget.TheConstants.{BUDGET};
ghost use Rattle.pgs_run_check_try.specs.Spec.{check_apply_spec, check_try_spec};

use crate::explaining::Explaining;
use crate::session::Session;
use pgs_base::TEXT_LIMIT;
use pgs_command::{Status, status_at};
use pgs_run_lines::run_lines;
use pgs_run_store::{end_unopened, open_store};
use pgs_world::{Source, World};
use std::alloc::Global;

/// Runs `try` of the check over an input within a budget of bytes, at most 2^40, and answers the status: a schema text, a line `---` and
/// lines of transactions, each decided as `try` of the guard decides it, from the empty graph on. What it puts and answers is what
/// `told_check_try` tells, by causes that are right (docs/FORMATS.md, "What pgcheck prints"). It uses no area.
pub fn run_check_try<S: Source, W: World>(
    alloc: Global,
    source: &mut S,
    world: &mut W,
    budget: u64,
) -> Status
    requires { budget ≤ BUDGET }
    ensures promise { (places : List Place) → Promise check_try_spec budget (setting_of (S.left source.old) (S.faults source.old) (W.view world.old) places)
        (setting_of (S.left source.new) (S.faults source.new) (W.view world.new) places) result }
    ensures last { fails_world result ≡ true → W.failed world.new }
    ensures calls { MakesReads S.read_made budget source.old (fails_read result) source.new }
{
    let mut explaining = Explaining::new(alloc, world.seed());
    let stop = run_lines(&mut explaining, alloc, source, world, TEXT_LIMIT, budget);
    status_at(stop)
}

/// Runs `apply` of the check over an input within a budget of bytes, at most 2^40, and answers the status: lines of transactions, each
/// decided as `apply` of the guard decides it, on the store that is saved in both areas, of which nothing is changed: both are what they
/// were at every moment. What it puts and answers is what `told_check_apply` tells, by causes that are right. Where no store is opened, it
/// ends as `recover` does, and reads nothing of the source.
pub fn run_check_apply<S: Source, W: World>(
    alloc: Global,
    source: &mut S,
    world: &mut W,
    budget: u64,
) -> Status
    requires { budget ≤ BUDGET }
    ensures promise { (places : List Place) → Promise check_apply_spec budget (setting_of (S.left source.old) (S.faults source.old) (W.view world.old) places)
        (setting_of (S.left source.new) (S.faults source.new) (W.view world.new) places) result }
    ensures last { fails_world result ≡ true → W.failed world.new }
    ensures calls { MakesReads S.read_made budget source.old (fails_read result) source.new }
{
    let store = match open_store(alloc, world) {
        Ok(store) => store,
        Err(unopened) => return end_unopened(world, unopened),
    };
    let session = Session::over(store.into_guard());
    let mut explaining = Explaining::behind(session, world.seed());
    let stop = run_lines(&mut explaining, alloc, source, world, TEXT_LIMIT, budget);
    status_at(stop)
}
