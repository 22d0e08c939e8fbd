ghost use Rattle.std.specs.Prelude.{◌≡◌, ◌≤◌, List, true};
ghost use Rattle.pgs_command.specs.Calls.{fails_read, fails_world};
ghost use Rattle.pgs_command.specs.Promise.{Promise};
ghost use Rattle.pgs_command.specs.Setting.{setting_of};
ghost use Rattle.pgs_feed.specs.Places.{Place};
ghost use Rattle.pgs_run_lines.specs.Calls.{MakesReads};
ghost use Rattle.pgs_run_lines.specs.declared.budget.TheConstants.{BUDGET};
ghost use Rattle.pgs_run_try.specs.Spec.{judging_spec};

use crate::Judging;
use crate::trying::Trying;
use pgs_base::TEXT_LIMIT;
use pgs_command::{Status, status_at};
use pgs_run_lines::{Telling, run_lines};
use pgs_world::{Source, World};
use std::alloc::Global;

/// Runs `try` or `validate` over an input within a budget of bytes, at most 2^40, and answers the status. What it puts and answers is what
/// `told_try` and `told_validate` tell. It uses no area.
pub fn run_judging<S: Source, W: World>(
    alloc: Global,
    judging: Judging,
    source: &mut S,
    world: &mut W,
    budget: u64,
) -> Status
    requires { budget ≤ BUDGET }
    ensures promise { (places : List Place) → Promise (judging_spec judging) budget (setting_of (S.left source.old) (S.faults source.old) (W.view world.old) places)
        (setting_of (S.left source.new) (S.faults source.new) (W.view world.new) places) result }
    ensures last { fails_world result ≡ true → W.failed world.new }
    ensures calls { MakesReads S.read_made budget source.old (fails_read result) source.new }
{
    let teller = Trying::new(alloc, judging, world.seed());
    let mut trying = Telling { teller };
    let stop = run_lines(&mut trying, alloc, source, world, TEXT_LIMIT, budget);
    status_at(stop)
}
