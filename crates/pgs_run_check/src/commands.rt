ghost use Rattle.std.specs.Prelude.{◌≡◌, ◌≤◌, List, true};
ghost use Rattle.pgs_command.specs.Calls.{fails_read, fails_world};
ghost use Rattle.pgs_command.specs.Promise.{Promise};
ghost use Rattle.pgs_command.specs.Setting.{setting_of};
ghost use Rattle.pgs_feed.specs.Places.{Place};
ghost use Rattle.pgs_run_check.specs.Commands.{spec_of};
ghost use Rattle.pgs_run_lines.specs.Calls.{MakesReads};
ghost use Rattle.pgs_run_lines.specs.declared.budget.TheConstants.{BUDGET};

use crate::CheckCommand;
use pgs_command::Status;
use pgs_run_check_evolve::{run_check_evolve, run_check_evolve_store};
use pgs_run_check_schema::run_check_schema;
use pgs_run_check_try::{run_check_apply, run_check_try};
use pgs_run_lines::BUDGET;
use pgs_world::{Source, World};
use std::alloc::Global;

/// Runs a command.
pub fn run_command<S: Source, W: World>(
    alloc: Global,
    command: CheckCommand,
    source: &mut S,
    world: &mut W,
    budget: u64,
) -> Status
    requires { budget ≤ BUDGET }
    ensures promise { (places : List Place) → Promise (spec_of command) budget
        (setting_of (S.left source.old) (S.faults source.old) (W.view world.old) places)
        (setting_of (S.left source.new) (S.faults source.new) (W.view world.new) places) result }
    ensures last { fails_world result ≡ true → W.failed world.new }
    ensures calls { MakesReads S.read_made budget source.old (fails_read result) source.new }
{
    match command {
        CheckCommand::Schema => run_check_schema(alloc, source, world, budget),
        CheckCommand::Try => run_check_try(alloc, source, world, budget),
        CheckCommand::Evolve => run_check_evolve(alloc, source, world, budget),
        CheckCommand::EvolveStore => run_check_evolve_store(alloc, source, world, budget),
        CheckCommand::Apply => run_check_apply(alloc, source, world, budget),
    }
}
