ghost use Rattle.std.specs.Prelude.{◌≤◌, ◌≡◌, true};
ghost use Rattle.pgs_command.specs.Calls.{fails_read, fails_world};
ghost use Rattle.pgs_command.specs.Feeding.{Gives};
ghost use Rattle.pgs_command.specs.Promise.{Promise};
ghost use Rattle.pgs_command.specs.Setting.{setting_of};
ghost use Rattle.pgs_feed.specs.Deliveries.{kind_of};
ghost use Rattle.pgs_run.specs.Commands.{spec_of};
ghost use Rattle.pgs_run_lines.specs.Calls.{MakesReads};
ghost use Rattle.pgs_run_lines.specs.declared.budget.TheConstants.{BUDGET};

use pgs_command::Status;
use pgs_feed::Feeds;
use pgs_run_apply::run_apply;
use pgs_run_contain::run_contain;
use pgs_run_gen::run_gen;
use pgs_run_renewal::{run_checkpoint, run_evolve, run_load};
use pgs_run_store::{Dump, Explaining, run_reader};
use pgs_run_try::{Judging, run_judging};
use pgs_run_words::Command;
use pgs_world::{Source, World};
use std::alloc::Global;

/// Runs a command.
pub fn run_command<S: Source, W: World, L: Feeds>(
    alloc: Global,
    command: Command,
    source: &mut S,
    world: &mut W,
    feeds: &mut L,
    budget: u64,
) -> Status
    requires { budget ≤ BUDGET }
    ensures promise { Promise (spec_of command) budget
        (setting_of (S.left source.old) (S.faults source.old) (W.view world.old) (L.places feeds.old))
        (setting_of (S.left source.new) (S.faults source.new) (W.view world.new) (L.places feeds.new)) result }
    ensures gives { Gives (spec_of command) (kind_of L.places L.delivered)
        (setting_of (S.left source.old) (S.faults source.old) (W.view world.old) (L.places feeds.old))
        (setting_of (S.left source.new) (S.faults source.new) (W.view world.new) (L.places feeds.new)) feeds.old feeds.new result }
    ensures last { fails_world result ≡ true → W.failed world.new }
    ensures calls { MakesReads S.read_made budget source.old (fails_read result) source.new }
{
    match command {
        Command::Try => run_judging(alloc, Judging::EachLine, source, world, budget),
        Command::Validate => run_judging(alloc, Judging::AtEnd, source, world, budget),
        Command::Load => run_load(alloc, source, world, budget),
        Command::Apply => run_apply(alloc, source, world, feeds, budget),
        Command::Recover => run_reader(alloc, world, &Dump),
        Command::Explain { elem } => run_reader(alloc, world, &Explaining { elem }),
        Command::Gen { workload } => run_gen(alloc, world, workload.start(), workload.count()),
        Command::Checkpoint => run_checkpoint(alloc, world),
        Command::Contain => run_contain(alloc, source, world, budget),
        Command::Evolve => run_evolve(alloc, source, world, budget),
    }
}
