ghost use Rattle.std.specs.Prelude.{◌<◌, ◌≤◌, ◌≡◌, true};
ghost use Rattle.pgs_command.specs.Calls.{fails_read, fails_world};
ghost use Rattle.pgs_command.specs.Feeding.{RunGives};
ghost use Rattle.pgs_command.specs.Promise.{Runs};
ghost use Rattle.pgs_command.specs.Setting.{setting_of};
ghost use Rattle.pgs_feed.specs.Deliveries.{kind_of};
ghost use Rattle.pgs_run.specs.Commands.{spec_for};
ghost use Rattle.pgs_run_lines.specs.Calls.{MakesReads};
ghost use Rattle.pgs_run_lines.specs.declared.budget.TheConstants.{BUDGET};

use crate::commands::run_command;
use pgs_answer::words_refused_line;
use pgs_base::Words;
use pgs_command::{Status, refuse_words};
use pgs_feed::Feeds;
use pgs_run_lines::BUDGET;
use pgs_run_words::command_of;
use pgs_world::{Source, World};
use std::alloc::Global;

/// Runs the program's words over an input, an output and a budget of bytes of the input, 1 to 2^40, and answers the status. What is promised
/// of it, part by part, is `Promise` of pgs_command, of the command that the words name (specs/Commands.antt); where there is no memory to
/// read the words nothing is done. A read asks for at most
/// 65,536 bytes and never for more than is left of the budget; each line that is put is one `put`.
pub fn run_within<S: Source, W: World, L: Feeds>(
    alloc: Global,
    words: &Words,
    source: &mut S,
    world: &mut W,
    feeds: &mut L,
    budget: u64,
) -> Status
    requires positive { 0 < budget }
    requires within { budget ≤ BUDGET }
    ensures promise { Runs (spec_for words.now) budget
        (setting_of (S.left source.old) (S.faults source.old) (W.view world.old) (L.places feeds.old))
        (setting_of (S.left source.new) (S.faults source.new) (W.view world.new) (L.places feeds.new)) result }
    // What feeds are given, delivery by delivery, and how many puts were answered Ok before each.
    ensures gives { RunGives (spec_for words.now) (kind_of L.places L.delivered)
        (setting_of (S.left source.old) (S.faults source.old) (W.view world.old) (L.places feeds.old))
        (setting_of (S.left source.new) (S.faults source.new) (W.view world.new) (L.places feeds.new)) feeds.old feeds.new result }
    ensures last { fails_world result ≡ true → W.failed world.new }
    ensures calls { MakesReads S.read_made budget source.old (fails_read result) source.new }
{
    match command_of(alloc, words) {
        Ok(Some(command)) => run_command(alloc, command, source, world, feeds, budget),
        Ok(None) => refuse_words(world, words_refused_line(alloc)),
        Err(_) => Status::Memory,
    }
}

/// Runs the program's words over an input and an output: `run_within` with a budget of 2^40 bytes.
pub fn run<S: Source, W: World, L: Feeds>(
    alloc: Global,
    words: &Words,
    source: &mut S,
    world: &mut W,
    feeds: &mut L,
) -> Status
    ensures promise { Runs (spec_for words.now) BUDGET
        (setting_of (S.left source.old) (S.faults source.old) (W.view world.old) (L.places feeds.old))
        (setting_of (S.left source.new) (S.faults source.new) (W.view world.new) (L.places feeds.new)) result }
    ensures gives { RunGives (spec_for words.now) (kind_of L.places L.delivered)
        (setting_of (S.left source.old) (S.faults source.old) (W.view world.old) (L.places feeds.old))
        (setting_of (S.left source.new) (S.faults source.new) (W.view world.new) (L.places feeds.new)) feeds.old feeds.new result }
    ensures last { fails_world result ≡ true → W.failed world.new }
    ensures calls { MakesReads S.read_made BUDGET source.old (fails_read result) source.new }
{
    run_within(alloc, words, source, world, feeds, BUDGET)
}
