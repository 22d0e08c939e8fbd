ghost use Rattle.std.specs.Prelude.{◌≡◌, ◌≤◌, List, true};
ghost use Rattle.pgs_command.specs.Calls.{fails_read, fails_world};
ghost use Rattle.pgs_command.specs.Promise.{Promise};
ghost use Rattle.pgs_command.specs.Setting.{setting_of};
ghost use Rattle.pgs_feed.specs.Places.{Place};
ghost use Rattle.pgs_run_check.specs.Commands.{spec_for};
ghost use Rattle.pgs_run_lines.specs.Calls.{MakesReads};
ghost use Rattle.pgs_run_lines.specs.declared.budget.TheConstants.{BUDGET};

use crate::command_of;
use crate::commands::run_command;
use pgs_answer::words_refused_line;
use pgs_base::Words;
use pgs_command::{Status, refuse_words};
use pgs_run_lines::BUDGET;
use pgs_world::{Source, World};
use std::alloc::Global;

/// Runs the program's words over an input, an output and a budget of bytes of the input, at most 2^40, and answers the status. What is
/// promised is the `Promise` of the command that the words are (specs/Commands.antt); words that are none put one line and leave the source
/// unread. Each line is one `put`.
pub fn run_check_within<S: Source, W: World>(
    alloc: Global,
    words: &Words,
    source: &mut S,
    world: &mut W,
    budget: u64,
) -> Status
    requires { budget ≤ BUDGET }
    ensures promise { (places : List Place) → Promise (spec_for words.now) budget
        (setting_of (S.left source.old) (S.faults source.old) (W.view world.old) places)
        (setting_of (S.left source.new) (S.faults source.new) (W.view world.new) places) result }
    ensures last { fails_world result ≡ true → W.failed world.new }
    ensures calls { MakesReads S.read_made budget source.old (fails_read result) source.new }
{
    match command_of(words) {
        Some(command) => run_command(alloc, command, source, world, budget),
        None => refuse_words(world, words_refused_line(alloc)),
    }
}

/// Runs the program's words over an input and an output: `run_check_within` with a budget of 2^40 bytes.
pub fn run_check<S: Source, W: World>(
    alloc: Global,
    words: &Words,
    source: &mut S,
    world: &mut W,
) -> Status
    ensures promise { (places : List Place) → Promise (spec_for words.now) BUDGET
        (setting_of (S.left source.old) (S.faults source.old) (W.view world.old) places)
        (setting_of (S.left source.new) (S.faults source.new) (W.view world.new) places) result }
    ensures last { fails_world result ≡ true → W.failed world.new }
    ensures calls { MakesReads S.read_made BUDGET source.old (fails_read result) source.new }
{
    run_check_within(alloc, words, source, world, BUDGET)
}
