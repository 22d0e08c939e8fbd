ghost use Rattle.std.specs.Prelude.{◌≡◌, ◌≤◌, ◌<◌, ◌⊎◌, List, true};
ghost use Rattle.pgs_command.specs.Answers.{IsOfWords};
ghost use Rattle.pgs_command.specs.Calls.{fails_read, fails_world};
ghost use Rattle.pgs_command.specs.Promise.{Promise};
ghost use Rattle.pgs_command.specs.Setting.{setting_of};
ghost use Rattle.pgs_feed.specs.Places.{Place};
ghost use Rattle.pgs_run_lines.specs.Calls.{MakesReads};
ghost use Rattle.pgs_run_follow.specs.Spec.{IsOfFollower, follow_spec, spec_for, status_of};
ghost use Rattle.pgs_run_follow.specs.Told.{is_follow};
ghost use Rattle.pgs_run_lines.specs.declared.budget.TheConstants.{BUDGET};

use crate::following::Following;
use crate::status::FollowStatus;
use pgs_answer::words_refused_line;
use pgs_base::Words;
use pgs_command::{Status, refuse_words, status_at};
use pgs_json::COMMIT_LIMIT;
use pgs_run_lines::{BUDGET, run_lines};
use pgs_world::{Source, World};
use std::alloc::Global;

// Whether the words are the one word `follow`.
fn is_follow(words: &Words) -> bool
    ensures { result ≡ is_follow words.now }
{
    match words.at(0) {
        Some(word) => words.len() == 1 && word == "follow",
        None => false,
    }
}

// Follows the feed of an input.
fn follow<S: Source, W: World>(alloc: Global, source: &mut S, world: &mut W, budget: u64) -> Status
    requires { budget ≤ BUDGET }
    ensures promise { (places : List Place) → Promise follow_spec budget
        (setting_of (S.left source.old) (S.faults source.old) (W.view world.old) places)
        (setting_of (S.left source.new) (S.faults source.new) (W.view world.new) places) result }
    ensures last { fails_world result ≡ true → W.failed world.new }
    ensures calls { MakesReads S.read_made budget source.old (fails_read result) source.new }
{
    let mut following = Following::new(alloc);
    let stop = run_lines(&mut following, alloc, source, world, COMMIT_LIMIT, budget);
    status_at(stop)
}

// Follows, or refuses the words.
fn run_words<S: Source, W: World>(
    alloc: Global,
    words: &Words,
    source: &mut S,
    world: &mut W,
    budget: u64,
) -> Status
    requires { budget ≤ BUDGET }
    ensures promise { (places : List Place) → Promise (spec_for words.now) budget
        (setting_of (S.left source.old) (S.faults source.old) (W.view world.old) places)
        (setting_of (S.left source.new) (S.faults source.new) (W.view world.new) places) result }
    ensures answer { IsOfFollower result ⊎ IsOfWords result }
    ensures last { fails_world result ≡ true → W.failed world.new }
    ensures calls { MakesReads S.read_made budget source.old (fails_read result) source.new }
{
    if is_follow(words) {
        follow(alloc, source, world, budget)
    } else {
        refuse_words(world, words_refused_line(alloc))
    }
}

/// Runs the program's words over an input, an output and a budget of bytes of the input, 1 to 2^40, and answers the status. The one word
/// `follow` reads the feed to its end, and then puts the fault, if there is one, how far it came, and the graph (docs/DEFINITIONS.md,
/// "A feed that is followed"); other words put one line and leave the source unread. A read asks for at most 65,536 bytes and never
/// for more than is left of the budget; each line that is put is one `put`. What is promised of it is the `Promise` of the command that
/// the words are (specs/Spec.antt).
pub fn run_follow_within<S: Source, W: World>(
    alloc: Global,
    words: &Words,
    source: &mut S,
    world: &mut W,
    budget: u64,
) -> FollowStatus
    requires positive { 0 < budget }
    requires within { budget ≤ BUDGET }
    ensures promise { (places : List Place) → Promise (spec_for words.now) budget
        (setting_of (S.left source.old) (S.faults source.old) (W.view world.old) places)
        (setting_of (S.left source.new) (S.faults source.new) (W.view world.new) places) (status_of result) }
    ensures last { fails_world (status_of result) ≡ true → W.failed world.new }
    ensures calls { MakesReads S.read_made budget source.old (fails_read (status_of result)) source.new }
{
    FollowStatus::of(run_words(alloc, words, source, world, budget))
}

/// Runs the program's words over an input and an output: `run_follow_within` with a budget of 2^40 bytes.
pub fn run_follow<S: Source, W: World>(
    alloc: Global,
    words: &Words,
    source: &mut S,
    world: &mut W,
) -> FollowStatus
    ensures promise { (places : List Place) → Promise (spec_for words.now) BUDGET
        (setting_of (S.left source.old) (S.faults source.old) (W.view world.old) places)
        (setting_of (S.left source.new) (S.faults source.new) (W.view world.new) places) (status_of result) }
    ensures last { fails_world (status_of result) ≡ true → W.failed world.new }
    ensures calls { MakesReads S.read_made BUDGET source.old (fails_read (status_of result)) source.new }
{
    run_follow_within(alloc, words, source, world, BUDGET)
}
