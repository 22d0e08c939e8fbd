ghost use Rattle.std.specs.Prelude.{◌≡◌, ◌<◌, ◌≤◌, List, true};
ghost use Rattle.pgs_command.specs.Calls.{fails_read, fails_world};
ghost use Rattle.pgs_command.specs.Promise.{Promise};
ghost use Rattle.pgs_command.specs.Setting.{setting_of};
ghost use Rattle.pgs_feed.specs.Places.{Place};
ghost use Rattle.pgs_run_lines.specs.Calls.{MakesReads};
ghost use Rattle.pgs_run_lines.specs.declared.budget.TheConstants.{BUDGET};
ghost use Rattle.pgs_run_sessions.specs.Spec.{spec_for};
ghost use Rattle.pgs_run_sessions.specs.Statuses.{status_of};

use crate::input_lines::InputLines;
use crate::program_words::asks_run;
use crate::status::SessionStatus;
use pgs_answer::words_refused_line;
use pgs_base::{TEXT_LIMIT, Words};
use pgs_command::{Status, refuse_words, status_at};
use pgs_run_lines::{BUDGET, Telling, run_lines};
use pgs_world::{Source, World};
use std::alloc::Global;

/// The most bytes of a line as it comes: those of a line, and a carriage return.
const LINE_LIMIT: usize = TEXT_LIMIT + 1;

// Runs the words.
fn run_words<S: Source, W: World>(
    alloc: Global,
    words: &Words,
    source: &mut S,
    world: &mut W,
    budget: u64,
) -> Status
    requires { budget ≤ BUDGET }
    ensures promise { (places : List Place) → Promise (spec_for words.now) budget (setting_of (S.left source.old) (S.faults source.old) (W.view world.old) places)
        (setting_of (S.left source.new) (S.faults source.new) (W.view world.new) places) result }
    ensures last { fails_world result ≡ true → W.failed world.new }
    ensures calls { MakesReads S.read_made budget source.old (fails_read result) source.new }
{
    if !asks_run(words) {
        return refuse_words(world, words_refused_line(alloc));
    }
    let teller = InputLines::new(alloc, world.seed());
    let mut lines = Telling { teller };
    let stop = run_lines(&mut lines, alloc, source, world, LINE_LIMIT, budget);
    status_at(stop)
}

/// Runs the words of `pgsession` over an input, an output and a budget of bytes of the input, 1 to 2^40, and answers the status. The one
/// word is `run`; then the input is a schema, a line `---` and lines of events of sessions, from the empty graph on. What it puts and
/// answers is what `told_sessions` tells. A read asks for at most 65,536 bytes and never for more than is left of the budget; each line that
/// is put is one `put`. It uses no area. What is promised of it, part by part, is `Promise` of `pgs_command`.
pub fn run_sessions_within<S: Source, W: World>(
    alloc: Global,
    words: &Words,
    source: &mut S,
    world: &mut W,
    budget: u64,
) -> SessionStatus
    requires positive { 0 < budget }
    requires within { budget ≤ BUDGET }
    ensures promise { (places : List Place) → Promise (spec_for words.now) budget (setting_of (S.left source.old) (S.faults source.old) (W.view world.old) places)
        (setting_of (S.left source.new) (S.faults source.new) (W.view world.new) places) (status_of result) }
    ensures last { fails_world (status_of result) ≡ true → W.failed world.new }
    ensures calls { MakesReads S.read_made budget source.old (fails_read (status_of result)) source.new }
{
    SessionStatus::of(run_words(alloc, words, source, world, budget))
}

/// Runs the words of `pgsession` over an input and an output: `run_sessions_within` with a budget of 2^40 bytes.
pub fn run_sessions<S: Source, W: World>(
    alloc: Global,
    words: &Words,
    source: &mut S,
    world: &mut W,
) -> SessionStatus
    ensures promise { (places : List Place) → Promise (spec_for words.now) BUDGET (setting_of (S.left source.old) (S.faults source.old) (W.view world.old) places)
        (setting_of (S.left source.new) (S.faults source.new) (W.view world.new) places) (status_of result) }
    ensures last { fails_world (status_of result) ≡ true → W.failed world.new }
    ensures calls { MakesReads S.read_made BUDGET source.old (fails_read (status_of result)) source.new }
{
    run_sessions_within(alloc, words, source, world, BUDGET)
}
