//! The reading of both texts, for a command that goes on behind them.

ghost use Rattle.std.specs.Prelude.{◌≡◌, ◌≤◌, List, true};
ghost use Rattle.pgs_command.specs.Setting.{setting_of};
ghost use Rattle.pgs_feed.specs.Places.{Place};
ghost use Rattle.pgs_run_lines.specs.Calls.{MakesReads, is_of_source, is_of_world};
ghost use Rattle.pgs_run_contain.specs.Behind.{Reading};
ghost use Rattle.pgs_run_lines.specs.declared.budget.TheConstants.{BUDGET};

use crate::comparing::Comparing;
use crate::ending::Ending;
use pgs_base::TEXT_LIMIT;
use pgs_run_lines::{Stop, run_lines};
use pgs_world::{Source, World};
use std::alloc::Global;

/// Reads two schema texts with a line `---` between them, within a budget of bytes, at most 2^40: both schemas, or the one text that is
/// refused, whose line is put. What it tells is `told_texts` of `specs/Told.antt`. It uses no area.
pub fn read_texts<S: Source, W: World>(
    alloc: Global,
    source: &mut S,
    world: &mut W,
    budget: u64,
) -> Stop<Ending>
    requires { budget ≤ BUDGET }
    ensures reading { (places : List Place) → Reading budget (setting_of (S.left source.old) (S.faults source.old) (W.view world.old) places)
        (record { left = S.left source.new; faults = S.faults source.new }) (W.view world.new) result }
    ensures last { is_of_world result ≡ true → W.failed world.new }
    ensures calls { MakesReads S.read_made budget source.old (is_of_source result) source.new }
{
    let mut comparing = Comparing::new(alloc);
    run_lines(&mut comparing, alloc, source, world, TEXT_LIMIT, budget)
}
