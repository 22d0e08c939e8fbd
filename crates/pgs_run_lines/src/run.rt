ghost use Rattle.std.specs.Prelude.{◌≡◌, ◌≤◌, ◌+◌, List, ℕ, Some, true};
ghost use Rattle.pgs_run_lines.specs.Calls.{MakesReads, is_of_source, is_of_world};
ghost use Rattle.pgs_run_lines.specs.Ending.{HasCause, faults_of};
ghost use Rattle.pgs_run_lines.specs.Machine.{HasRoomFor, WhereTold, scene_of, told_by};
ghost use Rattle.pgs_run_lines.specs.May.{MayCome};
ghost use Rattle.pgs_run_lines.specs.Pieces.{shown_of};
ghost use Rattle.pgs_run_lines.specs.Run.{EndsAs, EndsBy, Allows};
ghost use Rattle.pgs_run_lines.specs.declared.budget.TheConstants.{BUDGET};

use crate::line_buffer::LineBuffer;
use crate::reading::{End, read_all, read_buffer};
use crate::stop::Stop;
use crate::taker::LineTaker;
use pgs_world::{Source, World};
use std::alloc::Global;

/// Runs a command over the lines of an input: reads it within a budget of bytes, at most 2^40, takes its lines, of each no more
/// than the limit, at most 2^40, and one byte, and ends it. A read asks for at most 65,536 bytes and never for more than is left
/// of the budget. What is put, where the machine's pieces are what is put, and the status of the machine's own, is what `told_by` tells
/// (docs/DEFINITIONS.md, "A run over lines"). The first fault ends the run: no call on the source or on the world comes behind it.
pub fn run_lines<T: LineTaker, S: Source, W: World>(
    taker: &mut T,
    alloc: Global,
    source: &mut S,
    world: &mut W,
    limit: usize,
    budget: u64,
) -> Stop<T::Status>
    requires limit { limit ≤ BUDGET }
    requires budget { budget ≤ BUDGET }
    requires room { HasRoomFor T.machine (budget + 1) (T.stands taker.old) }
    requires holds { T.rule.holds (T.stands taker.old) (W.view world.old) }

    // What is shown of what is told, and that never more than the budget is read.
    ensures ends { (input : List ℕ) → S.left source.old ≡ Some input
        → WhereTold T.rule.tells (EndsAs (told_by T.machine limit (T.stands taker.old) input) (shown_of (W.view world.old)) input budget (S.left source.new) result (shown_of (W.view world.new))) }
    // Where an end of the machine's own comes from.
    ensures by { EndsBy T.machine budget (S.left source.old) (S.left source.new) result }
    // A fault comes only where its count rose, by one, and each fault that came is the answer.
    ensures cause { HasCause (faults_of (S.faults source.old) (W.view world.old)) (faults_of (S.faults source.new) (W.view world.new)) result }
    // Behind a call on the world that failed there was no other.
    ensures last { is_of_world result ≡ true → W.failed world.new }
    // The reads: each of some bytes, and none behind the end of the input or a fault.
    ensures calls { MakesReads S.read_made budget source.old (is_of_source result) source.new }
    ensures may { MayCome T.machine result }
    // How far the lines were taken: all of what was read, or up to the one that gave the stop. What was done to the world, also at
    // every stop since the run's start, and to what the taker keeps, is what the machine's rule allows of these lines.
    ensures allows { Allows T.machine T.rule limit (T.stands taker.old) budget (S.left source.old) (S.left source.new) result (scene_of (W.view world.old) (T.kept taker.old)) (scene_of (W.view world.new) (T.kept taker.new)) }
{
    let mut bytes = match read_buffer(alloc) {
        Ok(bytes) => bytes,
        Err(_) => return Stop::Memory,
    };
    let mut line = LineBuffer::new(alloc, limit);
    let end = read_all(
        taker,
        &mut line,
        alloc,
        source,
        world,
        bytes.as_mut_slice(),
        budget,
    );
    match end {
        Ok(end) => match end {
            End::Whole => taker.end_input(alloc, world, line.as_slice()),
            End::Cut => Stop::Ended(taker.end_budget()),
        },
        Err(stop) => stop,
    }
}
