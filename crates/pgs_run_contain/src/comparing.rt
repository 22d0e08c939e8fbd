ghost use Rattle.std.specs.Prelude.{◌≡◌, ℕ, List as Items, [], true, IfOk, IfNone, IfSome, OnOk};
ghost use Rattle.pgs_run_lines.specs.Areas.{keeps_areas};
ghost use Rattle.pgs_run_lines.specs.AreasKept.{KeepsAreas};
ghost use Rattle.pgs_run_lines.specs.Calls.{is_of_world};
ghost use Rattle.pgs_run_lines.specs.Ending.{Ends, HasCause, faults_of};
ghost use Rattle.pgs_run_lines.specs.Machine.{Going, Ended};
ghost use Rattle.pgs_run_lines.specs.May.{MayPut};
ghost use Rattle.pgs_run_lines.specs.Pieces.{pieces_in, shown_of};
ghost use Rattle.pgs_run_input.specs.Answers.{schema_answer};
ghost use Rattle.pgs_run_contain.specs.Comparing.{after_end, comparing, first_phase, next_of, pieces_at_end, told_after};
ghost use Rattle.pgs_run_contain.specs.declared.ending.Ending.TheVariants as endings;
ghost use Rattle.pgs_run_contain.specs.Told.{refused_by, told_first, told_second};

use crate::ending::Ending;
use crate::judging::{Judged, judge};
use crate::kept_text::KeptText;
use crate::phase::{Phase, judge_first};
use pgs_answer::{schema_refused_line, second_refused_line};
use pgs_base::{Bytes, List, Memory, Name};
use pgs_conform::Compiled;
use pgs_run_input::SchemaPart;
use pgs_run_lines::{LineTaker, Stop, put_any, put_made};
use pgs_world::World;
use std::alloc::Global;
use std::mem;

/// The reading of both texts, between two lines.
#[derive(Drop)]
pub(crate) struct Comparing {
    phase: Phase,
}

// Ends a run by a text that is refused, with the line that was made of it.
fn refuse<W: World>(world: &mut W, made: Result<Bytes, Memory>, text: KeptText) -> Stop<Ending>
    ensures ends { (line : Items ℕ) → IfOk made (λ made. made ≡ line) → Ends (shown_of (W.view world.old)) (refused_by line text) result (shown_of (W.view world.new)) }
    ensures cause { HasCause (faults_of 0 (W.view world.old)) (faults_of 0 (W.view world.new)) result }
    ensures may { MayPut result }
    ensures areas { KeepsAreas (W.view world.old) (W.view world.new) }
    ensures last { is_of_world result ≡ true → W.failed world.new }
{
    match put_made(world, made) {
        Ok(()) => Stop::Ended(Ending::Refused { text }),
        Err(stop) => stop,
    }
}

// Ends a run behind the second text.
fn end_second<W: World>(
    alloc: Global,
    world: &mut W,
    first: Compiled,
    names: List<Name>,
    part: SchemaPart,
) -> Stop<Ending>
    ensures ends { Ends (shown_of (W.view world.old)) (told_second first names part.text (schema_answer part.text)) result (shown_of (W.view world.new)) }
    ensures cause { HasCause (faults_of 0 (W.view world.old)) (faults_of 0 (W.view world.new)) result }
    ensures may { MayPut result }
    ensures areas { KeepsAreas (W.view world.old) (W.view world.new) }
    ensures last { is_of_world result ≡ true → W.failed world.new }
{
    match judge(alloc, names, part) {
        Ok(Judged::Schema { schema, names }) => Stop::Ended(Ending::Fit {
            first,
            second: schema,
            names,
        }),
        Ok(Judged::Refused { refusal, text }) => {
            refuse(world, second_refused_line(alloc, refusal.as_slice()), text)
        }
        Err(_) => Stop::Memory,
    }
}

// Ends a run in whose input no separator came: all of it is the first text, and the second is empty.
fn end_first<W: World>(alloc: Global, world: &mut W, part: SchemaPart) -> Stop<Ending>
    ensures ends { Ends (shown_of (W.view world.old)) (told_first true part.text (schema_answer part.text) []) result (shown_of (W.view world.new)) }
    ensures cause { HasCause (faults_of 0 (W.view world.old)) (faults_of 0 (W.view world.new)) result }
    ensures may { MayPut result }
    ensures areas { KeepsAreas (W.view world.old) (W.view world.new) }
    ensures last { is_of_world result ≡ true → W.failed world.new }
{
    match judge(alloc, List::new(alloc), part) {
        Ok(Judged::Schema { schema, names }) => {
            end_second(alloc, world, schema, names, SchemaPart::new(alloc))
        }
        Ok(Judged::Refused { refusal, text }) => {
            refuse(world, schema_refused_line(alloc, refusal.as_slice()), text)
        }
        Err(_) => Stop::Memory,
    }
}

impl Comparing {
    /// Before the first line; takes no memory.
    pub(crate) fn new(alloc: Global) -> Comparing
        ensures { result.phase ≡ first_phase }
    {
        Comparing {
            phase: Phase::First(SchemaPart::new(alloc)),
        }
    }

    // Takes a line, and gives what it tells, if anything.
    fn take(&mut self, alloc: Global, line: &[u8]) -> Result<Option<Bytes>, Memory>
        ensures leads { OnOk result (self.new.phase ≡ after_end self.old.phase line.now) }
        ensures tells { IfOk result (λ piece. pieces_in piece ≡ pieces_at_end self.old.phase line.now) }
    {
        match &mut self.phase {
            Phase::First(part) => {
                if !part.take_line(line)? {
                    return Ok(None);
                }
                let part = mem::replace(part, SchemaPart::new(alloc));
                let (next, piece) = judge_first(alloc, part)?;
                self.phase = next;
                Ok(piece)
            }
            Phase::Second(_, _, part) => {
                part.push_line(line)?;
                Ok(None)
            }
            Phase::Refused(_) => Ok(None),
        }
    }

    // The first text, where it was refused. Afterwards the value isn't used any more.
    fn refused(&mut self, alloc: Global) -> Option<KeptText>
        ensures ended { IfSome result (λ text. next_of self.old.phase ≡ Ended (endings.Refused text)) }
        ensures going { IfNone result (next_of self.old.phase ≡ Going self.old.phase) }
        ensures same { IfNone result (self.new.phase ≡ self.old.phase) }
    {
        match &mut self.phase {
            Phase::Refused(text) => Some(mem::replace(text, KeptText::none(alloc))),
            Phase::First(_) | Phase::Second(_, _, _) => None,
        }
    }

    // Ends the input behind its last line.
    fn end<W: World>(&mut self, alloc: Global, world: &mut W) -> Stop<Ending>
        ensures ends { Ends (shown_of (W.view world.old)) (told_after self.old.phase) result (shown_of (W.view world.new)) }
        ensures cause { HasCause (faults_of 0 (W.view world.old)) (faults_of 0 (W.view world.new)) result }
        ensures may { MayPut result }
        ensures areas { KeepsAreas (W.view world.old) (W.view world.new) }
        ensures last { is_of_world result ≡ true → W.failed world.new }
    {
        match mem::replace(&mut self.phase, Phase::First(SchemaPart::new(alloc))) {
            Phase::First(part) => end_first(alloc, world, part),
            Phase::Second(first, names, part) => end_second(alloc, world, first, names, part),
            Phase::Refused(text) => Stop::Ended(Ending::Refused { text }),
        }
    }
}

impl LineTaker for Comparing {
    type Status = Ending;

    ghost machine = { comparing };

    ghost rule = { keeps_areas comparing };

    ghost stands = { λ taker. taker.phase };

    ghost kept = { λ taker. tt };

    fn end_line<W: World>(
        &mut self,
        alloc: Global,
        world: &mut W,
        line: &[u8],
    ) -> Result<(), Stop<Ending>> {
        let piece = match self.take(alloc, line) {
            Ok(piece) => piece,
            Err(_) => return Err(Stop::Memory),
        };
        match put_any(world, piece) {
            Ok(()) => {}
            Err(stop) => return Err(stop),
        }
        match self.refused(alloc) {
            Some(text) => Err(Stop::Ended(Ending::Refused { text })),
            None => Ok(()),
        }
    }

    fn end_input<W: World>(&mut self, alloc: Global, world: &mut W, rest: &[u8]) -> Stop<Ending> {
        let piece = match self.take(alloc, rest) {
            Ok(piece) => piece,
            Err(_) => return Stop::Memory,
        };
        match put_any(world, piece) {
            Ok(()) => {}
            Err(stop) => return stop,
        }
        self.end(alloc, world)
    }

    fn end_budget(&self) -> Ending {
        Ending::Cut
    }
}
