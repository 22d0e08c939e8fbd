ghost use Rattle.std.specs.Prelude.{◌≡◌, [], true, IfOk, OnOk};
ghost use Rattle.pgs_run_lines.specs.Calls.{is_of_world};
ghost use Rattle.pgs_run_lines.specs.AreasKept.{KeepsAreas};
ghost use Rattle.pgs_run_lines.specs.Ending.{Ends, HasCause, faults_of};
ghost use Rattle.pgs_run_lines.specs.Machine.{HasRoomFor};
ghost use Rattle.pgs_run_lines.specs.May.{MayPut};
ghost use Rattle.pgs_run_lines.specs.Pieces.{pieces_in, shown_of};
ghost use Rattle.pgs_run_input.specs.Answers.{schema_answer};
ghost use Rattle.pgs_run_try.specs.Told.{told_schema};
ghost use Rattle.pgs_run_try.specs.Trying.{trying, try_teller, first_phase, after_end, pieces_at_end};

use crate::Judging;
use crate::listing::end_session;
use crate::phase::{Phase, judge};
use pgs_base::{Bytes, Memory, Seed};
use pgs_command::Status;
use pgs_run_input::SchemaPart;
use pgs_run_lines::{LineTeller, Stop, put_any};
use pgs_world::World;
use std::alloc::Global;

/// The commands `try` and `validate`, between two lines.
#[derive(Drop)]
pub struct Trying {
    phase: Phase,
    seed: Seed,
}

impl Trying {
    /// Before the first line; takes no memory. Its tables will hash by the seed.
    pub fn new(alloc: Global, judging: Judging, seed: Seed) -> Trying
        ensures { result.phase ≡ first_phase judging }
    {
        Trying {
            phase: Phase::Schema(judging, SchemaPart::new(alloc)),
            seed,
        }
    }
}

// Ends a run in whose input no separator came: all of it is the schema text.
fn end_schema<W: World>(
    judging: Judging,
    text: &[u8],
    alloc: Global,
    world: &mut W,
    seed: Seed,
) -> Stop<Status>
    ensures ends { Ends (shown_of (W.view world.old)) (told_schema judging true (schema_answer text.now) []) result (shown_of (W.view world.new)) }
    ensures cause { HasCause (faults_of 0 (W.view world.old)) (faults_of 0 (W.view world.new)) result }
    ensures may { MayPut result }
    ensures areas { KeepsAreas (W.view world.old) (W.view world.new) }
    ensures last { is_of_world result ≡ true → W.failed world.new }
{
    let Ok((phase, piece)) = judge(alloc, judging, text, seed) else {
        return Stop::Memory;
    };
    if let Err(stop) = put_any(world, piece) {
        return stop;
    }
    match phase {
        Phase::Lines(session) => end_session(&session, alloc, world),
        _ => Stop::Ended(Status::SchemaRefused),
    }
}

impl Trying {
    // Takes a line, and gives what it tells, if anything. After `Memory` the value isn't used any more.
    fn step(&mut self, alloc: Global, line: &[u8]) -> Result<Option<Bytes>, Memory>
        requires { HasRoomFor trying 1 self.old.phase }
        ensures phase { OnOk result (self.new.phase ≡ after_end self.old.phase line.now) }
        ensures piece { IfOk result (λ piece. pieces_in piece ≡ pieces_at_end self.old.phase line.now) }
    {
        match &mut self.phase {
            Phase::Schema(judging, part) => {
                if !part.take_line(line)? {
                    return Ok(None);
                }
                let (next, piece) = judge(alloc, *judging, part.text(), self.seed)?;
                self.phase = next;
                Ok(piece)
            }
            Phase::Lines(session) => session.take_line(alloc, line),
            Phase::Refused => Ok(None),
        }
    }
}

impl LineTeller for Trying {
    type Status = Status;

    ghost teller = { try_teller };

    ghost stands = { λ taker. taker.phase };

    fn take_line(&mut self, alloc: Global, line: &[u8]) -> Result<Option<Bytes>, Memory> {
        self.step(alloc, line)
    }

    fn ended(&self) -> Option<Status> {
        match &self.phase {
            Phase::Refused => Some(Status::SchemaRefused),
            Phase::Schema(_, _) | Phase::Lines(_) => None,
        }
    }

    fn end<W: World>(&mut self, alloc: Global, world: &mut W) -> Stop<Status> {
        match &self.phase {
            Phase::Schema(judging, part) => {
                end_schema(*judging, part.text(), alloc, world, self.seed)
            }
            Phase::Lines(session) => end_session(session, alloc, world),
            Phase::Refused => Stop::Ended(Status::SchemaRefused),
        }
    }

    fn end_budget(&self) -> Status {
        Status::InputTooLong
    }
}
