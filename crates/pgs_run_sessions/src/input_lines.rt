ghost use Rattle.std.specs.Prelude.{◌≡◌, [], true, IfOk, OnOk};
ghost use Rattle.pgs_run_lines.specs.Calls.{is_of_world};
ghost use Rattle.pgs_run_lines.specs.AreasKept.{KeepsAreas};
ghost use Rattle.pgs_run_lines.specs.Ending.{Ends, HasCause, faults_of};
ghost use Rattle.pgs_run_lines.specs.Machine.{HasRoomFor};
ghost use Rattle.pgs_run_lines.specs.May.{MayPut};
ghost use Rattle.pgs_run_lines.specs.Pieces.{pieces_in, shown_of};
ghost use Rattle.pgs_run_input.specs.Answers.{schema_answer};
ghost use Rattle.pgs_run_sessions.specs.InputMachine.{input_machine, input_teller, stand_of, first_stand, after_end, pieces_at_end};
ghost use Rattle.pgs_run_sessions.specs.State.{brief_sessions};
ghost use Rattle.pgs_run_sessions.specs.Told.{status_after, told_schema};

use crate::input_part::{InputPart, judge};
use pgs_base::{Bytes, Memory, Seed};
use pgs_command::Status;
use pgs_run_input::SchemaPart;
use pgs_run_lines::{LineTeller, Stop, put_any};
use pgs_world::World;
use std::alloc::Global;

/// The run between two lines.
#[derive(Drop)]
pub struct InputLines {
    part: InputPart,
    seed: Seed,
}

impl InputLines {
    /// Before the first line; takes no memory. The tables will hash by the seed.
    pub fn new(alloc: Global, seed: Seed) -> InputLines
        ensures { stand_of result.part ≡ first_stand }
    {
        InputLines {
            part: InputPart::Schema(SchemaPart::new(alloc)),
            seed,
        }
    }
}

// The status after a whole input.
fn status_after(refused: bool) -> Status
    ensures { result ≡ status_after refused }
{
    if refused {
        Status::Refused
    } else {
        Status::Accepted
    }
}

// Ends a run in whose input no separator came: all of it is the schema text.
fn end_schema<W: World>(text: &[u8], alloc: Global, world: &mut W, seed: Seed) -> Stop<Status>
    ensures ends { Ends (shown_of (W.view world.old)) (told_schema brief_sessions true (schema_answer text.now) []) result (shown_of (W.view world.new)) }
    ensures cause { HasCause (faults_of 0 (W.view world.old)) (faults_of 0 (W.view world.new)) result }
    ensures may { MayPut result }
    ensures areas { KeepsAreas (W.view world.old) (W.view world.new) }
    ensures last { is_of_world result ≡ true → W.failed world.new }
{
    let Ok((part, piece)) = judge(alloc, text, seed) else {
        return Stop::Memory;
    };
    if let Err(stop) = put_any(world, piece) {
        return stop;
    }
    match part {
        InputPart::Lines(events) => Stop::Ended(status_after(events.is_refused())),
        _ => Stop::Ended(Status::SchemaRefused),
    }
}

impl InputLines {
    // Takes a line, and gives what it tells, if anything. After `Memory` the value isn't used any more.
    fn step(&mut self, alloc: Global, line: &[u8]) -> Result<Option<Bytes>, Memory>
        requires { HasRoomFor input_machine 1 (stand_of self.old.part) }
        ensures stand { OnOk result (stand_of self.new.part ≡ after_end (stand_of self.old.part) line.now) }
        ensures piece { IfOk result (λ piece. pieces_in piece ≡ pieces_at_end (stand_of self.old.part) line.now) }
    {
        match &mut self.part {
            InputPart::Schema(part) => {
                if !part.take_line(line)? {
                    return Ok(None);
                }
                let (next, piece) = judge(alloc, part.text(), self.seed)?;
                self.part = next;
                Ok(piece)
            }
            InputPart::Lines(events) => events.take_line(alloc, line),
            InputPart::Refused => Ok(None),
        }
    }
}

impl LineTeller for InputLines {
    type Status = Status;

    ghost teller = { input_teller };

    ghost stands = { λ taker. stand_of taker.part };

    fn take_line(&mut self, alloc: Global, line: &[u8]) -> Result<Option<Bytes>, Memory> {
        self.step(alloc, line)
    }

    fn ended(&self) -> Option<Status> {
        match &self.part {
            InputPart::Refused => Some(Status::SchemaRefused),
            InputPart::Schema(_) | InputPart::Lines(_) => None,
        }
    }

    fn end<W: World>(&mut self, alloc: Global, world: &mut W) -> Stop<Status> {
        match &self.part {
            InputPart::Schema(part) => end_schema(part.text(), alloc, world, self.seed),
            InputPart::Lines(events) => Stop::Ended(status_after(events.is_refused())),
            InputPart::Refused => Stop::Ended(Status::SchemaRefused),
        }
    }

    fn end_budget(&self) -> Status {
        Status::InputTooLong
    }
}
