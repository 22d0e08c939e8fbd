ghost use Rattle.std.specs.Prelude.{◌≡◌, ◌+◌, ℕ, ◌∷◌, [], IfOk, OnOk};
ghost use Rattle.pgs_run_lines.specs.Machine.{HasRoomFor};
ghost use Rattle.pgs_run_check_try.specs.Explaining.{after_end, after_part, deciding, first_phase, status_of};
ghost use Rattle.pgs_run_check_try.specs.Rule.{explains};
ghost use Rattle.pgs_run_check_try.specs.Telling.{TellsEnd, TellsLast, TellsPart};

use crate::phase::{Phase, judge};
use crate::session::Session;
use pgs_base::{Bytes, Memory, Seed};
use pgs_command::Status;
use pgs_run_input::SchemaPart;
use pgs_run_lines::{LineTaker, Stop, put_pieces};
use pgs_world::World;
use std::alloc::Global;

/// `try` and `apply` of the check, between two lines.
#[derive(Drop)]
pub struct Explaining {
    phase: Phase,
    seed: Seed,
}

impl Explaining {
    /// Before the first line of a schema text; takes no memory. Its tables will hash by the seed.
    pub fn new(alloc: Global, seed: Seed) -> Explaining
        ensures { result.phase ≡ first_phase }
    {
        Explaining {
            phase: Phase::Schema(SchemaPart::new(alloc)),
            seed,
        }
    }

    /// Before the first transaction line of a session.
    pub fn behind(session: Session, seed: Seed) -> Explaining
        ensures { result.phase ≡ Phase.Lines session }
    {
        Explaining {
            phase: Phase::Lines(session),
            seed,
        }
    }

    // Takes a line, and gives what it tells. After `Memory` the value isn't used any more.
    fn step(&mut self, alloc: Global, line: &[u8]) -> Result<Vec<Bytes>, Memory>
        requires { HasRoomFor deciding 1 self.old.phase }
        ensures phase { OnOk result (self.new.phase ≡ after_end self.old.phase line.now) }
        ensures lines { IfOk result (λ lines. TellsEnd self.old.phase line.now lines.items) }
    {
        match &mut self.phase {
            Phase::Schema(part) => {
                if !part.take_line(line)? {
                    return Ok(Vec::new(alloc));
                }
                let (next, lines) = judge(alloc, part.text(), self.seed)?;
                self.phase = next;
                Ok(lines)
            }
            Phase::Lines(session) => session.take_line(alloc, line),
            Phase::Refused => Ok(Vec::new(alloc)),
        }
    }

    // Ends a schema part in which no separator came, and gives the lines of its refusal.
    fn end_part(&mut self, alloc: Global) -> Result<Vec<Bytes>, Memory>
        ensures phase { OnOk result (self.new.phase ≡ after_part self.old.phase) }
        ensures lines { IfOk result (λ lines. TellsPart self.old.phase lines.items) }
    {
        match &self.phase {
            Phase::Schema(part) => {
                let (next, lines) = judge(alloc, part.text(), self.seed)?;
                self.phase = next;
                Ok(lines)
            }
            Phase::Lines(_) | Phase::Refused => Ok(Vec::new(alloc)),
        }
    }

    // Takes what stands behind the last line feed, and the end of the input: what they tell.
    fn last(&mut self, alloc: Global, rest: &[u8]) -> Result<Vec<Bytes>, Memory>
        requires { HasRoomFor deciding 1 self.old.phase }
        ensures phase { OnOk result (self.new.phase ≡ after_part (after_end self.old.phase rest.now)) }
        ensures lines { IfOk result (λ lines. TellsLast self.old.phase rest.now lines.items) }
    {
        let mut lines = self.step(alloc, rest)?;
        let mut more = self.end_part(alloc)?;
        lines.append(&mut more)?;
        Ok(lines)
    }

    // The status at the end of the input, behind the schema part.
    fn status(&self) -> Status
        ensures { result ≡ status_of self.now.phase }
    {
        match &self.phase {
            Phase::Schema(_) => Status::Accepted,
            Phase::Lines(session) => session.status(),
            Phase::Refused => Status::SchemaRefused,
        }
    }
}

impl LineTaker for Explaining {
    type Status = Status;

    ghost machine = { deciding };

    ghost rule = { explains };

    ghost stands = { λ taker. taker.phase };

    ghost kept = { λ taker. tt };

    fn end_line<W: World>(
        &mut self,
        alloc: Global,
        world: &mut W,
        line: &[u8],
    ) -> Result<(), Stop<Status>> {
        let lines = self.step(alloc, line)?;
        put_pieces(world, &lines)?;
        match &self.phase {
            Phase::Refused => Err(Stop::Ended(Status::SchemaRefused)),
            Phase::Schema(_) | Phase::Lines(_) => Ok(()),
        }
    }

    fn end_input<W: World>(&mut self, alloc: Global, world: &mut W, rest: &[u8]) -> Stop<Status> {
        let lines = match self.last(alloc, rest) {
            Ok(lines) => lines,
            Err(_) => return Stop::Memory,
        };
        match put_pieces(world, &lines) {
            Ok(()) => Stop::Ended(self.status()),
            Err(stop) => stop,
        }
    }

    fn end_budget(&self) -> Status {
        Status::InputTooLong
    }
}
