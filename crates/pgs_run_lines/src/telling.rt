ghost use Rattle.std.specs.Prelude.{◌≡◌, ◌+◌, ℕ, true, IfNone, IfOk, IfSome, OnOk};
ghost use Rattle.pgs_run_lines.specs.Areas.{keeps_areas};
ghost use Rattle.pgs_run_lines.specs.AreasKept.{KeepsAreas};
ghost use Rattle.pgs_run_lines.specs.Calls.{is_of_world};
ghost use Rattle.pgs_run_lines.specs.Ending.{Ends, HasCause, faults_of};
ghost use Rattle.pgs_run_lines.specs.Machine.{Going, Ended, HasRoomFor};
ghost use Rattle.pgs_run_lines.specs.May.{MayPut};
ghost use Rattle.pgs_run_lines.specs.Pieces.{pieces_in, shown_of};
ghost use Rattle.pgs_run_lines.specs.Telling.{Teller, telling};

use crate::putting::put_any;
use crate::stop::Stop;
use crate::taker::LineTaker;
use pgs_base::{Bytes, Memory};
use pgs_world::World;
use std::alloc::Global;

/// A command that tells a piece of a line, or none, and touches no area. `Telling` puts its pieces.
pub trait LineTeller {
    /// How it may end a run by itself.
    type Status;

    /// What it does at each line, and what it tells.
    ghost teller: { Teller Self.Status };

    /// Where it stands.
    ghost stands: { Self → teller.State };

    /// Takes a line, of which this is the front, and gives what it tells, if anything. After `Memory` the value isn't used any more.
    fn take_line(&mut self, alloc: Global, line: &[u8]) -> Result<Option<Bytes>, Memory>
        requires { HasRoomFor (telling teller) 1 (stands self.old) }
        ensures leads { OnOk result (stands self.new ≡ teller.after (stands self.old) line.now) }
        ensures tells { IfOk result (λ piece. pieces_in piece ≡ teller.pieces (stands self.old) line.now) }
        ensures room { OnOk result ((lines : ℕ) → teller.HasRoom (lines + 1) (stands self.old) → teller.HasRoom lines (stands self.new)) };

    /// The status with which the last line ended the run, if it did.
    fn ended(&self) -> Option<Self::Status>
        ensures ended { IfSome result (λ status. teller.next (stands self.now) ≡ Ended status) }
        ensures going { IfNone result (teller.next (stands self.now) ≡ Going (stands self.now)) };

    /// Ends the input behind its last line, and puts what that tells. Afterwards the value isn't used any more.
    fn end<W: World>(&mut self, alloc: Global, world: &mut W) -> Stop<Self::Status>
        ensures ends { Ends (shown_of (W.view world.old)) (teller.told (stands self.old)) result (shown_of (W.view world.new)) }
        ensures cause { HasCause (faults_of 0 (W.view world.old)) (faults_of 0 (W.view world.new)) result }
        ensures may { MayPut result }
        ensures areas { KeepsAreas (W.view world.old) (W.view world.new) }
        ensures last { is_of_world result ≡ true → W.failed world.new };

    /// The status at the end of the budget.
    fn end_budget(&self) -> Self::Status
        ensures { result ≡ teller.cut };
}

/// A command that tells, as one that takes lines: each piece is put as soon as its line is taken.
#[derive(Drop)]
pub struct Telling<T> {
    pub teller: T,
}

impl<T: LineTeller> LineTaker for Telling<T> {
    type Status = T::Status;

    ghost machine = { telling T.teller };

    ghost rule = { keeps_areas (telling T.teller) };

    ghost stands = { λ taker. T.stands taker.teller };

    ghost kept = { λ taker. tt };

    fn end_line<W: World>(
        &mut self,
        alloc: Global,
        world: &mut W,
        line: &[u8],
    ) -> Result<(), Stop<T::Status>> {
        let piece = match self.teller.take_line(alloc, line) {
            Ok(piece) => piece,
            Err(_) => return Err(Stop::Memory),
        };
        match put_any(world, piece) {
            Ok(()) => {}
            Err(stop) => return Err(stop),
        }
        match self.teller.ended() {
            Some(status) => Err(Stop::Ended(status)),
            None => Ok(()),
        }
    }

    fn end_input<W: World>(
        &mut self,
        alloc: Global,
        world: &mut W,
        rest: &[u8],
    ) -> Stop<T::Status> {
        let piece = match self.teller.take_line(alloc, rest) {
            Ok(piece) => piece,
            Err(_) => return Stop::Memory,
        };
        match put_any(world, piece) {
            Ok(()) => {}
            Err(stop) => return stop,
        }
        self.teller.end(alloc, world)
    }

    fn end_budget(&self) -> T::Status {
        self.teller.end_budget()
    }
}
