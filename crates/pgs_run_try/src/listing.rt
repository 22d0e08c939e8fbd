ghost use Rattle.std.specs.Prelude.{◌≡◌, map, IfOk, true};
ghost use Rattle.pgs_run_lines.specs.AreasKept.{KeepsAreas};
ghost use Rattle.pgs_run_lines.specs.Calls.{is_of_world, stops_of_world};
ghost use Rattle.pgs_run_lines.specs.Ending.{Ends, HasCause, faults_of};
ghost use Rattle.pgs_run_lines.specs.May.{MayPut};
ghost use Rattle.pgs_run_lines.specs.Pieces.{shown_of};
ghost use Rattle.pgs_run_lines.specs.Puts.{Puts};
ghost use Rattle.pgs_run_try.specs.Told.{listed_line, status_after, told_end};

use crate::session::Session;
use pgs_answer::{violation_line, violation_text};
use pgs_base::{Bytes, Memory};
use pgs_command::Status;
use pgs_run_lines::{Stop, put_made};
use pgs_violation::Violation;
use pgs_world::World;
use std::alloc::Global;

// The line of a violation.
#[tactic(auto, unfolding(crate::specs::Told::listed_line))]
fn listed_line(alloc: Global, violation: &Violation) -> Result<Bytes, Memory>
    ensures { IfOk result (λ line. line ≡ listed_line violation.now) }
{
    let text = violation_text(alloc, violation)?;
    violation_line(alloc, text.as_slice())
}

/// Puts the lines of violations, one after another. `Memory` where there was none left, `PutFault` where a put failed.
pub fn put_all_listed<W: World>(
    alloc: Global,
    world: &mut W,
    found: &[Violation],
) -> Result<(), Stop<Status>>
    ensures puts { Puts (W.view world.old) (map listed_line found.now) result (W.view world.new) }
    ensures last { stops_of_world result ≡ true → W.failed world.new }
{
    for violation in found {
        put_made(world, listed_line(alloc, violation))?;
    }
    Ok(())
}

// The status after a whole input.
fn status_after(refused: bool, found: &[Violation]) -> Status
    ensures { result ≡ status_after refused found.now }
{
    if refused || !found.is_empty() {
        Status::Refused
    } else {
        Status::Accepted
    }
}

/// Ends the run of a session, and puts what the end of the input tells.
#[tactic(auto, unfolding(crate::specs::Told::told_end))]
pub fn end_session<W: World>(session: &Session, alloc: Global, world: &mut W) -> Stop<Status>
    ensures ends { Ends (shown_of (W.view world.old)) (told_end session.now.judging session.now.schema session.now.standing) result (shown_of (W.view world.new)) }
    ensures cause { HasCause (faults_of 0 (W.view world.old)) (faults_of 0 (W.view world.new)) result }
    ensures may { MayPut result }
    ensures areas { KeepsAreas (W.view world.old) (W.view world.new) }
    ensures last { is_of_world result ≡ true → W.failed world.new }
{
    let found = match session.listed(alloc) {
        Ok(found) => found,
        Err(_) => return Stop::Memory,
    };
    match put_all_listed(alloc, world, found.as_slice()) {
        Ok(()) => Stop::Ended(status_after(session.is_refused(), found.as_slice())),
        Err(stop) => stop,
    }
}
