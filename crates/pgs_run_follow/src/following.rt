ghost use Rattle.std.specs.Prelude.{◌≡◌, ◌≤◌, ◌<◌, ◌-◌, ◌+◌, ◌^◌, ℕ, IfErr, true};
ghost use Rattle.pgs_run_lines.specs.Calls.{is_of_world, stops_of_world};
ghost use Rattle.pgs_run_lines.specs.AreasKept.{KeepsAreas};
ghost use Rattle.pgs_run_lines.specs.Driving.{LineLeads};
ghost use Rattle.pgs_run_lines.specs.Ending.{Ends, HasCause, faults_of};
ghost use Rattle.pgs_run_lines.specs.May.{MayPut};
ghost use Rattle.pgs_run_lines.specs.Pieces.{shown_of};
ghost use Rattle.pgs_run_lines.specs.Puts.{Puts};
ghost use Rattle.pgs_follow.specs.Followed.{nothing_followed, with_rest};
ghost use Rattle.pgs_run_follow.specs.Following.{following, puts_last, rest_after};
ghost use Rattle.pgs_run_follow.specs.Told.{fault_lines, told_of};

use crate::texts::fault_line;
use pgs_answer::followed_line;
use pgs_base::Limits;
use pgs_command::Status;
use pgs_dump::put_graph;
use pgs_follow::Progress;
use pgs_json::COMMIT_LIMIT;
use pgs_run_lines::{LineTaker, Stop, put_made};
use pgs_world::World;
use std::alloc::Global;
use std::marker::Model;

/// Following under the limits of the program, between two lines. Contracts see what was followed.
#[derive(Drop)]
pub struct Following {
    progress: Progress,
}

impl Model for Following {
    ghost use Rattle.std.specs.Prelude.{◌≡◌};
    ghost use Rattle.pgs_follow.specs.Followed.{Followed};
    ghost use Rattle.pgs_run_follow.specs.Texts.{standard};

    ghost Value = { Followed };

    ghost view = { λ following. following.progress.followed };

    ghost invariant = { λ following. following.progress.limits ≡ standard };
}

// Puts the line of a fault, where there is one.
fn put_fault<W: World>(
    alloc: Global,
    world: &mut W,
    progress: &Progress,
) -> Result<(), Stop<Status>>
    ensures puts { Puts (W.view world.old) (fault_lines progress.now.followed.fault) result (W.view world.new) }
    ensures last { stops_of_world result ≡ true → W.failed world.new }
{
    match progress.fault() {
        Some(fault) => put_made(world, fault_line(alloc, *fault)),
        None => Ok(()),
    }
}

// Puts what is told at the end.
fn put_told<W: World>(
    alloc: Global,
    world: &mut W,
    progress: &Progress,
    rest: u64,
) -> Result<(), Stop<Status>>
    ensures puts { Puts (W.view world.old) (told_of progress.now.followed rest).pieces result (W.view world.new) }
    ensures last { stops_of_world result ≡ true → W.failed world.new }
{
    put_fault(alloc, world, progress)?;
    put_made(world, followed_line(alloc, progress.commits(), rest))?;
    put_graph(alloc, world, progress.graph())
}

// The status of what was followed.
fn followed_status(progress: &Progress) -> Status
    ensures { (rest : ℕ) → result ≡ (told_of progress.now.followed rest).status }
{
    if progress.has_fault() {
        Status::Refused
    } else {
        Status::Accepted
    }
}

impl Following {
    /// Before the first line; takes no memory.
    pub fn new(alloc: Global) -> Following
        ensures { result ≡ nothing_followed }
    {
        Following {
            progress: Progress::new(alloc, Limits::standard()),
        }
    }

    // Takes a line.
    fn take_line(&mut self, line: &[u8]) -> Result<(), Stop<Status>>
        requires { self.old.lines < 2 ^ 64 - 1 }
        ensures leads { LineLeads following self.old line.now self.new result }
        ensures counted { self.new.lines ≤ self.old.lines + 1 }
        ensures memory { IfErr result (λ stop. stop ≡ Stop.Memory) }
    {
        match self.progress.take_line(line) {
            Ok(()) => Ok(()),
            Err(_) => Err(Stop::Memory),
        }
    }

    // Ends the feed behind an unfinished line, of which this is the front.
    fn end_unfinished(&mut self, rest: &[u8])
        requires { self.old.lines < 2 ^ 64 - 1 }
        ensures { self.new ≡ with_rest self.old rest.now }
    {
        if self.progress.has_fault() {
            return;
        }
        if rest.len() > COMMIT_LIMIT {
            self.progress.end_too_long();
        }
    }

    // How many bytes of an unfinished line, of which this is the front, are told.
    fn rest_after(&self, rest: &[u8]) -> u64
        ensures { result ≡ rest_after self.now rest.now }
    {
        if self.progress.has_fault() {
            return 0;
        }
        rest.len() as u64
    }

    // Puts what is told at the end, and gives the status.
    fn tell<W: World>(&self, alloc: Global, world: &mut W, rest: u64) -> Stop<Status>
        ensures ends { Ends (shown_of (W.view world.old)) (told_of self.now rest) result (shown_of (W.view world.new)) }
        ensures cause { HasCause (faults_of 0 (W.view world.old)) (faults_of 0 (W.view world.new)) result }
        ensures may { MayPut result }
        ensures areas { KeepsAreas (W.view world.old) (W.view world.new) }
        ensures last { is_of_world result ≡ true → W.failed world.new }
    {
        match put_told(alloc, world, &self.progress, rest) {
            Ok(()) => {}
            Err(stop) => return stop,
        }
        Stop::Ended(followed_status(&self.progress))
    }
}

impl LineTaker for Following {
    type Status = Status;

    ghost machine = { following };

    ghost rule = { puts_last };

    ghost stands = { λ taker. taker };

    ghost kept = { λ taker. tt };

    fn end_line<W: World>(
        &mut self,
        alloc: Global,
        world: &mut W,
        line: &[u8],
    ) -> Result<(), Stop<Status>> {
        self.take_line(line)
    }

    fn end_input<W: World>(&mut self, alloc: Global, world: &mut W, rest: &[u8]) -> Stop<Status> {
        self.end_unfinished(rest);
        let count = self.rest_after(rest);
        self.tell(alloc, world, count)
    }

    fn end_budget(&self) -> Status {
        Status::InputTooLong
    }
}
