ghost use Rattle.std.specs.Prelude.{◌≡◌, ◌+◌, ◌≤◌, ◌<◌, IfOk, IfErr};
ghost use Rattle.pgs_resolve.specs.SchemaOf.{schema, schema_of};
ghost use Rattle.pgs_schema.specs.Told.{IsRefused};
ghost use Rattle.pgs_sessions.specs.Costs.{IsWithinTwice, StepsWithin, staged_at};
ghost use Rattle.pgs_sessions.specs.State.{Answers, StandsFor, Takes};
ghost use Rattle.pgs_sessions_machine.specs.declared.event.Event.TheVariants.{Begin as BeginEvent, Read as ReadEvent, Stage as StageEvent, Commit as CommitEvent, Abort as AbortEvent};
ghost use Rattle.pgs_sessions_machine.specs.Machine.{start};

use crate::changes::Changes;
use crate::committing::decide;
use crate::contents::content_of;
use crate::open::OpenSessions;
use pgs_base::{Elem, Limits, Memory, Seed, Steps};
use pgs_graph::Txn;
use pgs_sessions_machine::{Event, Reply};
use pgs_store::{Guard, GuardFault};
use std::alloc::Global;
use std::marker::Model;
use std::sync::ledger::Ledger;

/// How many sessions may be open.
const MOST_SESSIONS: usize = 1000;

/// A guard whose graph many sessions read and change, in any order. Contracts see the guard, the number that is kept for each element
/// that a commit changed, and the open sessions.
pub struct Sessions {
    alloc: Global,
    guard: Guard,
    limits: Limits,
    changes: Changes,
    sessions: OpenSessions,
}

impl Model for Sessions {
    ghost use Rattle.std.specs.Prelude.{◌≡◌};
    ghost use Rattle.std.specs.Coded.{codes};
    ghost use Rattle.pgs_sessions.specs.State.{SessionsState};
    ghost use Rattle.pgs_base.specs.contracts.seed.Seed as seeds;
    ghost use Rattle.pgs_syntax.specs.contracts.resolved.Resolved as schemas;

    ghost Value = { SessionsState };

    ghost coded = { Prim.hlevel (codes, schemas.the_row.coded, seeds.the_row.coded) };

    ghost view = { λ sessions. record {
      guard = sessions.guard;
      nodes = sessions.changes.nodes.rows;
      edges = sessions.changes.edges.rows;
      sessions = sessions.sessions;
    } };

    ghost invariant = { λ sessions. sessions.guard.limits ≡ sessions.limits };
}

// Dropped by one function of this crate, so that those above need not prove anew how sessions are taken apart.
impl Drop for Sessions {
    fn drop(self) {
        let Sessions {
            alloc: _,
            guard: _,
            limits: _,
            changes: _,
            sessions: _,
        } = self;
    }
}

impl Sessions {
    /// The empty graph under the schema of a text, and no session. Where the text is no schema it is refused as by
    /// `pgs_schema::read_schema`. `Memory` where there was none left.
    pub fn new(alloc: Global, text: &[u8], limits: Limits) -> Result<Sessions, GuardFault>
        ensures schema { IfOk result (λ sessions. schema_of text.now ≡ schema sessions.guard.schema) }
        ensures stands { IfOk result (λ sessions. StandsFor sessions.guard.schema limits sessions start) }
        ensures refused { IfErr result (IsRefused (schema_of text.now)) }
    {
        Sessions::with_seed(alloc, text, limits, Seed::Fixed)
    }

    /// The same, its tables hashed by a seed of one's own.
    pub fn with_seed(
        alloc: Global,
        text: &[u8],
        limits: Limits,
        seed: Seed,
    ) -> Result<Sessions, GuardFault>
        ensures schema { IfOk result (λ sessions. schema_of text.now ≡ schema sessions.guard.schema) }
        ensures stands { IfOk result (λ sessions. StandsFor sessions.guard.schema limits sessions start) }
        ensures refused { IfErr result (IsRefused (schema_of text.now)) }
    {
        let guard = Guard::with_seed(alloc, text, limits, seed)?;
        Ok(Sessions {
            alloc,
            guard,
            limits,
            changes: Changes::new(alloc, seed),
            sessions: OpenSessions::new(alloc),
        })
    }

    /// The guard, whose graph is the one after all commits.
    pub fn guard(&self) -> &Guard
        ensures { result.now ≡ self.now.guard }
    {
        &self.guard
    }

    fn begin(&mut self, number: u64) -> Result<Reply, Memory>
        ensures { Takes (BeginEvent number) self.old result self.new }
    {
        if self.sessions.get(number).is_some() {
            return Ok(Reply::AlreadyOpen);
        }
        if self.sessions.len() >= MOST_SESSIONS {
            return Ok(Reply::TooManySessions);
        }
        self.sessions
            .begin(self.alloc, number, self.guard.commits())?;
        Ok(Reply::Began)
    }

    fn read<L: Ledger>(
        &mut self,
        number: u64,
        elem: Elem,
        steps: &mut Steps<L>,
    ) -> Result<Reply, Memory>
        ensures answer { Takes (ReadEvent number elem) self.old result self.new }
        ensures no_step_back { steps.old ≤ steps.new }
        ensures one_look { steps.new ≤ steps.old + 1 }
    {
        if self.sessions.get(number).is_none() {
            return Ok(Reply::NoSession);
        }
        let content = content_of(self.alloc, self.guard.graph(), elem, steps)?;
        self.sessions.read(number, elem)?;
        Ok(Reply::Content(content))
    }

    fn stage(&mut self, number: u64, txn: Txn) -> Result<Reply, Memory>
        ensures { Takes (StageEvent number txn) self.old result self.new }
    {
        let Some(count) = self.sessions.stage(self.alloc, number, txn)? else {
            return Ok(Reply::NoSession);
        };
        Ok(Reply::Staged(count))
    }

    fn commit<L: Ledger>(&mut self, number: u64, steps: &mut Steps<L>) -> Result<Reply, Memory>
        requires { self.old.guard.commits < 18446744073709551615 }
        ensures answer { Takes (CommitEvent number) self.old result self.new }
        ensures no_step_back { steps.old ≤ steps.new }
        ensures cost { IsWithinTwice self.old.guard (staged_at self.old number) steps.old steps.new }
    {
        let Some(session) = self.sessions.get(number) else {
            return Ok(Reply::NoSession);
        };
        if let Some((elem, commit)) = self.changes.stale(session) {
            self.sessions.close(number);
            return Ok(Reply::Stale { elem, commit });
        }
        let reply = decide(
            self.alloc,
            &mut self.guard,
            &self.limits,
            &mut self.changes,
            &session.staged,
            steps,
        )?;
        let _open = self.sessions.close(number);
        Ok(reply)
    }

    fn abort(&mut self, number: u64) -> Reply
        ensures { Takes (AbortEvent number) self.old (Ok result) self.new }
    {
        if !self.sessions.close(number) {
            return Reply::NoSession;
        }
        Reply::Aborted
    }

    /// One event, answered as by the machine of `pgs_sessions_machine` under the guard's schema and limits. After `Memory` all is as it
    /// was.
    ///
    /// 42 `AlreadyOpen` and then 45 `TooManySessions` (1,000 are open) refuse a `Begin`; 43 `NoSession` refuses every other event of a
    /// session that isn't open. A `Commit` closes the session: 44 `Stale` where an element that it read, or that a staged operation names
    /// as its element or as an end, was changed by a commit after its Begin; else the staged operations are decided as one transaction.
    /// The call asks that fewer than 2^64 - 1 transactions were committed.
    ///
    /// Of the graph and its key index it looks up: for a `Read` one element; for a `Commit` at most twice what `Guard::apply` may for the
    /// staged operations as one transaction; for every other event nothing. Look-ups in the numbers that are kept aren't counted.
    pub fn step<L: Ledger>(&mut self, event: Event, steps: &mut Steps<L>) -> Result<Reply, Memory>
        requires { self.old.guard.commits < 18446744073709551615 }
        ensures answer { Answers event self.old result self.new }
        ensures brief { Takes event self.old result self.new }
        ensures no_step_back { steps.old ≤ steps.new }
        ensures cost { StepsWithin event self.old steps.old steps.new }
    {
        match event {
            Event::Begin(number) => self.begin(number),
            Event::Read { session, elem } => self.read(session, elem, steps),
            Event::Stage { session, txn } => self.stage(session, txn),
            Event::Commit(number) => self.commit(number, steps),
            Event::Abort(number) => Ok(self.abort(number)),
        }
    }
}
