ghost use Rattle.std.specs.Prelude.{◌≡◌, ◌+◌, ◌-◌, ◌<◌, ◌^◌, ◌∷◌, [], false, Ok, Err, IfOk, IfErr, OnOk, OnErr};
ghost use Rattle.pgs_decide.specs.Refused.{IsRejected};
ghost use Rattle.pgs_violation.specs.Staging.{staged};
ghost use Rattle.pgs_violation.specs.Violations.{verdict};
ghost use Rattle.pgs_run_input.specs.Session.{after_answer, after_refusal, answer_to, answer_to_txn, decision_on, standard, with_text};
ghost use Rattle.pgs_run_check_try.specs.Causes.{AreLineCauses, AreStagedCauses};
ghost use Rattle.pgs_run_check_try.specs.Lines.{accepted_line};
ghost use Rattle.pgs_run_check_try.specs.State.{TellsLine, TellsWith, session_after, state_of};
ghost use Rattle.pgs_run_check_try.specs.Told.{status_after, with_causes};

use crate::causes::{read_causes, rejection_causes};
use crate::lines::{accepted_line, push_because_lines};
use pgs_answer::{refused_line, rejection_text};
use pgs_base::{Bytes, Limits, List, Memory, Steps, TEXT_LIMIT};
use pgs_command::Status;
use pgs_graph::Txn;
use pgs_run_input::{TextFault, txn_of};
use pgs_run_lines::is_blank;
use pgs_store::{Guard, GuardRefusal};
use pgs_violation::Rejection;
use std::alloc::Global;
use std::marker::{Brand, Model};
use std::sync::ledger::{Blank, Ledger};

/// Where a run stands between two transaction lines: a guard, which decides each on the graph after the accepted ones before it. Contracts
/// see its schema and its standing.
#[derive(Drop)]
pub struct Session {
    guard: Guard,
    number: u64,
    refused: bool,
}

impl Model for Session {
    ghost use Rattle.std.specs.Prelude.{◌≡◌};
    ghost use Rattle.std.specs.Coded.{codes};
    ghost use Rattle.pgs_syntax.specs.contracts.resolved.Resolved as schemas;
    ghost use Rattle.pgs_run_input.specs.Session.{standard};
    ghost use Rattle.pgs_run_check_try.specs.State.{SessionState, state_of};

    ghost Value = { SessionState };

    ghost coded = { Prim.hlevel (codes, schemas.the_row.coded) };

    ghost view = { λ s. state_of s.guard s.number s.refused };

    ghost invariant = { λ s. s.guard.limits ≡ standard };
}

// Decides a transaction, and does it where it is accepted. No one asks for the steps.
fn apply_counted<L: Ledger>(guard: &mut Guard, txn: &Txn, blank: Blank) -> Result<u64, GuardRefusal>
    requires name { blank.name ≡ L.name }
    requires parts { blank.parts ≡ L.parts }
    requires some { 0 < blank.parts }
    requires limits { guard.old.limits ≡ standard }
    requires commits { guard.old.commits < 18446744073709551615 }
    ensures number { IfOk result (λ number. number ≡ guard.old.commits + 1) }
    ensures accepted { OnOk result (decision_on (verdict guard.old.schema) guard.old.graph txn.now ≡ Ok guard.new.graph) }
    ensures rejected { IfErr result (IsRejected (decision_on (verdict guard.old.schema) guard.old.graph txn.now)) }
    ensures kept { OnOk result (guard.new ≡ record guard.old { graph = guard.new.graph; commits = guard.old.commits + 1 }) }
    ensures unchanged { OnErr result (guard.new ≡ guard.old) }
{
    let mut steps: Steps<L> = Steps::begin(blank);
    guard.apply(txn, &mut steps)
}

// One line.
fn one_line(alloc: Global, line: Bytes) -> Result<Vec<Bytes>, Memory>
    ensures { IfOk result (λ lines. lines.items ≡ line ∷ []) }
{
    let mut lines = Vec::new(alloc);
    lines.push(line)?;
    Ok(lines)
}

impl Session {
    /// Before the first line, on a guard.
    pub fn over(guard: Guard) -> Session
        requires { guard.limits ≡ standard }
        ensures { result ≡ state_of guard 0 (false) }
    {
        Session {
            guard,
            number: 0,
            refused: false,
        }
    }

    /// The status after a whole input.
    pub fn status(&self) -> Status
        ensures { result ≡ status_after self.now.standing.refused }
    {
        if self.refused {
            Status::Refused
        } else {
            Status::Accepted
        }
    }

    // Counts a refused line, and gives its lines, with those of its causes.
    fn refuse(
        &mut self,
        alloc: Global,
        text: &[u8],
        causes: &List<Bytes>,
    ) -> Result<Vec<Bytes>, Memory>
        requires { self.old.standing.number < 2 ^ 64 - 1 }
        ensures session { OnOk result (self.new ≡ record self.old { standing = after_refusal self.old.standing }) }
        ensures lines { IfOk result (λ lines. lines.items ≡ with_causes (λ number. causes.now) self.old.standing (Err text.now)) }
    {
        let number = self.number + 1;
        let mut lines = one_line(alloc, refused_line(alloc, number, text)?)?;
        push_because_lines(alloc, number, causes.as_slice(), &mut lines)?;
        self.number = number;
        self.refused = true;
        Ok(lines)
    }

    // The same of a transaction that the guard rejects.
    fn reject(
        &mut self,
        alloc: Global,
        txn: &Txn,
        rejection: &Rejection,
    ) -> Result<Vec<Bytes>, Memory>
        requires room { self.old.standing.number < 2 ^ 64 - 1 }
        requires rejected { decision_on (verdict self.old.schema) self.old.standing.graph txn.now ≡ Err rejection.now }
        ensures session { OnOk result (self.new ≡ record self.old { standing = after_answer self.old.standing (with_text (Err rejection.now)) }) }
        ensures lines { IfOk result (λ lines. TellsWith (AreStagedCauses self.old.text self.old.schema (staged standard self.old.standing.graph txn.now))
            self.old.standing (with_text (Err rejection.now)) lines.items) }
    {
        let text = rejection_text(alloc, rejection, &Limits::standard())?;
        let causes = rejection_causes(alloc, &self.guard, txn, rejection)?;
        self.refuse(alloc, text.as_slice(), &causes)
    }

    // Counts an accepted transaction, whose commit would have this number, and gives its line.
    fn accept(&mut self, alloc: Global, commit: u64) -> Result<Vec<Bytes>, Memory>
        requires { self.old.standing.number < 2 ^ 64 - 1 }
        ensures session { OnOk result (self.new ≡ record self.old {
          standing = record self.old.standing { number = self.old.standing.number + 1 };
        }) }
        ensures lines { IfOk result (λ lines. lines.items ≡ accepted_line (self.old.standing.number + 1) commit ∷ []) }
    {
        let lines = one_line(alloc, accepted_line(alloc, self.number + 1, commit)?)?;
        self.number += 1;
        Ok(lines)
    }

    // Decides a transaction, and gives what is told of it. No number is left behind 2^64 - 1 commits, which no store has.
    fn take_txn(&mut self, alloc: Global, txn: &Txn) -> Result<Vec<Bytes>, Memory>
        requires { self.old.standing.number < 2 ^ 64 - 1 }
        ensures session { OnOk result (self.new ≡ record self.old {
          standing = after_answer self.old.standing (answer_to_txn (verdict self.old.schema) self.old.standing.graph (Ok txn.now));
        }) }
        ensures lines { IfOk result (λ lines. TellsWith (AreStagedCauses self.old.text self.old.schema (staged standard self.old.standing.graph txn.now))
            self.old.standing (answer_to_txn (verdict self.old.schema) self.old.standing.graph (Ok txn.now)) lines.items) }
    {
        if self.guard.commits() == u64::MAX {
            return Err(Memory);
        }
        match apply_counted::<Brand>(&mut self.guard, txn, Blank::new(1)) {
            Ok(commit) => self.accept(alloc, commit),
            Err(GuardRefusal::Memory) => Err(Memory),
            Err(GuardRefusal::Rejected(rejection)) => self.reject(alloc, txn, &rejection),
        }
    }

    // Answers a line that isn't blank.
    fn answer(&mut self, alloc: Global, line: &[u8]) -> Result<Vec<Bytes>, Memory>
        requires { self.old.standing.number < 2 ^ 64 - 1 }
        ensures session { OnOk result (self.new ≡ record self.old {
          standing = after_answer self.old.standing (answer_to (verdict self.old.schema) self.old.standing.graph line.now);
        }) }
        ensures lines { IfOk result (λ lines. TellsWith (AreLineCauses self.old.text self.old.schema self.old.standing.graph line.now)
            self.old.standing (answer_to (verdict self.old.schema) self.old.standing.graph line.now) lines.items) }
    {
        match txn_of(alloc, line) {
            Ok(txn) => self.take_txn(alloc, &txn),
            Err(TextFault::Refused(text)) => {
                let causes = read_causes(alloc, line)?;
                self.refuse(alloc, text.as_slice(), &causes)
            }
            Err(TextFault::Memory) => Err(Memory),
        }
    }

    /// Takes the next line, and gives what it tells: its verdict line, and behind a refusal its causes. A blank line isn't numbered and
    /// tells nothing. After `Memory` the session isn't used any more.
    pub fn take_line(&mut self, alloc: Global, line: &[u8]) -> Result<Vec<Bytes>, Memory>
        requires { self.old.standing.number < 2 ^ 64 - 1 }
        ensures session { OnOk result (self.new ≡ session_after self.old line.now) }
        ensures lines { IfOk result (λ lines. TellsLine self.old line.now lines.items) }
    {
        if is_blank(line, TEXT_LIMIT) {
            return Ok(Vec::new(alloc));
        }
        self.answer(alloc, line)
    }
}
