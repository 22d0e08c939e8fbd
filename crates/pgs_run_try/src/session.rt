ghost use Rattle.std.specs.Prelude.{◌≡◌, ◌+◌, ◌-◌, ◌<◌, ◌^◌, ◌∷◌, [], Ok, Err, IfOk, IfErr, OnOk};
ghost use Rattle.pgs_answer.specs.Lines.{committed_line};
ghost use Rattle.pgs_run_input.specs.Answers.{schema_answer};
ghost use Rattle.pgs_run_lines.specs.Pieces.{pieces_in};
ghost use Rattle.pgs_run_input.specs.Session.{with_text, answer_to, answer_to_txn, after_answer, after_refusal};
ghost use Rattle.pgs_run_try.specs.Judging.{verdict_by, telling_by, listed};
ghost use Rattle.pgs_run_input.specs.TextFaults.{IsFaultOf};
ghost use Rattle.pgs_run_try.specs.State.{session_after, session_pieces};
ghost use Rattle.pgs_run_try.specs.Told.{start};

use crate::Judging;
use crate::decider::{Decider, apply, open_decider};
use pgs_answer::{committed_line, refused_line, rejection_text};
use pgs_base::{Bytes, Limits, List, Memory, Seed, TEXT_LIMIT};
use pgs_graph::Txn;
use pgs_run_input::{TextFault, TxnReader};
use pgs_run_lines::is_blank;
use pgs_store::GuardRefusal;
use pgs_violation::{Rejection, Violation};
use std::alloc::Global;
use std::marker::Model;

/// Where a run stands between two transaction lines. Contracts see how it judges, its schema and its standing.
#[derive(Drop)]
pub struct Session {
    decider: Decider,
    reader: TxnReader,
    number: u64,
    refused: bool,
}

impl Model for Session {
    ghost use Rattle.std.specs.Coded.{codes};
    ghost use Rattle.pgs_syntax.specs.contracts.resolved.Resolved as schemas;
    ghost use Rattle.pgs_run_try.specs.State.{SessionState, HasStandardLimits, state_in, graph_in, commits_in};

    ghost Value = { SessionState };

    ghost coded = { Prim.hlevel (codes, schemas.the_row.coded) };

    ghost view = { λ s. state_in s.decider (record { number = s.number; commits = commits_in s.decider; refused = s.refused; graph = graph_in s.decider }) };

    ghost invariant = { λ s. HasStandardLimits s.decider };
}

impl Session {
    /// Before the first line, under the schema of a text.
    pub fn open(
        alloc: Global,
        judging: Judging,
        text: &[u8],
        seed: Seed,
    ) -> Result<Session, TextFault>
        ensures schema { IfOk result (λ session. schema_answer text.now ≡ Ok session.schema) }
        ensures judging { IfOk result (λ session. session.judging ≡ judging) }
        ensures standing { IfOk result (λ session. session.standing ≡ start) }
        ensures refused { IfErr result (IsFaultOf (schema_answer text.now)) }
    {
        let decider = open_decider(alloc, judging, text, seed)?;
        Ok(Session {
            decider,
            reader: TxnReader::new(),
            number: 0,
            refused: false,
        })
    }

    /// Whether a line was refused so far.
    pub fn is_refused(&self) -> bool
        ensures { result ≡ self.now.standing.refused }
    {
        self.refused
    }

    /// The violations that are listed at the end of the input, in order.
    #[tactic(auto, unfolding(crate::specs::Judging::listed))]
    pub fn listed(&self, alloc: Global) -> Result<List<Violation>, Memory>
        ensures { IfOk result (λ found. found ≡ listed self.now.judging self.now.schema self.now.standing.graph) }
    {
        match &self.decider {
            Decider::Guarded(_) => Ok(List::new(alloc)),
            Decider::Unjudged(staged) => staged.violations(alloc),
        }
    }

    // The piece of a committed line, whose number the line has behind those so far.
    fn committed_piece(&self, alloc: Global, commit: u64) -> Result<Option<Bytes>, Memory>
        requires lines { self.now.standing.number < 2 ^ 64 - 1 }
        ensures each_line { self.now.judging ≡ Judging.EachLine → IfOk result (λ piece. pieces_in piece ≡ committed_line (self.now.standing.number + 1) commit ∷ []) }
        ensures at_end { self.now.judging ≡ Judging.AtEnd → IfOk result (λ piece. pieces_in piece ≡ []) }
    {
        match &self.decider {
            Decider::Guarded(_) => {
                let line = committed_line(alloc, self.number + 1, commit)?;
                Ok(Some(line))
            }
            Decider::Unjudged(_) => Ok(None),
        }
    }

    // Counts a refused line, and gives its piece.
    #[tactic(auto, using(crate::proofs::Judged::refusal_told))]
    fn refuse(&mut self, alloc: Global, text: &[u8]) -> Result<Option<Bytes>, Memory>
        requires { self.old.standing.number < 2 ^ 64 - 1 }
        ensures session { OnOk result (self.new ≡ record self.old { standing = after_refusal self.old.standing }) }
        ensures piece { IfOk result (λ piece. pieces_in piece ≡ telling_by self.old.judging self.old.standing (Err text.now)) }
    {
        let line = refused_line(alloc, self.number + 1, text)?;
        self.number += 1;
        self.refused = true;
        Ok(Some(line))
    }

    // Counts a rejected transaction, and gives its piece.
    fn reject(&mut self, alloc: Global, rejection: &Rejection) -> Result<Option<Bytes>, Memory>
        requires { self.old.standing.number < 2 ^ 64 - 1 }
        ensures session { OnOk result (self.new ≡ record self.old { standing = after_answer self.old.standing (with_text (Err rejection.now)) }) }
        ensures piece { IfOk result (λ piece. pieces_in piece ≡ telling_by self.old.judging self.old.standing (with_text (Err rejection.now))) }
    {
        let text = rejection_text(alloc, rejection, &Limits::standard())?;
        self.refuse(alloc, text.as_slice())
    }

    // Decides a transaction, and gives what is told of it.
    fn take_txn(&mut self, alloc: Global, txn: &Txn) -> Result<Option<Bytes>, Memory>
        requires lines { self.old.standing.number < 2 ^ 64 - 1 }
        requires commits { self.old.standing.commits < 2 ^ 64 - 1 }
        ensures session { OnOk result (self.new ≡ record self.old {
          standing = after_answer self.old.standing
              (answer_to_txn (verdict_by self.old.judging self.old.schema) self.old.standing.graph (Ok txn.now));
        }) }
        ensures piece { IfOk result (λ piece. pieces_in piece ≡ telling_by self.old.judging self.old.standing
            (answer_to_txn (verdict_by self.old.judging self.old.schema) self.old.standing.graph (Ok txn.now))) }
    {
        match apply(alloc, &mut self.decider, txn) {
            Ok(commit) => {
                let piece = self.committed_piece(alloc, commit)?;
                self.number += 1;
                Ok(piece)
            }
            Err(GuardRefusal::Memory) => Err(Memory),
            Err(GuardRefusal::Rejected(rejection)) => self.reject(alloc, &rejection),
        }
    }

    // Answers a line that isn't blank.
    #[tactic(auto, unfolding(pgs_run_input::specs::Session::answer_to))]
    fn answer(&mut self, alloc: Global, line: &[u8]) -> Result<Option<Bytes>, Memory>
        requires lines { self.old.standing.number < 2 ^ 64 - 1 }
        requires commits { self.old.standing.commits < 2 ^ 64 - 1 }
        ensures session { OnOk result (self.new ≡ record self.old {
          standing = after_answer self.old.standing
              (answer_to (verdict_by self.old.judging self.old.schema) self.old.standing.graph line.now);
        }) }
        ensures piece { IfOk result (λ piece. pieces_in piece ≡ telling_by self.old.judging self.old.standing
            (answer_to (verdict_by self.old.judging self.old.schema) self.old.standing.graph line.now)) }
    {
        match self.reader.read(alloc, line) {
            Ok(txn) => self.take_txn(alloc, &txn),
            Err(TextFault::Refused(text)) => self.refuse(alloc, text.as_slice()),
            Err(TextFault::Memory) => Err(Memory),
        }
    }

    /// Takes the next line, and gives what it tells, if anything. A blank line isn't numbered. After `Memory` the session isn't used any
    /// more.
    #[tactic(auto, unfolding(pgs_run_input::specs::Session::after_line, pgs_run_input::specs::Session::pieces_of_line))]
    pub fn take_line(&mut self, alloc: Global, line: &[u8]) -> Result<Option<Bytes>, Memory>
        requires lines { self.old.standing.number < 2 ^ 64 - 1 }
        requires commits { self.old.standing.commits < 2 ^ 64 - 1 }
        ensures session { OnOk result (self.new ≡ session_after self.old line.now) }
        ensures piece { IfOk result (λ piece. pieces_in piece ≡ session_pieces self.old line.now) }
    {
        if is_blank(line, TEXT_LIMIT) {
            return Ok(None);
        }
        self.answer(alloc, line)
    }
}
