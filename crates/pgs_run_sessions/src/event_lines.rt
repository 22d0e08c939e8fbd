ghost use Rattle.std.specs.Prelude.{◌≡◌, ◌+◌, ◌-◌, ◌<◌, ◌^◌, Ok, IfOk, IfErr, OnOk};
ghost use Rattle.pgs_answer.specs.Lines.{refused_line};
ghost use Rattle.pgs_run_sessions.specs.Events.{event_answer};
ghost use Rattle.pgs_run_input.specs.Answers.{schema_answer};
ghost use Rattle.pgs_run_input.specs.TextFaults.{IsFaultOf};
ghost use Rattle.pgs_run_lines.specs.Pieces.{pieces_in};
ghost use Rattle.pgs_run_sessions.specs.EventLines.{first, after_refusal, after_event, event_line, after_answer, answer_line, after_line, pieces_of_line};
ghost use Rattle.pgs_run_sessions.specs.State.{schema_in, standing_in, brief_sessions};

use crate::asked::Asked;
use crate::events::event_of;
use crate::one_event::step;
use crate::replies::{is_refusal, reply_line};
use pgs_answer::refused_line;
use pgs_base::{Bytes, Limits, Memory, Seed, TEXT_LIMIT};
use pgs_run_input::{TextFault, fault_of};
use pgs_run_lines::is_blank;
use pgs_sessions::{Event, Sessions};
use std::alloc::Global;
use std::marker::Model;

/// Where a run stands between two event lines.
pub struct EventLines {
    sessions: Sessions,
    number: u64,
    refused: bool,
}

impl Model for EventLines {
    ghost use Rattle.std.specs.Prelude.{◌≡◌};
    ghost use Rattle.std.specs.Coded.{codes};
    ghost use Rattle.pgs_run_input.specs.Session.{standard};
    ghost use Rattle.pgs_run_sessions.specs.State.{EventLinesState};
    ghost use Rattle.pgs_base.specs.contracts.seed.Seed as seeds;
    ghost use Rattle.pgs_syntax.specs.contracts.resolved.Resolved as schemas;

    ghost Value = { EventLinesState };

    ghost coded = { Prim.hlevel (codes, schemas.the_row.coded, seeds.the_row.coded) };

    ghost view = { λ s. record { sessions = s.sessions; number = s.number; refused = s.refused } };

    ghost invariant = { λ s. s.sessions.guard.limits ≡ standard };
}

// Dropped by one function of this crate.
impl Drop for EventLines {
    fn drop(self) {
        let EventLines {
            sessions: _,
            number: _,
            refused: _,
        } = self;
    }
}

impl EventLines {
    /// Before the first line, under the schema of a text.
    #[tactic(auto, unfolding(pgs_run_input::specs::Answers::schema_answer))]
    pub fn open(alloc: Global, text: &[u8], seed: Seed) -> Result<EventLines, TextFault>
        ensures schema { IfOk result (λ s. schema_answer text.now ≡ Ok (schema_in s)) }
        ensures standing { IfOk result (λ s. standing_in s ≡ first brief_sessions.begin) }
        ensures refused { IfErr result (IsFaultOf (schema_answer text.now)) }
    {
        match Sessions::with_seed(alloc, text, Limits::standard(), seed) {
            Ok(sessions) => Ok(EventLines {
                sessions,
                number: 0,
                refused: false,
            }),
            Err(unread) => Err(fault_of(alloc, unread)),
        }
    }

    /// Whether a line was refused so far.
    pub fn is_refused(&self) -> bool
        ensures { result ≡ self.now.refused }
    {
        self.refused
    }

    // Counts a line that is no event, and gives its line.
    fn refuse(&mut self, alloc: Global, text: &[u8]) -> Result<Bytes, Memory>
        requires { self.old.number < 2 ^ 64 - 1 }
        ensures schema { OnOk result (schema_in self.new ≡ schema_in self.old) }
        ensures standing { OnOk result (standing_in self.new ≡ after_refusal (standing_in self.old)) }
        ensures line { IfOk result (λ line. line ≡ refused_line (self.old.number + 1) text.now) }
    {
        let line = refused_line(alloc, self.number + 1, text)?;
        self.number += 1;
        self.refused = true;
        Ok(line)
    }

    // Takes an event, and gives its line.
    fn take_event(&mut self, alloc: Global, event: Event) -> Result<Bytes, Memory>
        requires lines { self.old.number < 2 ^ 64 - 1 }
        requires commits { self.old.sessions.guard.commits < 2 ^ 64 - 1 }
        ensures schema { OnOk result (schema_in self.new ≡ schema_in self.old) }
        ensures standing { OnOk result (standing_in self.new ≡ after_event (brief_sessions.step (schema_in self.old)) (standing_in self.old) event) }
        ensures line { IfOk result (λ line. line ≡ event_line (brief_sessions.step (schema_in self.old)) (standing_in self.old) event) }
    {
        let asked = Asked::of(&event);
        let reply = step(&mut self.sessions, event)?;
        let refused = is_refusal(&reply);
        let line = reply_line(alloc, self.number + 1, asked, reply)?;
        self.number += 1;
        self.refused = self.refused || refused;
        Ok(line)
    }

    // Takes a line that isn't blank.
    fn answer(&mut self, alloc: Global, line: &[u8]) -> Result<Bytes, Memory>
        requires lines { self.old.number < 2 ^ 64 - 1 }
        requires commits { self.old.sessions.guard.commits < 2 ^ 64 - 1 }
        ensures schema { OnOk result (schema_in self.new ≡ schema_in self.old) }
        ensures standing { OnOk result (standing_in self.new ≡ after_answer (brief_sessions.step (schema_in self.old)) (standing_in self.old) (event_answer line.now)) }
        ensures line { IfOk result (λ told. told ≡ answer_line (brief_sessions.step (schema_in self.old)) (standing_in self.old) (event_answer line.now)) }
    {
        match event_of(alloc, line) {
            Ok(event) => self.take_event(alloc, event),
            Err(TextFault::Refused(text)) => self.refuse(alloc, text.as_slice()),
            Err(TextFault::Memory) => Err(Memory),
        }
    }

    /// Takes the next line, and gives what it tells, if anything. A blank line isn't numbered. After `Memory` it isn't used any more.
    #[tactic(auto, unfolding(crate::specs::EventLines::after_line, crate::specs::EventLines::pieces_of_line))]
    pub fn take_line(&mut self, alloc: Global, line: &[u8]) -> Result<Option<Bytes>, Memory>
        requires lines { self.old.number < 2 ^ 64 - 1 }
        requires commits { self.old.sessions.guard.commits < 2 ^ 64 - 1 }
        ensures schema { OnOk result (schema_in self.new ≡ schema_in self.old) }
        ensures standing { OnOk result (standing_in self.new ≡ after_line (brief_sessions.step (schema_in self.old)) (standing_in self.old) line.now) }
        ensures piece { IfOk result (λ piece. pieces_in piece ≡ pieces_of_line (brief_sessions.step (schema_in self.old)) (standing_in self.old) line.now) }
    {
        if is_blank(line, TEXT_LIMIT) {
            return Ok(None);
        }
        let piece = self.answer(alloc, line)?;
        Ok(Some(piece))
    }
}
