ghost use Rattle.std.specs.Prelude.{◌≡◌, ◌∷◌, [], ◌+◌, ◌<◌, ◌≤◌, true, OnOk, IfOk, MatchOption, ⊤, List, ℕ};
ghost use Rattle.pgs_resolve_order.specs.Links.{leads_back, IsSomeBack};
ghost use Rattle.pgs_resolve_order.specs.Searching.{mark_at, unseen_work};
ghost use Rattle.pgs_resolve_order.specs.DepthFirst.{way_of, IsNext, IsDepthFirst, StayMarked, left_work, search_steps};

use crate::links::row_at;
use crate::marks::{mark_of, set_mark};
use pgs_base::{List, Memory, Steps};
use std::alloc::Global;
use std::sync::ledger::Ledger;

const ON_THE_WAY: usize = 1;

const DONE: usize = 2;

// A number on the way, and its links that are left.
#[derive(Clone, Copy)]
struct Visit<'a> {
    number: usize,
    rest: &'a [u32],
}

// A search, depth first, for a number that leads back to itself. A number's mark is 0 until it is seen, 1 while it is on
// the way, and 2 once all that it leads to is done.
#[derive(Drop)]
struct DepthFirst<'a> {
    marks: Vec<usize>,
    visits: Vec<Visit<'a>>,
}

impl<'a> DepthFirst<'a> {
    // Sees the next number and goes there.
    fn enter(&mut self, rows: &'a [List<u32>], number: usize) -> Result<(), Memory>
        requires search { IsDepthFirst rows.now self.old.marks.items (way_of self.old) }
        requires unseen { mark_at self.old.marks.items number ≡ 0 }
        requires next { IsNext rows.now (way_of self.old) number }
        ensures search { OnOk result (IsDepthFirst rows.now self.new.marks.items (way_of self.new)) }
        ensures stay { OnOk result (StayMarked self.old.marks.items self.new.marks.items) }
        ensures seen { OnOk result (0 < mark_at self.new.marks.items number) }
        ensures work { OnOk result (left_work rows.now self.new.marks.items (way_of self.new) < left_work rows.now self.old.marks.items (way_of self.old)) }
    {
        set_mark(&mut self.marks, number, ON_THE_WAY);
        self.visits.push(Visit {
            number,
            rest: row_at(rows, number),
        })?;
        Ok(())
    }

    // Passes one link of the last number on the way, or goes back from it. A link to a number on the way leads back.
    fn step(&mut self, rows: &'a [List<u32>], visit: Visit<'a>) -> Result<Option<usize>, Memory>
        requires search { IsDepthFirst rows.now self.old.marks.items (visit ∷ way_of self.old) }
        ensures back { IfOk result (λ found. MatchOption found (IsDepthFirst rows.now self.new.marks.items (way_of self.new)) (λ number. leads_back rows.now number ≡ true)) }
        ensures stay { OnOk result (StayMarked self.old.marks.items self.new.marks.items) }
        ensures work { OnOk result (left_work rows.now self.new.marks.items (way_of self.new) < left_work rows.now self.old.marks.items (visit.entry ∷ way_of self.old)) }
    {
        let [next, rest @ ..] = visit.rest else {
            set_mark(&mut self.marks, visit.number, DONE);
            return Ok(None);
        };
        let next = *next as usize;
        let mark = mark_of(&self.marks, next);
        if mark == ON_THE_WAY {
            return Ok(Some(next));
        }
        if mark == 0 {
            self.visits.push(visit)?;
            self.enter(rows, next)?;
        } else {
            self.visits.push(Visit { rest, ..visit })?;
        }
        Ok(None)
    }

    // Goes to a number, where it isn't seen, and on until nothing is left on the way.
    fn visit<L: Ledger>(
        &mut self,
        rows: &'a [List<u32>],
        start: usize,
        steps: &mut Steps<L>,
    ) -> Result<Option<usize>, Memory>
        requires search { IsDepthFirst rows.now self.old.marks.items [] }
        requires empty { self.old.visits.items ≡ [] }
        ensures back { IfOk result (λ found. MatchOption found (IsDepthFirst rows.now self.new.marks.items []) (λ number. leads_back rows.now number ≡ true)) }
        ensures empty { IfOk result (λ found. MatchOption found (self.new.visits.items ≡ []) (λ number. ⊤)) }
        ensures stay { OnOk result (StayMarked self.old.marks.items self.new.marks.items) }
        ensures done { IfOk result (λ found. MatchOption found (1 < mark_at self.new.marks.items start) (λ number. ⊤)) }
        ensures work { OnOk result (steps.new + unseen_work rows.now self.new.marks.items ≤ steps.old + unseen_work rows.now self.old.marks.items) }
    {
        if mark_of(&self.marks, start) != 0 {
            return Ok(None);
        }
        self.enter(rows, start)?;
        while let Some(visit) = self.visits.pop() {
            steps.tick();
            let found = self.step(rows, visit)?;
            if found.is_some() {
                return Ok(found);
            }
        }
        Ok(None)
    }
}

/// A number that leads back to itself. `None` exactly where none does.
pub fn some_back<L: Ledger>(
    alloc: Global,
    rows: &[List<u32>],
    steps: &mut Steps<L>,
) -> Result<Option<usize>, Memory>
    ensures back { IfOk result (IsSomeBack rows.now) }
    ensures work { OnOk result (steps.new ≤ steps.old + search_steps rows.now) }
{
    let mut search = DepthFirst {
        marks: vec![in alloc; 0; rows.len()]?,
        visits: Vec::new(alloc),
    };
    for start in 0..rows.len() {
        steps.tick();
        let found = search.visit(rows, start, steps)?;
        if found.is_some() {
            return Ok(found);
        }
    }
    Ok(None)
}
