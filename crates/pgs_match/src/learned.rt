//! What the searches of one key in one graph have learned, and the calls that use it.

ghost use Rattle.std.specs.Prelude.{◌≡◌, ◌+◌, ◌*◌, ◌^◌, ◌<◌, ◌≤◌, ◌&&◌, ℕ, List as Items, not, true, false, None, length, IfOk, OnOk};
ghost use Rattle.std.specs.List.{Contains, list_any, list_all};
ghost use Rattle.pgs_base.specs.Graph.{Graph};
ghost use Rattle.pgs_syntax.specs.declared.key.Key.{Key};
ghost use Rattle.pgs_syntax.specs.declared.resolved.Resolved.{Resolved};
ghost use Rattle.pgs_syntax.specs.KeyValues.{is_in_scope, key_values};
ghost use Rattle.pgs_syntax.specs.Matches.{matches};
ghost use Rattle.pgs_syntax.specs.Valid.{edge_count, is_valid_key_of, is_valid_pattern, names_types};
ghost use Rattle.pgs_match.specs.declared.stand.Stand.{Stand};
ghost use Rattle.pgs_match.specs.Answers.{AreRight, IsClosed, IsPaid};
ghost use Rattle.pgs_match.specs.Bounds.{stands_at};
ghost use Rattle.pgs_match.specs.Branches.{has_no_cycle, is_tree};
ghost use Rattle.pgs_match.specs.Near.{IsSparse};
ghost use Rattle.pgs_match.specs.Planned.{most_edges};
ghost use Rattle.pgs_match.specs.Plans.{is_plan};
ghost use Rattle.pgs_match.specs.Spread.{stand_at, elem_degree};
ghost use Rattle.pgs_match.specs.Learned.{IsLearned, IsTaken, IsWayTaken, HasSearched, is_short, unlearned};

use crate::answers::Answers;
use crate::branches::head;
use crate::notes::Notes;
use crate::paths::is_by_nodes;
use crate::plan::copy_plan;
use crate::remembering::Asking;
use crate::searching::Place;
use crate::trees::is_tree;
use crate::{Plan, PlannedKey, Search, Side, Step, key_values};
use pgs_base::{Elem, List, Memory, Steps, TupleSet};
use pgs_conform::Compiled;
use pgs_graph::GraphRead;
use pgs_syntax::{Atom, Expr};
use std::alloc::Global;
use std::sync::ledger::Ledger;

/// The plan along which a pattern is searched from x, and what was noted along it.
pub(crate) struct Memo {
    plan: List<Step>,
    answers: Answers,
}

// What is learned is dropped by one function of each type, so that no other function need prove anew how it is taken apart.
impl Drop for Memo {
    fn drop(self) {
        let Memo {
            plan: _,
            answers: _,
        } = self;
    }
}

/// The plan along which key values are searched from x, and what was noted along it.
pub(crate) struct WayMemo {
    plan: Plan,
    notes: Notes,
}

impl Drop for WayMemo {
    fn drop(self) {
        let WayMemo { plan: _, notes: _ } = self;
    }
}

/// What the searches of one key in one graph have learned of nodes at variables.
pub struct Learned {
    alloc: Global,
    scope: Option<Memo>,
    values: Option<WayMemo>,
}

impl Drop for Learned {
    fn drop(self) {
        let Learned {
            alloc: _,
            scope: _,
            values: _,
        } = self;
    }
}

impl Learned {
    /// Nothing, which is right for each key and graph. It takes no memory.
    pub fn new(alloc: Global) -> Learned
        ensures { (resolved : Resolved) → (g : Graph) → (key : Key) → IsLearned resolved g key result }
    {
        Learned {
            alloc,
            scope: None,
            values: None,
        }
    }

    // What was learned along a plan, taken out, or where nothing was, nothing along this plan.
    fn taken(&mut self, plan: &[Step]) -> Result<Memo, Memory>
        ensures none { self.new.scope ≡ None }
        ensures others { self.new.values ≡ self.old.values }
        ensures memo { IfOk result (IsTaken self.old.scope plan.now) }
    {
        match self.scope.take() {
            Some(memo) => Ok(memo),
            None => Ok(Memo {
                plan: List::from_slice(self.alloc, plan)?,
                answers: Answers::new(self.alloc),
            }),
        }
    }

    // What was learned of key values, taken out, or where nothing was, nothing along this plan.
    fn values_taken(&mut self, plan: &Plan) -> Result<WayMemo, Memory>
        ensures none { self.new.values ≡ None }
        ensures others { self.new.scope ≡ self.old.scope }
        ensures memo { IfOk result (IsWayTaken self.old.values plan.now) }
    {
        match self.values.take() {
            Some(memo) => Ok(memo),
            None => Ok(WayMemo {
                plan: copy_plan(self.alloc, plan)?,
                notes: Notes::new(self.alloc),
            }),
        }
    }
}

// Whether a plan has at most two steps, and no second one along edges: nothing hangs on a node but x, so that nothing would be noted.
pub(crate) fn is_short(plan: &[Step]) -> bool
    ensures { result ≡ is_short plan.now }
{
    match head(plan) {
        None => true,
        Some((_, rest)) => match head(rest) {
            None => true,
            Some((Step::Along { .. }, _)) => false,
            Some((Step::End { .. }, last)) => match head(last) {
                None => true,
                Some(_) => false,
            },
        },
    }
}

// Whether answers are noted along a plan: each branch is asked by itself, and something may hang on a node that is come to.
fn is_noted(atoms: &[Atom], plan: &[Step]) -> bool
    ensures { result ≡ (not (is_short plan.now) && is_tree atoms.now plan.now) }
{
    !is_short(plan) && is_tree(atoms, plan)
}

impl<'a, G: GraphRead> Place<'a, G> {
    // Whether some match has the element at x, by a plan from there that has a step for each end of each edge place, with what was noted.
    fn has_match_by<L: Ledger>(
        &self,
        plan: &[Step],
        elem: Elem,
        answers: &mut Answers,
        steps: &mut Steps<L>,
    ) -> bool
        requires valid { is_valid_pattern self.now.pattern.now ≡ true }
        requires names { list_all (names_types self.now.compiled.now) self.now.pattern.now.atoms ≡ true }
        requires in_range { 0 < length self.now.pattern.now.edge_vars }
        requires plan { is_plan self.now.pattern.now 0 plan.now ≡ true }
        requires tree { is_tree self.now.pattern.now.atoms plan.now ≡ true }
        requires right { AreRight self.now.compiled.now (G.meaning self.now.graph.now) self.now.pattern.now.atoms plan.now answers.old }
        ensures found { result ≡ list_any (stands_at 0 elem) (matches self.now.compiled.now (G.meaning self.now.graph.now) self.now.pattern.now) }
        ensures right { AreRight self.now.compiled.now (G.meaning self.now.graph.now) self.now.pattern.now.atoms plan.now answers.new }
        ensures no_step_back { steps.old ≤ steps.new }
        ensures cost { (w most : ℕ) → edge_count self.now.pattern.now.edge_vars ≤ w → IsSparse (G.meaning self.now.graph.now) w elem most →
            steps.new ≤ steps.old + 16 * (most + 2) ^ (w + 1) }
        ensures once { (pairs : Items Stand) → Contains pairs (stand_at 0 elem) →
            IsClosed self.now.compiled.now (G.meaning self.now.graph.now) self.now.pattern.now.atoms pairs plan.now →
            IsPaid (G.meaning self.now.graph.now) 440 pairs answers.old answers.new steps.old steps.new (440 * (elem_degree (G.meaning self.now.graph.now) elem + 2)) }
    {
        let asking = Asking {
            search: Search {
                graph: self.graph,
                compiled: self.compiled,
                atoms: self.pattern.atoms.as_slice(),
            },
            whole: plan,
        };
        match self.begin(&asking.search, 0, elem, steps) {
            Some(bound) => asking.given(plan, 0, bound, answers, steps),
            None => false,
        }
    }
}

/// Whether an element is in the scope of a key, by what was learned of the same key in the same graph; what is learned anew is added.
/// The key's types are those of the schema. `Memory` where none was left; what was learned is right then too.
///
/// It takes no more look-ups than [`in_scope`](crate::in_scope) may. Where the scope has no cycle it takes at most 440 times the degree plus
/// 2 of the element, and 440 times the same of each pair of a variable and an element of which nothing was learned before and something
/// is now (`unlearned` in `specs/Learned.antt` of `pgs_match`), unless `Memory` comes: so over many calls each pair counts once. Where the
/// scope has at most one edge variable, or a cycle, it takes no memory.
pub fn in_scope_learned<G: GraphRead, L: Ledger>(
    graph: &G,
    compiled: &Compiled,
    key: &PlannedKey,
    elem: Elem,
    learned: &mut Learned,
    steps: &mut Steps<L>,
) -> Result<bool, Memory>
    requires typed { is_valid_key_of compiled.now key.now ≡ true }
    requires learned { IsLearned compiled.now (G.meaning graph.now) key.now learned.old }
    ensures found { IfOk result (λ found. found ≡ is_in_scope compiled.now (G.meaning graph.now) key.now elem) }
    ensures learned { IsLearned compiled.now (G.meaning graph.now) key.now learned.new }
    ensures no_step_back { steps.old ≤ steps.new }
    ensures cost { (most : ℕ) → IsSparse (G.meaning graph.now) (most_edges key.now) elem most →
        steps.new ≤ steps.old + 16 * (most + 2) ^ (most_edges key.now + 1) }
    ensures once { has_no_cycle key.now.scope ≡ true → (pairs : Items Stand) → HasSearched compiled.now (G.meaning graph.now) key.now.scope elem pairs →
        OnOk result (steps.new + 440 * unlearned (G.meaning graph.now) learned.new pairs
        ≤ steps.old + 440 * unlearned (G.meaning graph.now) learned.old pairs + 440 * (elem_degree (G.meaning graph.now) elem + 2)) }
{
    let plan = key.plan(Side::Scope, 0).steps.as_slice();
    let pattern = key.pattern(Side::Scope);
    let atoms = pattern.atoms.as_slice();
    let place = Place {
        graph,
        compiled,
        pattern,
    };
    if !is_noted(atoms, plan) {
        return Ok(place.has_match(plan, 0, elem, steps));
    }
    let mut memo = learned.taken(plan)?;
    let found = place.has_match_by(memo.plan.as_slice(), elem, &mut memo.answers, steps);
    let is_full = memo.answers.is_full;
    if is_full {
        return Err(Memory);
    }
    learned.scope = Some(memo);
    Ok(found)
}

// Whether answers are noted along the way to what expressions take from x.
fn is_noted_on_way(atoms: &[Atom], plan: &Plan, exprs: &[Expr]) -> bool {
    is_by_nodes(plan, 0, exprs) && is_tree(atoms, plan.steps.as_slice())
}

/// The key values of an element, by what was learned of the same key in the same graph; what is learned anew is added, where the descriptor
/// has no cycle and the expressions take one variable beside x. The key's types are those of the schema. `Memory` where none was left; what
/// was learned is right then too.
pub fn key_values_learned<G: GraphRead, L: Ledger>(
    alloc: Global,
    graph: &G,
    compiled: &Compiled,
    key: &PlannedKey,
    elem: Elem,
    learned: &mut Learned,
    steps: &mut Steps<L>,
) -> Result<TupleSet, Memory>
    requires typed { is_valid_key_of compiled.now key.now ≡ true }
    requires learned { IsLearned compiled.now (G.meaning graph.now) key.now learned.old }
    ensures values { IfOk result (λ tuples. tuples ≡ key_values compiled.now (G.meaning graph.now) key.now elem) }
    ensures learned { IsLearned compiled.now (G.meaning graph.now) key.now learned.new }
    ensures no_step_back { steps.old ≤ steps.new }
    ensures cost { (most : ℕ) → IsSparse (G.meaning graph.now) (most_edges key.now) elem most →
        steps.new ≤ steps.old + 16 * (most + 2) ^ (most_edges key.now + 1) }
    ensures few { (most : ℕ) → IsSparse (G.meaning graph.now) (most_edges key.now) elem most →
        IfOk result (λ tuples. length tuples ≤ (most + 2) ^ most_edges key.now) }
{
    let plan = key.values();
    let exprs = key.key().exprs.as_slice();
    let pattern = key.pattern(Side::Descriptor);
    if !is_noted_on_way(pattern.atoms.as_slice(), plan, exprs) {
        return key_values(alloc, graph, compiled, key, elem, steps);
    }
    let place = Place {
        graph,
        compiled,
        pattern,
    };
    let mut memo = learned.values_taken(plan)?;
    let tuples = place.tuples(alloc, exprs, &memo.plan, 0, elem, &mut memo.notes, steps)?;
    learned.values = Some(memo);
    Ok(tuples)
}
