//! Finding a plan: at each point the best of the steps that are possible.

ghost use Rattle.std.specs.Prelude.{◌≡◌, ◌<◌, true, cond, length, IfOk};
ghost use Rattle.pgs_syntax.specs.Valid.{is_valid_pattern};
ghost use Rattle.pgs_match.specs.Plans.{is_known, is_step, is_plan, known_alone, asks_alone, asked_of, is_as_good, step_between, step_at, better, IsBestOf, AreBest};

use crate::{MOST_VARIABLES, Step};
use pgs_base::{List, Memory};
use pgs_syntax::{Atom, Pattern};
use std::alloc::Global;

/// A plan of a valid pattern from one of its variables. At each point it takes the best of all steps that are possible there: an end of
/// an edge before the edges of a node, and else one whose variable is asked for as much as that of any other.
pub fn plan_from(alloc: Global, pattern: &Pattern, start: u32) -> Result<List<Step>, Memory>
    requires valid { is_valid_pattern pattern.now ≡ true }
    requires in_range { start < length pattern.now.edge_vars }
    ensures plan { IfOk result (λ plan. is_plan pattern.now start plan ≡ true) }
    ensures best { IfOk result (λ plan. AreBest pattern.now.atoms (known_alone start) plan) }
{
    let atoms = pattern.atoms.as_slice();
    let mut known = [false; MOST_VARIABLES];
    known[start as usize] = true;
    let mut plan = Vec::new(alloc);
    while let Some(step) = best_step(atoms, &known) {
        known[step.bound() as usize] = true;
        plan.push(step)?;
    }
    Ok(List::from_vec(plan))
}

// The best of the steps that are possible. `None` exactly where there is none.
fn best_step(atoms: &[Atom], known: &[bool; MOST_VARIABLES]) -> Option<Step>
    ensures { IsBestOf atoms.now (is_step atoms.now known.now) result }
{
    let mut best = None;
    for atom in atoms {
        let at_source = step_at(atom, true, known);
        let at_target = step_at(atom, false, known);
        let with_source = better(best, at_source, atoms);
        best = better(with_source, at_target, atoms);
    }
    best
}

// The step that is possible at one end of an edge place: where the edge is known and the end isn't, or the other way round.
fn step_at(atom: &Atom, source: bool, known: &[bool; MOST_VARIABLES]) -> Option<Step>
    ensures { result ≡ step_at known.now source atom.now }
{
    match atom {
        Atom::Ends {
            edge,
            source: first,
            target: second,
        } => step_between(*edge, end_var(source, *first, *second), source, known),
        _ => None,
    }
}

fn step_between(edge: u32, node: u32, source: bool, known: &[bool; MOST_VARIABLES]) -> Option<Step>
    ensures { result ≡ step_between known.now edge node source }
{
    match (is_set(known, edge), is_set(known, node)) {
        (true, false) => Some(Step::End { edge, node, source }),
        (false, true) => Some(Step::Along {
            edge,
            node,
            forward: source,
        }),
        (true, true) | (false, false) => None,
    }
}

fn end_var(source: bool, first: u32, second: u32) -> u32
    ensures { result ≡ cond source first second }
{
    if source { first } else { second }
}

// Whether a variable is known.
fn is_set(known: &[bool; MOST_VARIABLES], var: u32) -> bool
    ensures { result ≡ is_known known.now var }
{
    match known.get(var as usize) {
        Some(known) => *known,
        None => false,
    }
}

// Of what was found and a further step the better one. What was found stays where they are as good.
fn better(best: Option<Step>, further: Option<Step>, atoms: &[Atom]) -> Option<Step>
    ensures { result ≡ better atoms.now best further }
{
    match (best, further) {
        (None, further) => further,
        (Some(step), None) => Some(step),
        (Some(step), Some(further)) => {
            if is_as_good(step, further, atoms) {
                Some(step)
            } else {
                Some(further)
            }
        }
    }
}

// Whether a step is as good as another: it alone takes an end, or both do or neither and as much is asked of what it binds.
fn is_as_good(step: Step, other: Step, atoms: &[Atom]) -> bool
    ensures { result ≡ is_as_good atoms.now step other }
{
    match (step, other) {
        (Step::End { .. }, Step::Along { .. }) => true,
        (Step::Along { .. }, Step::End { .. }) => false,
        (Step::End { node, .. }, Step::End { node: other, .. }) => {
            asked_of(atoms, other) <= asked_of(atoms, node)
        }
        (Step::Along { edge, .. }, Step::Along { edge: other, .. }) => {
            asked_of(atoms, other) <= asked_of(atoms, edge)
        }
    }
}

// How much is asked of a variable alone.
fn asked_of(atoms: &[Atom], var: u32) -> usize
    ensures { result ≡ asked_of atoms.now var }
{
    atoms.iter().filter(|atom| asks_alone(atom, var)).count()
}

// Whether an atom asks something of a variable alone.
fn asks_alone(atom: &Atom, var: u32) -> bool
    ensures { result ≡ asks_alone var atom.now }
{
    match atom {
        Atom::Ends { .. } => false,
        Atom::HasLabel { var: of, .. }
        | Atom::FitsNode { var: of, .. }
        | Atom::FitsEdge { var: of, .. }
        | Atom::Equals { var: of, .. } => *of == var,
    }
}
