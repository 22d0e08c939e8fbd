//! Whether a plan has a step for each end of each edge place, so that the variables hang on one another as a tree.

ghost use Rattle.std.specs.Prelude.{◌≡◌, cond, not, true, false};
ghost use Rattle.std.specs.List.{list_any};
ghost use Rattle.pgs_match.specs.Branches.{is_between, has_steps, is_tree};

use crate::Step;
use pgs_syntax::Atom;

fn is_side(first: bool, source: bool) -> bool
    ensures { result ≡ cond source first (not first) }
{
    if source { first } else { !first }
}

// Whether a step is between an edge variable and the node variable at its source, or at its target.
fn is_between(step: Step, edge: u32, node: u32, source: bool) -> bool
    ensures { result ≡ is_between edge node source step }
{
    match step {
        Step::Along {
            edge: of,
            node: end,
            forward,
        } => of == edge && end == node && is_side(forward, source),
        Step::End {
            edge: of,
            node: end,
            source: first,
        } => of == edge && end == node && is_side(first, source),
    }
}

fn has_step(plan: &[Step], edge: u32, node: u32, source: bool) -> bool
    ensures { result ≡ list_any (is_between edge node source) plan.now }
{
    for step in plan {
        if is_between(*step, edge, node, source) {
            return true;
        }
    }
    false
}

// Whether there is a step between an edge and each of its ends.
fn has_steps(plan: &[Step], atom: &Atom) -> bool
    ensures { result ≡ has_steps plan.now atom.now }
{
    match atom {
        Atom::Ends {
            edge,
            source,
            target,
        } => has_step(plan, *edge, *source, true) && has_step(plan, *edge, *target, false),
        _ => true,
    }
}

/// Whether the plan has a step for each end of each edge place.
pub(crate) fn is_tree(atoms: &[Atom], plan: &[Step]) -> bool
    ensures { result ≡ is_tree atoms.now plan.now }
{
    for atom in atoms {
        if !has_steps(plan, atom) {
            return false;
        }
    }
    true
}
