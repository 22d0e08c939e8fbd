ghost use Rattle.std.specs.Prelude.{◌≡◌, ◌<◌, ◌+◌, ◌*◌, ◌^◌, ◌++◌, ◌∷◌, [], List as Items, Bool, length, OnOk, IfOk};
ghost use Rattle.pgs_resolve_keys.specs.Patterns.{Variable, variable_at, number_of, step_atoms, path_atoms, places_of, pattern_of};
ghost use Rattle.pgs_resolve_keys.specs.VariableTable.{Holds};

use crate::atoms::{ends, push_place};
use crate::places::places_of;
use crate::variables::Variables;
use pgs_base::{List, Memory, Name};
use pgs_resolve_declared::Numbering;
use pgs_syntax::{Atom, Pattern, RawPath, RawStep};
use std::alloc::Global;

// Puts the atoms of a step last, whose edge is at the place of this number and leaves this node. Answers the next node.
fn push_step(
    alloc: Global,
    numbering: &Numbering,
    variables: &Variables,
    node: u32,
    place: usize,
    step: &RawStep,
    atoms: &mut Vec<Atom>,
) -> Result<u32, Memory>
    requires { place + 1 < 2 ^ 64 }
    ensures next { IfOk result (λ next. (held : Items (Variable × Bool)) → Holds held variables.now → next ≡ number_of held (variable_at (place + 1) step.now.node)) }
    ensures atoms { (held : Items (Variable × Bool)) → Holds held variables.now →
        OnOk result (atoms.new.items ≡ atoms.old.items ++ step_atoms numbering.now (number_of held) node place (step.now ∷ [])) }
{
    let edge = variables.number(place, &step.edge);
    let next = variables.number(place + 1, &step.node);
    push_place(alloc, numbering, true, edge, &step.edge.filter, atoms)?;
    push_place(alloc, numbering, false, next, &step.node.filter, atoms)?;
    atoms.push(ends(step.forward, edge, node, next))?;
    Ok(next)
}

fn push_steps(
    alloc: Global,
    numbering: &Numbering,
    variables: &Variables,
    start: u32,
    first: usize,
    steps: &[RawStep],
    atoms: &mut Vec<Atom>,
) -> Result<(), Memory>
    requires { first + 2 * length steps.now < 2 ^ 64 }
    ensures { (held : Items (Variable × Bool)) → Holds held variables.now →
        OnOk result (atoms.new.items ≡ atoms.old.items ++ step_atoms numbering.now (number_of held) start first steps.now) }
{
    let mut node = start;
    let mut place = first;
    for step in steps {
        node = push_step(alloc, numbering, variables, node, place, step, atoms)?;
        place += 2;
    }
    Ok(())
}

fn push_path(
    alloc: Global,
    numbering: &Numbering,
    variables: &Variables,
    place: usize,
    path: &RawPath,
    atoms: &mut Vec<Atom>,
) -> Result<(), Memory>
    requires { place + 1 + 2 * length path.now.steps < 2 ^ 64 }
    ensures { (held : Items (Variable × Bool)) → Holds held variables.now →
        OnOk result (atoms.new.items ≡ atoms.old.items ++ path_atoms numbering.now (number_of held) place (path.now ∷ [])) }
{
    let node = variables.number(place, &path.start);
    push_place(alloc, numbering, false, node, &path.start.filter, atoms)?;
    push_steps(
        alloc,
        numbering,
        variables,
        node,
        place + 1,
        path.steps.as_slice(),
        atoms,
    )?;
    Ok(())
}

// Puts the atoms of paths last.
fn push_paths(
    alloc: Global,
    numbering: &Numbering,
    variables: &Variables,
    paths: &[RawPath],
    atoms: &mut Vec<Atom>,
) -> Result<(), Memory>
    requires { length (places_of paths.now) < 2 ^ 64 }
    ensures { (held : Items (Variable × Bool)) → Holds held variables.now →
        OnOk result (atoms.new.items ≡ atoms.old.items ++ path_atoms numbering.now (number_of held) 0 paths.now) }
{
    let mut place = 0;
    for path in paths {
        push_path(alloc, numbering, variables, place, path, atoms)?;
        place += 1 + 2 * path.steps.len();
    }
    Ok(())
}

/// The pattern of paths, with x as the first of its variables.
pub fn pattern_of(
    alloc: Global,
    numbering: &Numbering,
    x: &Name,
    paths: &[RawPath],
) -> Result<Pattern, Memory>
    ensures { IfOk result (λ pattern. pattern ≡ pattern_of numbering.now x.now paths.now) }
{
    let places = places_of(alloc, paths)?;
    let variables = Variables::of_places(alloc, x, &places)?;
    let mut atoms = Vec::new(alloc);
    push_paths(alloc, numbering, &variables, paths, &mut atoms)?;
    Ok(Pattern {
        edge_vars: List::from_vec(variables.edge_vars),
        atoms: List::from_vec(atoms),
    })
}
