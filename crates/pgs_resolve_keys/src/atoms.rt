ghost use Rattle.std.specs.Prelude.{◌≡◌, ◌++◌, ◌∷◌, [], map, OnOk, IfOk};
ghost use Rattle.pgs_syntax.specs.declared.pattern.Atom.TheVariants.{Equals};
ghost use Rattle.pgs_resolve_keys.specs.Patterns.{name_atom, place_atoms, ends};

use pgs_base::{Copyable, Memory, Name, Value};
use pgs_resolve_declared::Numbering;
use pgs_syntax::{Atom, RawFilter};
use std::alloc::Global;

// What a name in a place asks.
fn name_atom(
    alloc: Global,
    numbering: &Numbering,
    is_edge: bool,
    var: u32,
    name: &Name,
) -> Result<Atom, Memory>
    ensures { IfOk result (λ atom. atom ≡ name_atom numbering.now is_edge var name.now) }
{
    let number = if is_edge {
        numbering.edges.number(name)
    } else {
        numbering.nodes.number(name)
    };
    match number {
        Some(number) => {
            if is_edge {
                Ok(Atom::FitsEdge { var, number })
            } else {
                Ok(Atom::FitsNode { var, number })
            }
        }
        None => Ok(Atom::HasLabel {
            var,
            label: name.copy(alloc)?,
        }),
    }
}

fn push_names(
    alloc: Global,
    numbering: &Numbering,
    is_edge: bool,
    var: u32,
    names: &[Name],
    atoms: &mut Vec<Atom>,
) -> Result<(), Memory>
    ensures { OnOk result (atoms.new.items ≡ atoms.old.items ++ map (name_atom numbering.now is_edge var) names.now) }
{
    for name in names {
        atoms.push(name_atom(alloc, numbering, is_edge, var, name)?)?;
    }
    Ok(())
}

fn push_tests(
    alloc: Global,
    var: u32,
    tests: &[(Name, Value)],
    atoms: &mut Vec<Atom>,
) -> Result<(), Memory>
    ensures { OnOk result (atoms.new.items ≡ atoms.old.items ++ map (λ test. Equals var test.0 test.1) tests.now) }
{
    for test in tests {
        let key = test.0.copy(alloc)?;
        let value = test.1.copy(alloc)?;
        atoms.push(Atom::Equals { var, key, value })?;
    }
    Ok(())
}

/// Puts the atoms of a place last: its names, and then its tests.
pub fn push_place(
    alloc: Global,
    numbering: &Numbering,
    is_edge: bool,
    var: u32,
    filter: &RawFilter,
    atoms: &mut Vec<Atom>,
) -> Result<(), Memory>
    ensures { OnOk result (atoms.new.items ≡ atoms.old.items ++ place_atoms numbering.now is_edge var filter.now) }
{
    push_names(
        alloc,
        numbering,
        is_edge,
        var,
        filter.names.as_slice(),
        atoms,
    )?;
    push_tests(alloc, var, filter.tests.as_slice(), atoms)
}

/// The ends of an edge between a node and the next one.
pub fn ends(forward: bool, edge: u32, node: u32, next: u32) -> Atom
    ensures { result ≡ ends forward edge node next }
{
    if forward {
        Atom::Ends {
            edge,
            source: node,
            target: next,
        }
    } else {
        Atom::Ends {
            edge,
            source: next,
            target: node,
        }
    }
}
