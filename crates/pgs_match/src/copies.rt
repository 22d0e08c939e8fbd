//! Copies of keys.

ghost use Rattle.std.specs.Prelude.{◌≡◌, IfOk};

use pgs_base::{Copyable, List, Memory};
use pgs_syntax::{Atom, Expr, Key, Pattern};
use std::alloc::Global;

fn copy_atom(alloc: Global, atom: &Atom) -> Result<Atom, Memory>
    ensures { IfOk result (λ copy. copy ≡ atom.now) }
{
    match atom {
        Atom::Ends {
            edge,
            source,
            target,
        } => Ok(Atom::Ends {
            edge: *edge,
            source: *source,
            target: *target,
        }),
        Atom::HasLabel { var, label } => {
            let label = label.copy(alloc)?;
            Ok(Atom::HasLabel { var: *var, label })
        }
        Atom::FitsNode { var, number } => Ok(Atom::FitsNode {
            var: *var,
            number: *number,
        }),
        Atom::FitsEdge { var, number } => Ok(Atom::FitsEdge {
            var: *var,
            number: *number,
        }),
        Atom::Equals { var, key, value } => {
            let key = key.copy(alloc)?;
            let value = value.copy(alloc)?;
            Ok(Atom::Equals {
                var: *var,
                key,
                value,
            })
        }
    }
}

fn copy_atoms(alloc: Global, atoms: &[Atom]) -> Result<List<Atom>, Memory>
    ensures { IfOk result (λ copy. copy ≡ atoms.now) }
{
    let mut copies = Vec::with_capacity(alloc, atoms.len())?;
    for atom in atoms {
        let copy = copy_atom(alloc, atom)?;
        copies.push(copy)?;
    }
    Ok(List::from_vec(copies))
}

fn copy_pattern(alloc: Global, pattern: &Pattern) -> Result<Pattern, Memory>
    ensures { IfOk result (λ copy. copy ≡ pattern.now) }
{
    let edge_vars = List::from_slice(alloc, pattern.edge_vars.as_slice())?;
    let atoms = copy_atoms(alloc, pattern.atoms.as_slice())?;
    Ok(Pattern { edge_vars, atoms })
}

fn copy_expr(alloc: Global, expr: &Expr) -> Result<Expr, Memory>
    ensures { IfOk result (λ copy. copy ≡ expr.now) }
{
    match expr {
        Expr::Element(var) => Ok(Expr::Element(*var)),
        Expr::Property { var, key } => {
            let key = key.copy(alloc)?;
            Ok(Expr::Property { var: *var, key })
        }
    }
}

fn copy_exprs(alloc: Global, exprs: &[Expr]) -> Result<List<Expr>, Memory>
    ensures { IfOk result (λ copy. copy ≡ exprs.now) }
{
    let mut copies = Vec::with_capacity(alloc, exprs.len())?;
    for expr in exprs {
        let copy = copy_expr(alloc, expr)?;
        copies.push(copy)?;
    }
    Ok(List::from_vec(copies))
}

/// An equal key.
pub(crate) fn copy_key(alloc: Global, key: &Key) -> Result<Key, Memory>
    ensures { IfOk result (λ copy. copy ≡ key.now) }
{
    let scope = copy_pattern(alloc, &key.scope)?;
    let descriptor = copy_pattern(alloc, &key.descriptor)?;
    let exprs = copy_exprs(alloc, key.exprs.as_slice())?;
    Ok(Key {
        qualifiers: key.qualifiers,
        scope,
        descriptor,
        exprs,
    })
}
