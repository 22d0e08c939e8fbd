//! Atoms and expressions whose variables have other numbers, by a table of these.

ghost use Rattle.std.specs.Prelude.{◌≡◌, ◌+◌, ◌<◌, ◌++◌, ℕ, length, map, slice_index, IfOk, OnOk};
ghost use Rattle.pgs_key_standing.specs.Joint.{beside};
ghost use Rattle.pgs_key_standing.specs.Renamed.{renamed, renamed_expr};

use pgs_base::{Copyable, Memory};
use pgs_syntax::{Atom, Expr};
use std::alloc::Global;

/// The number in a table, 0 past its end.
#[tactic(auto, using(crate::proofs::Tables::past_table))]
pub(crate) fn number_at(numbers: &[u32], var: u32) -> u32
    ensures { result ≡ slice_index numbers.now var }
{
    let place = var as usize;
    if place < numbers.len() {
        numbers[place]
    } else {
        0
    }
}

// The number of a descriptor's variable behind so many variables of a scope.
#[tactic(auto, using(crate::proofs::Tables::beside_later))]
fn beside(count: u32, var: u32) -> u32
    requires { count + var < 4294967296 }
    ensures { result ≡ beside count var }
{
    if var == 0 {
        return 0;
    }
    count + (var - 1)
}

/// The numbers of so many variables of a descriptor behind so many of a scope. Behind one variable each keeps its number.
pub(crate) fn beside_table(alloc: Global, count: u32, total: u32) -> Result<Vec<u32>, Memory>
    requires { count + total < 4294967296 }
    ensures size { IfOk result (λ table. length table.items ≡ total) }
    ensures numbers { IfOk result (λ table. (var : ℕ) → var < total → slice_index table.items var ≡ beside count var) }
{
    let mut table = Vec::with_capacity(alloc, total as usize)?;
    for var in 0..total {
        let number = beside(count, var);
        table.push(number)?;
    }
    Ok(table)
}

// An atom whose variables have the numbers of a table.
fn renamed(alloc: Global, atom: &Atom, numbers: &[u32]) -> Result<Atom, Memory>
    ensures { IfOk result (λ other. other ≡ renamed (λ var. slice_index numbers.now var) atom.now) }
{
    match atom {
        Atom::Ends {
            edge,
            source,
            target,
        } => Ok(Atom::Ends {
            edge: number_at(numbers, *edge),
            source: number_at(numbers, *source),
            target: number_at(numbers, *target),
        }),
        Atom::HasLabel { var, label } => {
            let label = label.copy(alloc)?;
            Ok(Atom::HasLabel {
                var: number_at(numbers, *var),
                label,
            })
        }
        Atom::FitsNode { var, number } => Ok(Atom::FitsNode {
            var: number_at(numbers, *var),
            number: *number,
        }),
        Atom::FitsEdge { var, number } => Ok(Atom::FitsEdge {
            var: number_at(numbers, *var),
            number: *number,
        }),
        Atom::Equals { var, key, value } => {
            let key = key.copy(alloc)?;
            let value = value.copy(alloc)?;
            Ok(Atom::Equals {
                var: number_at(numbers, *var),
                key,
                value,
            })
        }
    }
}

/// Puts atoms last whose variables have the numbers of a table.
pub(crate) fn push_renamed(
    alloc: Global,
    atoms: &[Atom],
    numbers: &[u32],
    all: &mut Vec<Atom>,
) -> Result<(), Memory>
    ensures { OnOk result (all.new.items ≡ all.old.items ++ map (renamed (λ var. slice_index numbers.now var)) atoms.now) }
{
    let mut left = atoms;
    while let [atom, later @ ..] = left {
        let other = renamed(alloc, atom, numbers)?;
        all.push(other)?;
        left = later;
    }
    Ok(())
}

// An expression that reads the variable of a table.
fn renamed_expr(alloc: Global, expr: &Expr, numbers: &[u32]) -> Result<Expr, Memory>
    ensures { IfOk result (λ other. other ≡ renamed_expr (λ var. slice_index numbers.now var) expr.now) }
{
    match expr {
        Expr::Element(var) => Ok(Expr::Element(number_at(numbers, *var))),
        Expr::Property { var, key } => {
            let key = key.copy(alloc)?;
            Ok(Expr::Property {
                var: number_at(numbers, *var),
                key,
            })
        }
    }
}

/// Expressions that read the variables of a table.
pub(crate) fn renamed_exprs(
    alloc: Global,
    exprs: &[Expr],
    numbers: &[u32],
) -> Result<Vec<Expr>, Memory>
    ensures { IfOk result (λ others. others.items ≡ map (renamed_expr (λ var. slice_index numbers.now var)) exprs.now) }
{
    let mut others = Vec::with_capacity(alloc, exprs.len())?;
    let mut left = exprs;
    while let [expr, later @ ..] = left {
        let other = renamed_expr(alloc, expr, numbers)?;
        others.push(other)?;
        left = later;
    }
    Ok(others)
}
