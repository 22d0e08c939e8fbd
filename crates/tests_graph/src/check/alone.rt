//! Keys whose patterns are one edge alone, which no text gives: they read the ends of an edge without binding them.

ghost use Rattle.std.specs.Prelude.{◌≡◌, true, [], ◌∷◌, IfOk, IfSome};
ghost use Rattle.pgs_syntax.specs.Valid.{is_valid_key_of};
ghost use Rattle.pgs_syntax.specs.declared.pattern.Atom.TheVariants.{FitsEdge};

use pgs_base::{List, Memory};
use pgs_conform::Compiled;
use pgs_match::{PlannedKey, plan_key};
use pgs_syntax::{Atom, Expr, Key, Pattern, Qualifiers};
use std::alloc::Global;

// An edge that fits the edge type of a number.
fn fitting(alloc: Global, number: u32) -> Result<Pattern, Memory>
    ensures { IfOk result (λ pattern. pattern ≡ record { edge_vars = true ∷ []; atoms = FitsEdge 0 number ∷ [] }) }
{
    let edge_vars = List::from_slice(alloc, &[true])?;
    let mut atoms = Vec::with_capacity(alloc, 1)?;
    atoms.push(Atom::FitsEdge { var: 0, number })?;
    Ok(Pattern {
        edge_vars,
        atoms: List::from_vec(atoms),
    })
}

// The element of variable 0.
fn itself(alloc: Global) -> Result<List<Expr>, Memory>
    ensures { IfOk result (λ exprs. exprs ≡ Expr.Element 0 ∷ []) }
{
    let mut exprs = Vec::with_capacity(alloc, 1)?;
    exprs.push(Expr::Element(0))?;
    Ok(List::from_vec(exprs))
}

/// The key of the edges that fit one edge type, each of which has itself for a key value where it fits another. `None` where there is
/// no such type.
pub fn key_alone(
    alloc: Global,
    compiled: &Compiled,
    scope: u32,
    descriptor: u32,
) -> Result<Option<PlannedKey>, Memory>
    ensures { IfOk result (λ key. IfSome key (λ key. is_valid_key_of compiled.now key ≡ true)) }
{
    let types = compiled.resolved().edges.len();
    if scope as usize >= types || descriptor as usize >= types {
        return Ok(None);
    }
    let key = Key {
        qualifiers: Qualifiers {
            mandatory: true,
            singleton: false,
            exclusive: false,
            count: None,
        },
        scope: fitting(alloc, scope)?,
        descriptor: fitting(alloc, descriptor)?,
        exprs: itself(alloc)?,
    };
    let planned = plan_key(alloc, &key)?;
    Ok(Some(planned))
}
