//! The row of a node under a key whose two patterns are one node variable each, told by the node's own labels and properties.

ghost use Rattle.std.specs.Prelude.{◌≡◌, true, IfOk};
ghost use Rattle.pgs_syntax.specs.Valid.{is_valid_key_of};
ghost use Rattle.pgs_check.specs.Own.{IsNodeAlone, IsLocal, own_part, own_tuple, own_tuples};

use pgs_base::{Elem, List, Memory, Part, Props, Tuple, TupleSet};
use pgs_conform::{Compiled, Pair, property_part};
use pgs_match::{PlannedKey, Side, own_passes};
use pgs_syntax::{Expr, Pattern};
use std::alloc::Global;

// Whether a pattern is one node variable.
fn is_node_alone(pattern: &Pattern) -> bool
    ensures { result ≡ true → IsNodeAlone pattern.now }
{
    match pattern.edge_vars.as_slice() {
        [is_edge] => !*is_edge,
        _ => false,
    }
}

/// Whether both patterns of a key are one node variable each.
pub(crate) fn is_local(key: &PlannedKey) -> bool
    ensures { result ≡ true → IsLocal key.now }
{
    is_node_alone(key.pattern(Side::Scope)) && is_node_alone(key.pattern(Side::Descriptor))
}

// What an expression over x gives of an element with these properties.
fn own_part(alloc: Global, elem: Elem, props: &Props, expr: &Expr) -> Result<Option<Part>, Memory>
    ensures { IfOk result (λ part. part ≡ own_part elem props.now expr.now) }
{
    match expr {
        Expr::Element(_) => Ok(Some(Part::Elem(elem))),
        Expr::Property { key, .. } => property_part(alloc, props, key),
    }
}

// The tuple of expressions over x, where each of them gives something.
fn own_tuple(
    alloc: Global,
    elem: Elem,
    props: &Props,
    exprs: &[Expr],
) -> Result<Option<Tuple>, Memory>
    ensures { IfOk result (λ tuple. tuple ≡ own_tuple elem props.now exprs.now) }
{
    // Most keys have one expression, whose part needs no list.
    if let [expr] = exprs {
        let part = own_part(alloc, elem, props, expr)?;
        return Ok(part.map(Tuple::one));
    }
    let mut parts = Vec::with_capacity(alloc, exprs.len())?;
    for expr in exprs {
        match own_part(alloc, elem, props, expr)? {
            Some(part) => parts.push(part)?,
            None => return Ok(None),
        }
    }
    Ok(Some(Tuple::new(List::from_vec(parts))))
}

/// The key values of an element with this pair: at most one.
pub(crate) fn own_tuples(
    alloc: Global,
    compiled: &Compiled,
    key: &PlannedKey,
    elem: Elem,
    own: &Pair<'_>,
) -> Result<TupleSet, Memory>
    requires { is_valid_key_of compiled.now key.now ≡ true }
    ensures { IfOk result (λ tuples. tuples ≡ own_tuples compiled.now key.now elem own.now) }
{
    let mut tuples = TupleSet::new(alloc);
    if own_passes(compiled, key.pattern(Side::Descriptor), 0, elem, own) {
        let exprs = key.key().exprs.as_slice();
        if let Some(tuple) = own_tuple(alloc, elem, own.props, exprs)? {
            let _is_new = tuples.insert(tuple)?;
        }
    }
    Ok(tuples)
}
