//! Whether the calls over patterns answer as the plain program, for one key over one graph.

ghost use Rattle.std.specs.Prelude.{◌≡◌, ◌<◌, true, length};
ghost use Rattle.pgs_syntax.specs.Valid.{is_valid_key_of};
ghost use Rattle.pgs_match.specs.Planned.{pattern_of};

use super::list_agreement::Valued;
use super::listing::{Listing, Rows, bit, bits};
use pgs_base::{Elem, Memory, Steps, TupleSet};
use pgs_conform::Compiled;
use pgs_graph::Graph;
use pgs_match::{PlannedKey, Side, each_x, in_scope, key_values, reach};
use std::alloc::Global;
use std::sync::ledger::Ledger;

/// What is asked: a key of a schema, over a graph.
#[derive(Clone, Copy)]
pub struct Asked<'a> {
    pub alloc: Global,
    pub graph: &'a Graph,
    pub compiled: &'a Compiled,
    pub key: &'a PlannedKey,
}

// Whether the whole scope is that of the matches.
fn scope_agrees<L: Ledger>(
    asked: &Asked<'_>,
    firsts: u32,
    steps: &mut Steps<L>,
) -> Result<bool, Memory>
    requires { is_valid_key_of asked.now.compiled.now asked.now.key.now ≡ true }
{
    let scope = each_x(asked.alloc, asked.graph, asked.compiled, asked.key, steps)?;
    Ok(bits(scope.as_slice()) == Some(firsts))
}

// The key values of an element, where they are those of the matches, and it is in the scope exactly where some match has it first.
fn agreed_values<L: Ledger>(
    asked: &Asked<'_>,
    plain: &Listing<'_>,
    elem: Elem,
    is_first: bool,
    steps: &mut Steps<L>,
) -> Result<Option<TupleSet>, Memory>
    requires { is_valid_key_of asked.now.compiled.now asked.now.key.now ≡ true }
{
    let tuples = key_values(
        asked.alloc,
        asked.graph,
        asked.compiled,
        asked.key,
        elem,
        steps,
    )?;
    let exprs = asked.key.key().exprs.as_slice();
    if in_scope(asked.graph, asked.compiled, asked.key, elem, steps) == is_first
        && plain.are_values(exprs, elem, tuples.as_slice())
    {
        Ok(Some(tuples))
    } else {
        Ok(None)
    }
}

// The elements that come first in matches with their key values, where all of all elements are those of the matches.
fn agreed_scope<L: Ledger>(
    asked: &Asked<'_>,
    firsts: u32,
    plain: &Listing<'_>,
    steps: &mut Steps<L>,
) -> Result<Option<Vec<Valued>>, Memory>
    requires { is_valid_key_of asked.now.compiled.now asked.now.key.now ≡ true }
{
    let mut valued = Vec::new(asked.alloc);
    for row in plain.rows() {
        let elem = row.elem;
        let is_first = bit(elem) & firsts != 0;
        let Some(tuples) = agreed_values(asked, plain, elem, is_first, steps)? else {
            return Ok(None);
        };
        if is_first {
            valued.push(Valued { elem, tuples })?;
        }
    }
    Ok(Some(valued))
}

// Whether the elements that are reached from a variable of a pattern are those of the matches.
fn variable_agrees<L: Ledger>(
    asked: &Asked<'_>,
    side: Side,
    var: u32,
    plain: &Listing<'_>,
    steps: &mut Steps<L>,
) -> Result<bool, Memory>
    requires typed { is_valid_key_of asked.now.compiled.now asked.now.key.now ≡ true }
    requires in_range { var < length (pattern_of side asked.now.key.now).edge_vars }
{
    for row in plain.rows() {
        let elems = reach(
            asked.alloc,
            asked.graph,
            asked.compiled,
            asked.key,
            side,
            var,
            row.elem,
            steps,
        )?;
        if bits(elems.as_slice()) != Some(plain.reached(var, row.elem)) {
            return Ok(false);
        }
    }
    Ok(true)
}

// How many variables a pattern of a key has.
fn variable_count(key: &PlannedKey, side: Side) -> usize
    ensures { result ≡ length (pattern_of side key.now).edge_vars }
{
    match side {
        Side::Scope => key.key().scope.edge_vars.len(),
        Side::Descriptor => key.key().descriptor.edge_vars.len(),
    }
}

fn reach_agrees<L: Ledger>(
    asked: &Asked<'_>,
    side: Side,
    plain: &Listing<'_>,
    steps: &mut Steps<L>,
) -> Result<bool, Memory>
    requires { is_valid_key_of asked.now.compiled.now asked.now.key.now ≡ true }
{
    for var in 0..variable_count(asked.key, side) {
        let var = var as u32;
        if !variable_agrees(asked, side, var, plain, steps)? {
            return Ok(false);
        }
    }
    Ok(true)
}

/// The elements of the scope with their key values, where all calls answer as the plain program: of the scope, and of the descriptor.
pub fn agreed<L: Ledger>(
    asked: &Asked<'_>,
    rows: &Rows<'_>,
    steps: &mut Steps<L>,
) -> Result<Option<Vec<Valued>>, Memory>
    requires { is_valid_key_of asked.now.compiled.now asked.now.key.now ≡ true }
{
    let key = asked.key.key();
    let scope = Listing::new(asked.alloc, asked.compiled, rows, &key.scope)?;
    let descriptor = Listing::new(asked.alloc, asked.compiled, rows, &key.descriptor)?;
    let firsts = scope.firsts();
    if scope_agrees(asked, firsts, steps)?
        && reach_agrees(asked, Side::Scope, &scope, steps)?
        && reach_agrees(asked, Side::Descriptor, &descriptor, steps)?
    {
        agreed_scope(asked, firsts, &descriptor, steps)
    } else {
        Ok(None)
    }
}
