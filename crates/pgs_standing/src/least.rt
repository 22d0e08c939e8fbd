//! The plainest pair of a shape: its labels, and the plainest value at each key where one must stand.

ghost use Rattle.std.specs.Prelude.{◌≡◌, ◌&&◌, ◌++◌, [], true, false, IfOk, OnOk, MatchBool};
ghost use Rattle.std.specs.List.{list_all};
ghost use Rattle.pgs_base.specs.declared.row.NodeRow.{NodeRow};
ghost use Rattle.pgs_base.specs.Pair.{is_pair};
ghost use Rattle.pgs_conform.specs.Shapes.{in_shape};
ghost use Rattle.pgs_contain.specs.Contained.{pair_in};
ghost use Rattle.pgs_contain.specs.Regions.{plainest};
ghost use Rattle.pgs_contain.specs.Rows.{row_before};
ghost use Rattle.pgs_standing.specs.Common.{plain_props, are_possible};
ghost use Rattle.pgs_standing.specs.Apart.{SomePasses};
ghost use Rattle.pgs_standing.specs.Example.{by_nodes, NonePasses, IsFoundPair};
ghost use Rattle.pgs_standing.specs.Standing.{is_small};

use crate::limits::is_small;
use pgs_base::{Copyable, Memory, Name, Props, Value, pair_facts};
use pgs_conform::{Options, Shape};
use pgs_contain::{OwnedPair, is_possible, plainest};
use std::alloc::Global;

// Whether something may stand at each key.
fn are_possible(keys: &[(Name, Options)]) -> bool
    ensures { result ≡ are_possible keys.now }
{
    keys.iter().all(|key| is_possible(key.1))
}

// Puts the plainest that may stand at a key last.
fn push_plainest(
    alloc: Global,
    key: &(Name, Options),
    rows: &mut Vec<(Name, Value)>,
) -> Result<(), Memory>
    ensures { OnOk result (rows.new.items ≡ rows.old.items ++ row_before key.now.0 (plainest key.now.1) []) }
{
    if let Some(value) = plainest(alloc, key.1)? {
        let name = key.0.copy(alloc)?;
        rows.push((name, value))?;
    }
    Ok(())
}

// The plainest that may stand at keys.
fn plain_rows(alloc: Global, keys: &[(Name, Options)]) -> Result<Vec<(Name, Value)>, Memory>
    ensures { IfOk result (λ rows. rows.items ≡ plain_props keys.now) }
{
    let mut rows = Vec::new(alloc);
    let mut left = keys;
    while let [key, later @ ..] = left {
        push_plainest(alloc, key, &mut rows)?;
        left = later;
    }
    Ok(rows)
}

// The plainest properties of a shape.
fn plain_props(alloc: Global, shape: &Shape) -> Result<Props, Memory>
    ensures { IfOk result (λ props. props ≡ plain_props shape.now.keys) }
{
    let rows = plain_rows(alloc, shape.keys.as_slice())?;
    Ok(Props::from_vec(rows))
}

// The labels of a shape, and its plainest properties.
fn least_pair(alloc: Global, shape: &Shape) -> Result<OwnedPair, Memory>
    ensures { IfOk result (λ own. (is_pair (pair_in own) ≡ true) × (own.labels ≡ shape.now.labels) × (own.props ≡ plain_props shape.now.keys)) }
{
    let labels = shape.labels.copy(alloc)?;
    let props = plain_props(alloc, shape)?;
    pair_facts(&labels, &props);
    Ok(OwnedPair { labels, props })
}

/// Whether some pair is in a shape: something may stand at each key. `Memory` where there was none left.
pub(crate) fn has_pair(alloc: Global, shape: &Shape) -> Result<bool, Memory>
    ensures { IfOk result (λ has. MatchBool has (SomePasses by_nodes (in_shape shape.now)) (NonePasses by_nodes (in_shape shape.now))) }
{
    if !are_possible(shape.keys.as_slice()) {
        return Ok(false);
    }
    let _own = least_pair(alloc, shape)?;
    Ok(true)
}

/// The pair of a shape with the fewest labels and properties, and the plainest values. `None` exactly where no pair in the shape is
/// small enough for an element. `Memory` where there was none left.
pub fn plain_pair(alloc: Global, shape: &Shape) -> Result<Option<OwnedPair>, Memory>
    ensures { IfOk result (IsFoundPair (λ p. is_small p && in_shape shape.now p)) }
{
    if !are_possible(shape.keys.as_slice()) {
        return Ok(None);
    }
    let own = least_pair(alloc, shape)?;
    if is_small(&own) {
        Ok(Some(own))
    } else {
        Ok(None)
    }
}
