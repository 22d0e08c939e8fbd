//! How many elements there are after changes. The edges of a delta are counted in the pass that edits the lists.

ghost use Rattle.std.specs.Prelude.{◌≡◌, ◌+◌, ◌<◌, ◌≤◌, true, cond, length, IfOk};
ghost use Rattle.std.specs.List.Sorted.{IsStrictlySortedBy};
ghost use Rattle.std.specs.Map.{keys_of};
ghost use Rattle.pgs_base.specs.Graph.{node_cmp, is_graph};
ghost use Rattle.pgs_graph.specs.Changed.{entries_changed};

use pgs_base::{Memory, NodeId, NodeRow, Steps};
use pgs_graph::GraphRead;
use std::sync::ledger::Ledger;

/// How many there are after a change of one, by whether it was there and whether it is. `Memory` where the number is too great to be
/// counted, which no memory holds.
pub(crate) fn count_changed(count: u64, had: bool, has: bool) -> Result<u64, Memory>
    requires { had ≡ true → 0 < count }
    ensures { IfOk result (λ after. after + cond had 1 0 ≡ count + cond has 1 0) }
{
    match (had, has) {
        (true, false) => Ok(count - 1),
        (false, true) => match count.checked_add(1) {
            Some(more) => Ok(more),
            None => Err(Memory),
        },
        _ => Ok(count),
    }
}

/// A count of elements after changes of nodes of ascending numbers. At most one look at the base for each.
pub(crate) fn count_nodes<B: GraphRead, L: Ledger>(
    base: &B,
    changes: &[(NodeId, Option<NodeRow>)],
    before: u64,
    steps: &mut Steps<L>,
) -> Result<u64, Memory>
    requires graph { is_graph (B.meaning base.now) ≡ true }
    requires ascending { IsStrictlySortedBy node_cmp (keys_of changes.now) }
    requires counted { length (B.meaning base.now).nodes ≤ before }
    ensures count { IfOk result (λ after. after + length (B.meaning base.now).nodes
        ≡ before + length (entries_changed node_cmp (B.meaning base.now).nodes changes.now)) }
    ensures never_back { steps.old ≤ steps.new }
    ensures cost { steps.new ≤ steps.old + length changes.now }
{
    let mut count = before;
    for change in changes {
        let had = base.node(change.0, steps).is_some();
        count = count_changed(count, had, change.1.is_some())?;
    }
    Ok(count)
}
