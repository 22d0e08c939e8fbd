//! Lists in order, each item once.

ghost use Rattle.std.specs.Prelude.{◌≡◌, ◌≤◌, ℕ, true, length};
ghost use Rattle.std.specs.List.{Contains, list_any, sum_by};
ghost use Rattle.std.specs.List.Sorted.{IsStrictlySortedBy};
ghost use Rattle.std.specs.BTreeMap.{is_at};
ghost use Rattle.pgs_base.specs.Order.{ascends, elem_cmp};
ghost use Rattle.pgs_base.specs.declared.element.NodeId.{NodeId};
ghost use Rattle.pgs_syntax.specs.Matches.{same_elem};
ghost use Rattle.pgs_match.specs.Frontier.{AreApart};

use pgs_base::{Elem, List, NodeId};

// Items in order, each once.
fn each_once<T: Ord + Drop>(mut items: Vec<T>) -> List<T>
    ensures kept { (item : T) → Contains items.items item → list_any (is_at (T.cmp item)) result ≡ true }
    ensures no_other { (item : T) → Contains result item → Contains items.items item }
    ensures ascending { IsStrictlySortedBy T.cmp result }
    ensures few { (count : T → ℕ) → sum_by count result ≤ sum_by count items.items }
{
    items.sort_unstable();
    items.dedup();
    List::from_vec(items)
}

/// Elements in order, each once. Whatever is counted of each, the sum is no greater than before.
pub fn in_order(elems: Vec<Elem>) -> List<Elem>
    ensures kept { (elem : Elem) → Contains elems.items elem → list_any (same_elem elem) result ≡ true }
    ensures no_other { (elem : Elem) → Contains result elem → Contains elems.items elem }
    ensures ascending { ascends elem_cmp result ≡ true }
    ensures few { (count : Elem → ℕ) → sum_by count result ≤ sum_by count elems.items }
{
    each_once(elems)
}

/// Nodes in order, each once. Whatever is counted of each, the sum is no greater than before.
pub(crate) fn nodes_in_order(ids: Vec<NodeId>) -> List<NodeId>
    ensures kept { (id : NodeId) → Contains ids.items id → Contains result id }
    ensures no_other { (id : NodeId) → Contains result id → Contains ids.items id }
    ensures apart { AreApart result }
    ensures few { (count : NodeId → ℕ) → sum_by count result ≤ sum_by count ids.items }
{
    each_once(ids)
}
