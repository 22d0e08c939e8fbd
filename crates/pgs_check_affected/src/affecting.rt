ghost use Rattle.std.specs.Prelude.{◌≡◌, ◌+◌, ◌*◌, ◌^◌, ◌≤◌, ℕ, true, false, length, IfOk};
ghost use Rattle.std.specs.List.{All};
ghost use Rattle.pgs_base.specs.Order.{ascends, elem_cmp};
ghost use Rattle.pgs_graph.specs.Changed.{changed, is_sound};
ghost use Rattle.pgs_syntax.specs.Valid.{is_valid_key_of};
ghost use Rattle.pgs_match.specs.Planned.{most_edges};
ghost use Rattle.pgs_check_affected.specs.Changes.{elems_of};
ghost use Rattle.pgs_check_affected.specs.Local.{is_one_of, HasOneRow};
ghost use Rattle.pgs_check_affected.specs.Touched.{touched, AreSparse, IsSparseInBoth};

use crate::Change;
use pgs_base::{Elem, List, Memory, Steps};
use pgs_conform::Compiled;
use pgs_graph::Delta;
use pgs_match::PlannedKey;
use pgs_overlay::Overlay;
use pgs_tables::Tables;
use std::alloc::Global;
use std::sync::ledger::Ledger;

/// The elements whose place in a key's scope or whose key values a sound delta may alter, ascending and each once: every other element
/// has the same place and the same key values in the old graph and in the new, which is the old one's overlay by the delta. The key's
/// types are those of the schema. `Memory` where none was left. Nothing is changed.
///
/// Let u be the number of elements of the delta and of edges of either graph at the delta's nodes, and let no node within twice w edges
/// of one of them, over the edges of both graphs together, have more than d edges in either, where w is at least the number of edge
/// variables of either pattern. Then it takes at most 1536 * (u + 1) * (d + 2)^(w + 1) look-ups, at every exit, gives at most
/// 80 * u * (d + 2)^w elements, and no node within w edges of one of these has more than d edges.
pub fn affected<L: Ledger>(
    alloc: Global,
    old: &Tables,
    new: &Overlay<'_>,
    compiled: &Compiled,
    delta: &Delta,
    key: &PlannedKey,
    steps: &mut Steps<L>,
) -> Result<List<Elem>, Memory>
    requires sound { is_sound old.now.graph delta.now ≡ true }
    requires overlay { new.now ≡ changed old.now.graph delta.now }
    requires key { is_valid_key_of compiled.now key.now ≡ true }
    ensures holds { IfOk result (λ elems. (elem : Elem) → is_one_of elems elem ≡ false →
        HasOneRow compiled.now old.now.graph new.now key.now elem) }
    ensures ascending { IfOk result (λ elems. ascends elem_cmp elems ≡ true) }
    ensures no_step_back { steps.old ≤ steps.new }
    ensures cost { (edges most : ℕ) → most_edges key.now ≤ edges →
        AreSparse old.now.graph new.now (2 * edges) (touched old.now.graph (elems_of delta.now)) most →
        steps.new ≤ steps.old + 1536 * (length (touched old.now.graph (elems_of delta.now)) + 1) * (most + 2) ^ (edges + 1) }
    ensures few { (edges most : ℕ) → most_edges key.now ≤ edges →
        AreSparse old.now.graph new.now (2 * edges) (touched old.now.graph (elems_of delta.now)) most →
        IfOk result (λ elems. length elems ≤ 80 * length (touched old.now.graph (elems_of delta.now)) * (most + 2) ^ edges) }
    ensures near { (edges most : ℕ) → most_edges key.now ≤ edges →
        AreSparse old.now.graph new.now (2 * edges) (touched old.now.graph (elems_of delta.now)) most →
        IfOk result (All (λ elem. IsSparseInBoth old.now.graph new.now edges elem most)) }
{
    let change = Change::new(alloc, old, new, delta, steps)?;
    change.affected(alloc, compiled, key, steps)
}
