//! The rows of one key that a change may alter.

ghost use Rattle.std.specs.Prelude.{◌≡◌, ◌+◌, ◌*◌, ◌^◌, ◌≤◌, ℕ, true, length, IfOk};
ghost use Rattle.std.specs.List.{sum_by};
ghost use Rattle.pgs_syntax.specs.Valid.{is_valid_key_of};
ghost use Rattle.pgs_match.specs.Planned.{most_edges};
ghost use Rattle.pgs_check_affected.specs.Touched.{touched, AreSparse};
ghost use Rattle.pgs_keyindex.specs.Rows.{KeyRows};
ghost use Rattle.pgs_keyindex.specs.Standing.{values_in_scope};
ghost use Rattle.pgs_check.specs.Clashes.{look_ups};
ghost use Rattle.pgs_check.specs.Standing.{AreRows};

use crate::key_rows::key_rows;
use crate::local_rows::local_rows;
use crate::own_row::is_local;
use pgs_base::{Memory, Steps};
use pgs_check_affected::Change;
use pgs_conform::Compiled;
use pgs_keyindex::KeyChange;
use pgs_match::PlannedKey;
use pgs_overlay::Overlay;
use std::alloc::Global;
use std::sync::ledger::Ledger;

// The rows of the elements that the change affects, searched for. No list is made where the change can't alter anything under the key.
fn searched_rows<L: Ledger>(
    alloc: Global,
    compiled: &Compiled,
    number: u32,
    key: &PlannedKey,
    change: &Change<'_>,
    new: &Overlay<'_>,
    steps: &mut Steps<L>,
) -> Result<Vec<KeyChange>, Memory>
    requires typed { is_valid_key_of compiled.now key.now ≡ true }
    requires after { new.now ≡ change.now.after }
    ensures rows { IfOk result (λ rows. AreRows number (values_in_scope compiled.now change.now.before key.now)
        (values_in_scope compiled.now change.now.after key.now) rows.items) }
    ensures no_step_back { steps.old ≤ steps.new }
    ensures cost { (edges most : ℕ) → most_edges key.now ≤ edges →
        AreSparse change.now.before change.now.after (2 * edges) (touched change.now.before change.now.elems) most →
        steps.new ≤ steps.old + 2048 * length (touched change.now.before change.now.elems) * (most + 2) ^ (2 * edges + 2) }
    ensures owned { (index : KeyRows) (edges most : ℕ) → most_edges key.now ≤ edges →
        AreSparse change.now.before change.now.after (2 * edges) (touched change.now.before change.now.elems) most →
        IfOk result (λ rows. steps.new + sum_by (look_ups index number) rows.items
        ≤ steps.old + 2048 * length (touched change.now.before change.now.elems) * (most + 2) ^ (2 * edges + 2)) }
{
    if !change.can_alter(compiled, key) {
        return Ok(Vec::new(alloc));
    }
    let changed = change.affected(alloc, compiled, key, steps)?;
    let elems = changed.as_slice();
    key_rows(alloc, new, compiled, number, key, elems, steps)
}

/// The rows of one key, of this number, that a change may alter. What they take, with the look-ups for the owners of their key values in
/// any index, is bounded by `owned`.
pub(crate) fn changed_rows<L: Ledger>(
    alloc: Global,
    compiled: &Compiled,
    number: u32,
    key: &PlannedKey,
    change: &Change<'_>,
    new: &Overlay<'_>,
    steps: &mut Steps<L>,
) -> Result<Vec<KeyChange>, Memory>
    requires typed { is_valid_key_of compiled.now key.now ≡ true }
    requires after { new.now ≡ change.now.after }
    ensures rows { IfOk result (λ rows. AreRows number (values_in_scope compiled.now change.now.before key.now)
        (values_in_scope compiled.now change.now.after key.now) rows.items) }
    ensures no_step_back { steps.old ≤ steps.new }
    ensures cost { (edges most : ℕ) → most_edges key.now ≤ edges →
        AreSparse change.now.before change.now.after (2 * edges) (touched change.now.before change.now.elems) most →
        steps.new ≤ steps.old + 2048 * length (touched change.now.before change.now.elems) * (most + 2) ^ (2 * edges + 2) }
    ensures owned { (index : KeyRows) (edges most : ℕ) → most_edges key.now ≤ edges →
        AreSparse change.now.before change.now.after (2 * edges) (touched change.now.before change.now.elems) most →
        IfOk result (λ rows. steps.new + sum_by (look_ups index number) rows.items
        ≤ steps.old + 2048 * length (touched change.now.before change.now.elems) * (most + 2) ^ (2 * edges + 2)) }
{
    if is_local(key) {
        return local_rows(alloc, compiled, number, key, change);
    }
    searched_rows(alloc, compiled, number, key, change, new, steps)
}
