ghost use Rattle.std.specs.Prelude.{◌≡◌, ◌+◌, ◌*◌, ◌^◌, ◌<◌, ◌≤◌, ◌∷◌, ℕ, List, Some, length, OnOk};
ghost use Rattle.std.specs.List.{list_any};
ghost use Rattle.std.specs.List.Sorted.{IsStrictlySortedBy};
ghost use Rattle.std.specs.BTreeMap.{is_at};
ghost use Rattle.pgs_base.specs.declared.element.EdgeId.{EdgeId};
ghost use Rattle.pgs_base.specs.Graph.{edge_cmp};
ghost use Rattle.pgs_overlay.specs.Edited.{IsEdited, IsReadyFor};
ghost use Rattle.pgs_overlay.specs.Passed.{list_changed, takes_out};

use crate::base_list::BaseList;
use crate::edited_list::EditedList;
use crate::search::search;
use crate::side::Side;
use pgs_base::{EdgeId, Memory, Steps};
use pgs_graph::GraphRead;
use std::sync::ledger::Ledger;

/// What an edit does with its edge.
#[derive(Clone, Copy)]
pub(crate) enum EditKind {
    PutIn,
    TakeOut,
}

/// An edge put into a list of a side, or taken out.
#[derive(Clone, Copy)]
pub(crate) struct Edit {
    pub side: Side,
    pub kind: EditKind,
    pub edge: EdgeId,
}

/// Puts an edge into a list that lacks it, or takes it out of one that has it.
pub(crate) fn edit_list<B: GraphRead, L: Ledger>(
    list: &mut EditedList,
    base: &BaseList<'_, B>,
    edit: Edit,
    steps: &mut Steps<L>,
) -> Result<(), Memory>
    requires ready { IsReadyFor edit.edge base.now list.old }
    requires fits { list_any (is_at (edge_cmp edit.edge)) base.now ≡ takes_out edit.kind }
    ensures edited { (edited later : List EdgeId) → IsEdited base.now edited (edit.edge ∷ later) list.old →
        IsStrictlySortedBy edge_cmp (edit.edge ∷ later) → OnOk result (IsEdited base.now (list_changed (Some edit.kind) edit.edge edited) later list.new) }
    ensures never_back { steps.old ≤ steps.new }
    ensures cost { (k : ℕ) → length base.now < 2 ^ k → steps.new ≤ steps.old + 2 * k + 4 }
{
    match (search(base, list.done, edit.edge, steps), edit.kind) {
        (Err(place), EditKind::PutIn) => list.put_in(place, edit.edge),
        (Ok(place), EditKind::TakeOut) => list.take_out(place),
        // There already, or not there: by what is required neither comes.
        (Ok(_), EditKind::PutIn) => Ok(()),
        (Err(_), EditKind::TakeOut) => Ok(()),
    }
}
