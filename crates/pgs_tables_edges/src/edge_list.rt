ghost use Rattle.std.specs.Prelude.{◌≡◌, ◌<◌, ◌+◌, ◌^◌, ◌↔◌, [], fold, length, slice_get, IfOk, IsTrue, MatchResult};
ghost use Rattle.pgs_base.specs.Graph.{edge_cmp};
ghost use Rattle.std.specs.List.{list_any};
ghost use Rattle.std.specs.List.Sorted.{IsStrictlySortedBy};
ghost use Rattle.std.specs.BTreeMap.{is_at};
ghost use Rattle.std.specs.BTreeSet.{insert_key};
ghost use Rattle.std.specs.Set.{remove_key};
ghost use Rattle.pgs_base.specs.Places.{IsKeyAt, IsKeyGap};

use crate::Ids;
use pgs_base::{Copyable, EdgeId, Memory};
use std::alloc::Global;
use std::marker::Model;

/// Edge numbers that ascend strictly. Contracts see the list of them. An edit gives a new list, which shares with this one the
/// chunks that it does not touch, and leaves this one as it is, also after `Memory`, which says that no memory was left.
pub struct EdgeList {
    ids: Ids,
}

// Dropped by one function of this crate, so that those above need not prove anew how a list is taken apart.
impl Drop for EdgeList {
    fn drop(self) {
        let EdgeList { ids: _ } = self;
    }
}

impl Model for EdgeList {
    ghost use Rattle.std.specs.Prelude.{List};
    ghost use Rattle.pgs_base.specs.declared.element.EdgeId.{EdgeId};
    ghost use Rattle.pgs_base.specs.Graph.{edge_cmp};
    ghost use Rattle.std.specs.List.Sorted.{IsStrictlySortedBy};

    ghost Value = { List EdgeId };

    ghost view = { λ list. list.ids };

    ghost invariant = { λ list. IsStrictlySortedBy edge_cmp list.ids };
}

impl EdgeList {
    /// No numbers. It takes no memory.
    pub fn new(_alloc: Global) -> EdgeList
        ensures { result ≡ [] }
    {
        EdgeList { ids: Ids::new() }
    }

    /// The list of numbers that ascend strictly. `Memory` where none was left.
    pub fn from_slice(alloc: Global, ids: &[EdgeId]) -> Result<EdgeList, Memory>
        requires { IsStrictlySortedBy edge_cmp ids.now }
        ensures { IfOk result (λ list. list ≡ ids.now) }
    {
        let ids = Ids::from_slice(alloc, ids)?;
        Ok(EdgeList { ids })
    }

    /// How many numbers there are, and that they ascend strictly.
    pub fn len(&self) -> usize
        ensures value { result ≡ length self.now }
        ensures ascending { IsStrictlySortedBy edge_cmp self.now }
    {
        self.ids.len()
    }

    /// Whether there is no number.
    pub fn is_empty(&self) -> bool
        ensures { IsTrue result ↔ (self.now ≡ []) }
    {
        self.ids.len() == 0
    }

    /// The number at a place, from 0. `None` exactly past the last.
    pub fn at(&self, place: usize) -> Option<EdgeId>
        ensures { result ≡ slice_get self.now place }
    {
        self.ids.at(place)
    }

    /// The place of a number, from 0: `Ok` where it stands, and `Err` where it would go. It looks by halving, twice.
    pub fn place(&self, id: EdgeId) -> Result<usize, usize>
        ensures there { MatchResult result (IsKeyAt edge_cmp id self.now) (IsKeyGap edge_cmp id self.now) }
        ensures found { IfOk result (λ place. slice_get self.now place ≡ Some id) }
        ensures small { IfOk result (λ place. place + 1 < 2 ^ 64) }
    {
        self.ids.search(id)
    }

    /// Whether the number is there.
    pub fn contains(&self, id: EdgeId) -> bool
        ensures { result ≡ list_any (is_at (edge_cmp id)) self.now }
    {
        self.place(id).is_ok()
    }

    /// The list with a number put in; where it is there already, an equal list. `Memory` where none was left.
    pub fn with(&self, alloc: Global, id: EdgeId) -> Result<EdgeList, Memory>
        ensures { IfOk result (λ list. list ≡ insert_key edge_cmp self.now id) }
    {
        match self.place(id) {
            Ok(_) => self.copy(alloc),
            Err(place) => {
                let ids = self.ids.spliced(alloc, (place, place), &[id])?;
                Ok(EdgeList { ids })
            }
        }
    }

    /// The list with a number taken out; where it is not there, an equal list. `Memory` where none was left.
    pub fn without(&self, alloc: Global, id: EdgeId) -> Result<EdgeList, Memory>
        ensures { IfOk result (λ list. list ≡ remove_key (is_at (edge_cmp id)) self.now) }
    {
        match self.place(id) {
            Ok(place) => {
                let ids = self.ids.spliced(alloc, (place, place + 1), &[])?;
                Ok(EdgeList { ids })
            }
            Err(_) => self.copy(alloc),
        }
    }

    /// The list with numbers put in that ascend strictly, in one pass. `Memory` where none was left.
    pub fn with_all(&self, alloc: Global, ids: &[EdgeId]) -> Result<EdgeList, Memory>
        requires { IsStrictlySortedBy edge_cmp ids.now }
        ensures { IfOk result (λ list. list ≡ fold (insert_key edge_cmp) self.now ids.now) }
    {
        let ids = self.ids.with_all(alloc, ids)?;
        Ok(EdgeList { ids })
    }

    /// The list with numbers taken out that ascend strictly, in one pass. `Memory` where none was left.
    pub fn without_all(&self, alloc: Global, ids: &[EdgeId]) -> Result<EdgeList, Memory>
        requires { IsStrictlySortedBy edge_cmp ids.now }
        ensures { IfOk result (λ list. list ≡ fold (λ left id. remove_key (is_at (edge_cmp id)) left) self.now ids.now) }
    {
        let ids = self.ids.without_all(alloc, ids)?;
        Ok(EdgeList { ids })
    }

    /// The list with numbers taken out and then others put in, so that one that is in both is there. Both ascend strictly. `Memory` where
    /// none was left.
    pub fn changed(
        &self,
        alloc: Global,
        added: &[EdgeId],
        removed: &[EdgeId],
    ) -> Result<EdgeList, Memory>
        requires added_ascend { IsStrictlySortedBy edge_cmp added.now }
        requires removed_ascend { IsStrictlySortedBy edge_cmp removed.now }
        ensures { IfOk result (λ list. list ≡ fold (insert_key edge_cmp) (fold (λ left id. remove_key (is_at (edge_cmp id)) left) self.now removed.now) added.now) }
    {
        if removed.is_empty() {
            return self.with_all(alloc, added);
        }
        let left = self.without_all(alloc, removed)?;
        if added.is_empty() {
            return Ok(left);
        }
        left.with_all(alloc, added)
    }
}

impl Copyable for EdgeList {
    fn copy(&self, alloc: Global) -> Result<EdgeList, Memory> {
        let ids = self.ids.copy(alloc)?;
        Ok(EdgeList { ids })
    }
}
