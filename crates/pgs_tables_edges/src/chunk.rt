ghost use Rattle.std.specs.Prelude.{◌≡◌, ◌≤◌, ◌+◌, ◌++◌, IfOk, length, slice_get};

use crate::Copies;
use pgs_base::{EdgeId, Memory};
use std::alloc::Global;
use std::marker::Model;
use std::rc::RcSlice;

/// Ids that several lists own together. Contracts see the list of them.
#[derive(Drop)]
pub struct Chunk {
    ids: RcSlice<EdgeId>,
}

impl Model for Chunk {
    ghost use Rattle.std.specs.Prelude.{List};
    ghost use Rattle.std.specs.Rc.{rc_slice_items};
    ghost use Rattle.pgs_base.specs.declared.element.EdgeId.{EdgeId};

    ghost Value = { List EdgeId };

    ghost view = { λ chunk. rc_slice_items chunk.ids };
}

impl Chunk {
    /// A chunk of its own of these ids and then some more: the one call that copies ids into a chunk.
    pub fn copied(
        alloc: Global,
        copies: &mut Copies,
        ids: &[EdgeId],
        more: &[EdgeId],
    ) -> Result<Chunk, Memory>
        requires left { length ids.now + length more.now ≤ copies.old }
        ensures value { IfOk result (λ chunk. chunk ≡ ids.now ++ more.now) }
        ensures copies { copies.old ≡ copies.new + (length ids.now + length more.now) }
    {
        copies.spend(ids.len());
        copies.spend(more.len());
        let mut joined = Vec::with_capacity(alloc, ids.len().saturating_add(more.len()))?;
        joined.extend_from_slice(ids)?;
        joined.extend_from_slice(more)?;
        let ids = RcSlice::from_vec(joined)?;
        Ok(Chunk { ids })
    }

    /// The same chunk, with one owner more: it is handed no allocator, so it can't copy the ids.
    pub fn share(&self) -> Result<Chunk, Memory>
        ensures { IfOk result (λ chunk. chunk ≡ self.now) }
    {
        let ids = self.ids.clone()?;
        Ok(Chunk { ids })
    }

    /// The ids, in order.
    pub fn as_slice(&self) -> &[EdgeId]
        ensures { result.now ≡ self.now }
    {
        self.ids.as_slice()
    }

    /// How many ids there are.
    pub fn len(&self) -> usize
        ensures { result ≡ length self.now }
    {
        self.as_slice().len()
    }

    /// The first id. `None` exactly where there is none.
    pub fn first(&self) -> Option<EdgeId>
        ensures { result ≡ slice_get self.now 0 }
    {
        self.as_slice().first().copied()
    }
}
