ghost use Rattle.std.specs.Prelude.{◌≡◌, ◌<◌, ◌≤◌, ◌+◌, ◌-◌, ◌^◌, ◌++◌, length, take, drop, slice_get, IfOk, MatchResult};
ghost use Rattle.std.specs.List.Sorted.{IsStrictlySortedBy};
ghost use Rattle.pgs_base.specs.Graph.{edge_cmp};
ghost use Rattle.pgs_base.specs.Places.{IsKeyAt, IsKeyGap};

use crate::block::spliced_block;
use crate::edits::{joined, spliced};
use crate::{Body, Chunks};
use pgs_base::{EdgeId, Memory};
use std::alloc::Global;
use std::marker::Model;

// Up to so many ids stand behind the body. Each edit among them copies them, and what is above goes into the body at once.
const MOST: usize = 64;

/// Any list of ids: a body that lists share as a whole, and behind it a block of the last few, so that an edit there leaves the body
/// alone. Contracts see the list.
#[derive(Drop)]
pub struct Long {
    body: Body,
    tail: Vec<EdgeId>,
}

impl Model for Long {
    ghost use Rattle.std.specs.Prelude.{◌<◌, ◌≤◌, ◌+◌, ◌^◌, ◌++◌, List, length};
    ghost use Rattle.pgs_base.specs.declared.element.EdgeId.{EdgeId};

    ghost Value = { List EdgeId };

    ghost view = { λ long. long.body ++ long.tail.items };

    ghost invariant = { λ long. (length long.tail.items ≤ 64) × (length long.body + length long.tail.items < 2 ^ 64) };
}

impl Long {
    /// The list of the chunks' ids.
    pub fn from_chunks(alloc: Global, chunks: Chunks) -> Result<Long, Memory>
        ensures { IfOk result (λ long. long ≡ chunks) }
    {
        let body = Body::new(alloc, chunks)?;
        Long::with_tail(body, Vec::new(alloc))
    }

    // A body and what stands behind it. `Memory` where there are too many ids to be counted, which no memory holds.
    fn with_tail(body: Body, tail: Vec<EdgeId>) -> Result<Long, Memory>
        requires { length tail.items ≤ 64 }
        ensures { IfOk result (λ long. long ≡ body ++ tail.items) }
    {
        match body.as_chunks().len().checked_add(tail.len()) {
            Some(_) => Ok(Long { body, tail }),
            None => Err(Memory),
        }
    }

    /// How many ids there are.
    pub fn len(&self) -> usize
        ensures { result ≡ length self.now }
    {
        self.body.as_chunks().len() + self.tail.len()
    }

    /// The id at a place, from 0. `None` exactly past the last.
    pub fn at(&self, place: usize) -> Option<EdgeId>
        ensures { result ≡ slice_get self.now place }
    {
        let body = self.body.as_chunks();
        let len = body.len();
        if place < len {
            body.at(place)
        } else {
            self.tail.as_slice().get(place - len).copied()
        }
    }

    /// Where the id stands among ids that ascend, or where it would go.
    pub fn search(&self, id: EdgeId) -> Result<usize, usize>
        requires { IsStrictlySortedBy edge_cmp self.now }
        ensures there { MatchResult result (IsKeyAt edge_cmp id self.now) (IsKeyGap edge_cmp id self.now) }
        ensures found { IfOk result (λ place. slice_get self.now place ≡ Some id) }
        ensures small { IfOk result (λ place. place + 1 < 2 ^ 64) }
    {
        let body = self.body.as_chunks();
        let len = body.len();
        match self.tail.first() {
            Some(first) if first.0 <= id.0 => match self.tail.as_slice().binary_search(&id) {
                Ok(place) => Ok(len + place),
                Err(place) => Err(len + place),
            },
            _ => body.search(id),
        }
    }

    /// The ids in chunks of which each stands in the body, but for the last few.
    pub fn to_chunks(&self, alloc: Global) -> Result<Chunks, Memory>
        ensures { IfOk result (λ chunks. chunks ≡ self.now) }
    {
        let body = self.body.as_chunks();
        joined(alloc, body, self.tail.as_slice())
    }

    /// Few ids in one block, which has room for no more.
    pub fn to_block(&self, alloc: Global) -> Result<Vec<EdgeId>, Memory>
        requires { length self.now ≤ 64 }
        ensures { IfOk result (λ block. block.items ≡ self.now) }
    {
        self.to_chunks(alloc)?.to_block(alloc)
    }

    /// The list with other ids in the place of a range. `Memory` where there was none left.
    pub fn spliced(
        &self,
        alloc: Global,
        range: (usize, usize),
        ids: &[EdgeId],
    ) -> Result<Long, Memory>
        ensures { IfOk result (λ long. long ≡ take range.0 self.now ++ (ids.now ++ drop range.1 self.now)) }
    {
        let (from, to) = range;
        let len = self.body.as_chunks().len();
        let tail = self.tail.as_slice();
        if len <= from && len <= to {
            return spliced_behind(alloc, &self.body, tail, range, ids);
        }
        if from <= len && to <= len {
            return spliced_before(alloc, &self.body, tail, range, ids);
        }
        let chunks = spliced(alloc, &self.to_chunks(alloc)?, range, ids)?;
        Long::from_chunks(alloc, chunks)
    }
}

// A body and what stands behind it, with other ids in the place of a range that lies behind the body.
fn spliced_behind(
    alloc: Global,
    body: &Body,
    tail: &[EdgeId],
    range: (usize, usize),
    ids: &[EdgeId],
) -> Result<Long, Memory>
    requires from { length body.now ≤ range.0 }
    requires to { length body.now ≤ range.1 }
    ensures { IfOk result (λ long. long ≡ take range.0 (body.now ++ tail.now) ++ (ids.now ++ drop range.1 (body.now ++ tail.now))) }
{
    let (from, to) = range;
    let chunks = body.as_chunks();
    let len = chunks.len();
    let tail = spliced_block(alloc, tail, (from - len, to - len), ids)?;
    if tail.len() <= MOST {
        return Long::with_tail(body.share()?, tail);
    }
    let chunks = joined(alloc, chunks, tail.as_slice())?;
    Long::from_chunks(alloc, chunks)
}

// A body and what stands behind it, with other ids in the place of a range that lies in the body.
fn spliced_before(
    alloc: Global,
    body: &Body,
    tail: &[EdgeId],
    range: (usize, usize),
    ids: &[EdgeId],
) -> Result<Long, Memory>
    requires from { range.0 ≤ length body.now }
    requires to { range.1 ≤ length body.now }
    requires few { length tail.now ≤ 64 }
    ensures { IfOk result (λ long. long ≡ take range.0 (body.now ++ tail.now) ++ (ids.now ++ drop range.1 (body.now ++ tail.now))) }
{
    let chunks = spliced(alloc, body.as_chunks(), range, ids)?;
    let body = Body::new(alloc, chunks)?;
    let tail = Vec::from_slice(alloc, tail)?;
    Long::with_tail(body, tail)
}
