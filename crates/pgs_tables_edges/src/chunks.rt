ghost use Rattle.std.specs.Prelude.{◌≡◌, ◌<◌, ◌≤◌, ◌+◌, ◌*◌, ◌^◌, [], length, take, slice_get, IfOk, IfErr, MatchResult};
ghost use Rattle.pgs_base.specs.Graph.{edge_cmp};
ghost use Rattle.std.specs.List.Sorted.{IsStrictlySortedBy};
ghost use Rattle.pgs_base.specs.Places.{IsKeyAt, IsKeyGap};
ghost use Rattle.std.specs.List.{flat_map};
ghost use Rattle.pgs_tables_edges.specs.Numbers.{AllBelow, AllAbove, IsBetween};
ghost use Rattle.pgs_tables_edges.specs.Starts.{StartFrom};

mod builder;

use crate::Chunk;
pub use builder::Builder;
use pgs_base::{EdgeId, Memory};
use std::alloc::Global;
use std::marker::Model;

// A chunk has up to so many ids, and two side by side have more. A larger chunk makes an edit copy more, and a smaller one makes it count
// more owners.
const MOST: usize = 1024;

/// A chunk, its first id, and how many ids come before it.
#[derive(Drop)]
struct Part {
    start: usize,
    first: EdgeId,
    ids: Chunk,
}

/// Any list of ids, in chunks that lists share. Contracts see the list.
#[derive(Drop)]
pub struct Chunks {
    parts: Vec<Part>,
    len: usize,
}

impl Model for Chunks {
    ghost use Rattle.std.specs.Prelude.{List};
    ghost use Rattle.pgs_base.specs.declared.element.EdgeId.{EdgeId};
    ghost use Rattle.std.specs.List.{flat_map};
    ghost use Rattle.pgs_tables_edges.specs.Packed.{ArePacked};

    ghost Value = { List EdgeId };

    ghost view = { λ chunks. flat_map (λ part. part.ids) chunks.parts.items };

    ghost invariant = { λ chunks. ArePacked (λ part. part.start) (λ part. part.first) (λ part. part.ids) chunks.len chunks.parts.items };
}

// The part in which the id at a place stands.
fn part_at(parts: &[Part], place: usize) -> usize
    requires starts { StartFrom (λ part. part.start) (λ part. part.first) (λ part. part.ids) 0 parts.now }
    requires within { place < length (flat_map (λ part. part.ids) parts.now) }
    ensures in_range { result < length parts.now }
    ensures before { length (flat_map (λ part. part.ids) (take result parts.now)) ≤ place }
    ensures after { place < length (flat_map (λ part. part.ids) (take (result + 1) parts.now)) }
{
    let mut low = 0;
    let mut high = parts.len();
    while high - low > 1 {
        let middle = low + (high - low) / 2;
        if parts[middle].start <= place {
            low = middle;
        } else {
            high = middle;
        }
    }
    low
}

// The last part that begins with the id or one below it; where there is none, the first.
fn part_for(parts: &[Part], id: EdgeId) -> usize
    requires some { 0 < length parts.now }
    requires starts { StartFrom (λ part. part.start) (λ part. part.first) (λ part. part.ids) 0 parts.now }
    requires ascending { IsStrictlySortedBy edge_cmp (flat_map (λ part. part.ids) parts.now) }
    ensures in_range { result < length parts.now }
    ensures below { AllBelow id (flat_map (λ part. part.ids) parts.now) (length (flat_map (λ part. part.ids) (take result parts.now))) }
    ensures above { AllAbove id (flat_map (λ part. part.ids) parts.now) (length (flat_map (λ part. part.ids) (take (result + 1) parts.now))) }
{
    let mut low = 0;
    let mut high = parts.len();
    while high - low > 1 {
        let middle = low + (high - low) / 2;
        if parts[middle].first.0 <= id.0 {
            low = middle;
        } else {
            high = middle;
        }
    }
    low
}

impl Chunks {
    /// How many ids there are.
    pub fn len(&self) -> usize
        ensures { result ≡ length self.now }
    {
        self.len
    }

    /// The id at a place, from 0.
    pub fn id_at(&self, place: usize) -> EdgeId
        requires { place < length self.now }
        ensures { slice_get self.now place ≡ Some result }
    {
        let parts = self.parts.as_slice();
        let part = &parts[part_at(parts, place)];
        part.ids.as_slice()[place - part.start]
    }

    /// The id at a place, from 0. `None` exactly past the last.
    pub fn at(&self, place: usize) -> Option<EdgeId>
        ensures { result ≡ slice_get self.now place }
    {
        if place < self.len() {
            Some(self.id_at(place))
        } else {
            None
        }
    }

    /// Where the id stands among ids that ascend, or where it would go.
    pub fn search(&self, id: EdgeId) -> Result<usize, usize>
        requires { IsStrictlySortedBy edge_cmp self.now }
        ensures there { MatchResult result (IsKeyAt edge_cmp id self.now) (IsKeyGap edge_cmp id self.now) }
        ensures found { IfOk result (λ place. slice_get self.now place ≡ Some id) }
        ensures between { IfErr result (IsBetween id self.now) }
        ensures small { IfOk result (λ place. place + 1 < 2 ^ 64) }
    {
        if self.len == 0 {
            return Err(0);
        }
        let parts = self.parts.as_slice();
        let part = &parts[part_for(parts, id)];
        match part.ids.as_slice().binary_search(&id) {
            Ok(place) => Ok(part.start + place),
            Err(place) => Err(part.start + place),
        }
    }

    // How many chunks there are: two side by side have more than MOST ids together.
    fn count(&self) -> usize
        ensures { 1024 * result ≤ 2 * length self.now + 1024 }
    {
        self.parts.len()
    }

    /// Few ids in one block, which has room for no more.
    pub fn to_block(&self, alloc: Global) -> Result<Vec<EdgeId>, Memory>
        requires { length self.now ≤ 64 }
        ensures { IfOk result (λ block. block.items ≡ self.now) }
    {
        let mut block = Vec::with_capacity(alloc, self.len())?;
        let parts = self.parts.as_slice();
        for part in parts {
            block.extend_from_slice(part.ids.as_slice())?;
        }
        Ok(block)
    }

    /// A list to be built, without ids, and memory for about as many chunks as there are here.
    pub fn emptied(&self, alloc: Global) -> Result<Builder, Memory>
        ensures { IfOk result (λ builder. builder.ids ≡ []) }
    {
        Builder::with_capacity(alloc, self.count().saturating_add(2))
    }
}
