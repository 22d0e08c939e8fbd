//! Lists in chunks while they are built.

ghost use Rattle.std.specs.Prelude.{◌≡◌, ◌<◌, ◌≤◌, ◌+◌, ◌-◌, ◌*◌, ◌++◌, ◌↔◌, [], length, take, drop, slice_get, IfOk, IsSomeAnd, IsTrue, OnOk};

use super::{Chunks, MOST, Part, part_at};
use crate::{Chunk, Copies};
use pgs_base::{EdgeId, Memory};
use std::alloc::Global;
use std::marker::Model;

/// A list of ids in chunks that is built. Contracts see the ids, and how many of them the last chunk has. Each call counts the ids that
/// it copies, and has to prove that so many may be copied; what it doesn't copy it shares.
#[derive(Drop)]
pub struct Builder {
    parts: Vec<Part>,
    len: usize,
}

impl Model for Builder {
    ghost use Rattle.std.specs.List.{flat_map};
    ghost use Rattle.pgs_tables_edges.specs.Built.{Built};
    ghost use Rattle.pgs_tables_edges.specs.Packed.{ArePacked, last_count};

    ghost Value = { Built };

    ghost view = { λ builder. record { ids = flat_map (λ part. part.ids) builder.parts.items; last = last_count (λ part. part.ids) 1024 builder.parts.items } };

    ghost invariant = { λ builder. ArePacked (λ part. part.start) (λ part. part.first) (λ part. part.ids) builder.len builder.parts.items };
}

// Whether so many more ids have room in the last part.
fn is_roomy(parts: &[Part], more: usize) -> bool
    ensures { IsTrue result ↔ IsSomeAnd (slice_get parts.now (length parts.now - 1)) (λ last. length last.ids + more ≤ 1024) }
{
    match parts.last() {
        Some(last) => more <= MOST && last.ids.len() <= MOST - more,
        None => false,
    }
}

impl Builder {
    /// No ids, and memory for so many chunks. `Memory` where there was none left.
    pub fn with_capacity(alloc: Global, chunks: usize) -> Result<Builder, Memory>
        ensures { IfOk result (λ builder. builder.ids ≡ []) }
    {
        let parts = Vec::with_capacity(alloc, chunks)?;
        Ok(Builder { parts, len: 0 })
    }

    /// The list that was built.
    pub fn finish(self) -> Chunks
        ensures { result ≡ self.ids }
    {
        Chunks {
            parts: self.parts,
            len: self.len,
        }
    }

    // Puts a chunk last, behind one that would not fit into one with it. After `Memory` it is missing.
    fn push_chunk(&mut self, first: EdgeId, ids: Chunk) -> Result<(), Memory>
        requires begins { slice_get ids 0 ≡ Some first }
        requires small { length ids ≤ 1024 }
        requires full { 1024 < self.old.last + length ids }
        ensures ids { OnOk result (self.new.ids ≡ self.old.ids ++ ids) }
        ensures last { OnOk result (self.new.last ≡ length ids) }
    {
        let start = self.len;
        let Some(len) = start.checked_add(ids.len()) else {
            return Err(Memory);
        };
        self.parts.push(Part { start, first, ids })?;
        self.len = len;
        Ok(())
    }

    // Puts ids into the last chunk, which has room for them. After `Memory` that chunk may be missing.
    fn append_to_last(
        &mut self,
        alloc: Global,
        copies: &mut Copies,
        ids: &[EdgeId],
    ) -> Result<(), Memory>
        requires room { self.old.last + length ids.now ≤ 1024 }
        requires left { 1024 ≤ copies.old }
        ensures ids { OnOk result (self.new.ids ≡ self.old.ids ++ ids.now) }
        ensures last { OnOk result (length ids.now ≤ self.new.last) }
        ensures copies { copies.old ≤ copies.new + 1024 }
    {
        let Some(len) = self.len.checked_add(ids.len()) else {
            return Err(Memory);
        };
        // There is a last chunk, since some ids have room.
        let Some(last) = self.parts.pop() else {
            return Err(Memory);
        };
        let Part {
            start,
            first,
            ids: chunk,
        } = last;
        self.len = start;
        let ids = Chunk::copied(alloc, copies, chunk.as_slice(), ids)?;
        self.parts.push(Part { start, first, ids })?;
        self.len = len;
        Ok(())
    }

    // Puts at most MOST ids last: into the last chunk where they have room there, and else into one of their own. After `Memory` the
    // last chunk may be missing.
    fn append_piece(
        &mut self,
        alloc: Global,
        copies: &mut Copies,
        ids: &[EdgeId],
    ) -> Result<(), Memory>
        requires small { length ids.now ≤ 1024 }
        requires left { 1024 ≤ copies.old }
        ensures ids { OnOk result (self.new.ids ≡ self.old.ids ++ ids.now) }
        ensures last { OnOk result (length ids.now ≤ self.new.last) }
        ensures copies { copies.old ≤ copies.new + 1024 }
    {
        let Some(first) = ids.first() else {
            return Ok(());
        };
        if is_roomy(self.parts.as_slice(), ids.len()) {
            return self.append_to_last(alloc, copies, ids);
        }
        let chunk = Chunk::copied(alloc, copies, ids, &[])?;
        self.push_chunk(*first, chunk)
    }

    /// Puts ids last. It copies them, and the last chunk where they have room there. After `Memory` some may be missing.
    pub fn append(
        &mut self,
        alloc: Global,
        copies: &mut Copies,
        ids: &[EdgeId],
    ) -> Result<(), Memory>
        requires { length ids.now + 1024 ≤ copies.old }
        ensures ids { OnOk result (self.new.ids ≡ self.old.ids ++ ids.now) }
        ensures copies { copies.old ≤ copies.new + (length ids.now + 1024) }
    {
        let mut left = ids;
        while left.len() > MOST {
            let (piece, rest) = left.split_at(MOST);
            self.append_piece(alloc, copies, piece)?;
            left = rest;
        }
        self.append_piece(alloc, copies, left)
    }

    // Puts all ids of a part of another list last. Both lists then share its chunk, unless the ids have room in the last chunk here. After
    // `Memory` the last chunk may be missing.
    fn append_part(&mut self, alloc: Global, copies: &mut Copies, part: &Part) -> Result<(), Memory>
        requires first { slice_get part.now.ids 0 ≡ Some part.now.first }
        requires small { length part.now.ids ≤ 1024 }
        requires left { 1024 ≤ copies.old }
        ensures ids { OnOk result (self.new.ids ≡ self.old.ids ++ part.now.ids) }
        ensures last { OnOk result (length part.now.ids ≤ self.new.last) }
        ensures copies { copies.old ≤ copies.new + 1024 }
        ensures shared { 1024 < self.old.last + length part.now.ids → copies.new ≡ copies.old }
    {
        if is_roomy(self.parts.as_slice(), part.ids.len()) {
            return self.append_to_last(alloc, copies, part.ids.as_slice());
        }
        let chunk = part.ids.share()?;
        self.push_chunk(part.first, chunk)
    }

    // Puts a range of a part's ids last. `append_part` puts all of them.
    fn append_cut(
        &mut self,
        alloc: Global,
        copies: &mut Copies,
        part: &Part,
        range: (usize, usize),
    ) -> Result<(), Memory>
        requires first { slice_get part.now.ids 0 ≡ Some part.now.first }
        requires small { length part.now.ids ≤ 1024 }
        requires left { 1024 ≤ copies.old }
        ensures ids { OnOk result (self.new.ids ≡ self.old.ids ++ drop range.0 (take range.1 part.now.ids)) }
        ensures last { OnOk result (range.0 ≡ 0 → length part.now.ids ≤ range.1 → length part.now.ids ≤ self.new.last) }
        ensures copies { copies.old ≤ copies.new + 1024 }
        ensures shared { range.0 ≡ 0 → length part.now.ids ≤ range.1 → 1024 < self.old.last + length part.now.ids → copies.new ≡ copies.old }
    {
        let (from, to) = range;
        let len = part.ids.len();
        if from >= to || from >= len {
            return Ok(());
        }
        if from == 0 && to >= len {
            return self.append_part(alloc, copies, part);
        }
        self.append_piece(alloc, copies, &part.ids.as_slice()[from..to.min(len)])
    }

    /// Puts a range of another list last, of which either end may lie past that list's last. It copies the ids of at most three chunks: at
    /// the two ends of the range, and where its second chunk has room in the last one here. All others are shared. After `Memory` some may
    /// be missing.
    pub fn append_range(
        &mut self,
        alloc: Global,
        copies: &mut Copies,
        other: &Chunks,
        range: (usize, usize),
    ) -> Result<(), Memory>
        requires { 3 * 1024 ≤ copies.old }
        ensures ids { OnOk result (self.new.ids ≡ self.old.ids ++ drop range.0 (take range.1 other.now)) }
        ensures copies { OnOk result (copies.old ≤ copies.new + 3 * 1024) }
    {
        let (from, to) = range;
        if from >= to || from >= other.len() {
            return Ok(());
        }
        let parts = other.parts.as_slice();
        let begin = part_at(parts, from);
        let mut next = begin;
        while next < parts.len() && parts[next].start < to {
            let part = &parts[next];
            let cut = (
                from.saturating_sub(part.start),
                to.saturating_sub(part.start),
            );
            self.append_cut(alloc, copies, part, cut)?;
            next += 1;
        }
        Ok(())
    }
}
