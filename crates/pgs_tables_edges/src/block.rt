//! Ids in one block.

ghost use Rattle.std.specs.Prelude.{◌≡◌, ◌<◌, ◌+◌, ◌^◌, ◌++◌, take, drop, slice_get, IfOk, MatchResult};
ghost use Rattle.std.specs.List.Sorted.{IsStrictlySortedBy};
ghost use Rattle.pgs_base.specs.Graph.{edge_cmp};
ghost use Rattle.pgs_base.specs.Places.{IsKeyAt, IsKeyGap};

use pgs_base::{EdgeId, Memory};
use std::alloc::Global;

/// A block of these ids with others in the place of a range.
pub fn spliced_block(
    alloc: Global,
    block: &[EdgeId],
    range: (usize, usize),
    ids: &[EdgeId],
) -> Result<Vec<EdgeId>, Memory>
    ensures { IfOk result (λ spliced. spliced.items ≡ take range.0 block.now ++ (ids.now ++ drop range.1 block.now)) }
{
    let (from, to) = range;
    let before = &block[..from.min(block.len())];
    let after = &block[to.min(block.len())..];
    let count = before
        .len()
        .saturating_add(ids.len())
        .saturating_add(after.len());
    let mut spliced = Vec::with_capacity(alloc, count)?;
    spliced.extend_from_slice(before)?;
    spliced.extend_from_slice(ids)?;
    spliced.extend_from_slice(after)?;
    Ok(spliced)
}

/// Where the id stands in a block that ascends, or where it would go.
pub fn search_block(block: &[EdgeId], id: EdgeId) -> Result<usize, usize>
    requires { IsStrictlySortedBy edge_cmp block.now }
    ensures there { MatchResult result (IsKeyAt edge_cmp id block.now) (IsKeyGap edge_cmp id block.now) }
    ensures found { IfOk result (λ place. slice_get block.now place ≡ Some id) }
    ensures small { IfOk result (λ place. place + 1 < 2 ^ 64) }
{
    block.binary_search(&id)
}
