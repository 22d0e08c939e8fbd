//! The edits of lists in chunks. Each begins with a number of ids that it may copy, which nothing outside this file can make.

ghost use Rattle.std.specs.Prelude.{◌≡◌, ◌≤◌, ◌+◌, ◌++◌, fold, length, take, drop, IfOk};
ghost use Rattle.std.specs.List.Sorted.{IsStrictlySortedBy};
ghost use Rattle.std.specs.BTreeMap.{is_at};
ghost use Rattle.std.specs.BTreeSet.{insert_key};
ghost use Rattle.std.specs.Set.{remove_key};
ghost use Rattle.pgs_base.specs.Graph.{edge_cmp};

use crate::{Builder, Chunks};
use pgs_base::{EdgeId, Memory};
use std::alloc::Global;
use std::marker::Model;

// A range may copy the ids of three chunks, of at most 1,024 each. All others are shared.
const RANGE: u128 = 3 * 1024;

// Ids put last may copy as many beside themselves: those of the last chunk, where they have room in it.
const LAST: u128 = 1024;

/// How many more ids an edit may copy. Contracts see the number.
#[derive(Drop)]
pub struct Copies {
    left: u128,
}

impl Model for Copies {
    ghost use Rattle.std.specs.Prelude.{ℕ};

    ghost Value = { ℕ };

    ghost view = { λ copies. copies.left };
}

impl Copies {
    fn new(left: u128) -> Copies
        ensures { result ≡ left }
    {
        Copies { left }
    }

    /// Counts ids that are copied.
    pub fn spend(&mut self, ids: usize)
        requires { ids ≤ self.old }
        ensures { self.old ≡ self.new + ids }
    {
        self.left -= ids as u128;
    }
}

/// The list of a slice's ids. `Memory` where none was left.
pub fn chunks_of(alloc: Global, ids: &[EdgeId]) -> Result<Chunks, Memory>
    ensures { IfOk result (λ chunks. chunks ≡ ids.now) }
{
    let mut copies = Copies::new(ids.len() as u128 + LAST);
    let mut built = Builder::with_capacity(alloc, 1)?;
    built.append(alloc, &mut copies, ids)?;
    Ok(built.finish())
}

/// The chunks' ids and then some more. `Memory` where none was left.
pub fn joined(alloc: Global, chunks: &Chunks, more: &[EdgeId]) -> Result<Chunks, Memory>
    ensures { IfOk result (λ joined. joined ≡ chunks.now ++ more.now) }
{
    let mut copies = Copies::new(RANGE + more.len() as u128 + LAST);
    let mut built = chunks.emptied(alloc)?;
    built.append_range(alloc, &mut copies, chunks, (0, chunks.len()))?;
    built.append(alloc, &mut copies, more)?;
    Ok(built.finish())
}

/// The list with other ids in the place of a range. `Memory` where none was left.
pub fn spliced(
    alloc: Global,
    list: &Chunks,
    range: (usize, usize),
    ids: &[EdgeId],
) -> Result<Chunks, Memory>
    ensures { IfOk result (λ spliced. spliced ≡ take range.0 list.now ++ (ids.now ++ drop range.1 list.now)) }
{
    let (from, to) = range;
    let mut copies = Copies::new(RANGE + ids.len() as u128 + LAST + RANGE);
    let mut built = list.emptied(alloc)?;
    built.append_range(alloc, &mut copies, list, (0, from))?;
    built.append(alloc, &mut copies, ids)?;
    built.append_range(alloc, &mut copies, list, (to, list.len()))?;
    Ok(built.finish())
}

/// A list that ascends, with ids put in that ascend, in one pass, of which each may cost what an edit of one does. `Memory` where none
/// was left.
pub fn with_each(alloc: Global, list: &Chunks, ids: &[EdgeId]) -> Result<Chunks, Memory>
    requires ascends { IsStrictlySortedBy edge_cmp list.now }
    requires ids_ascend { IsStrictlySortedBy edge_cmp ids.now }
    ensures { IfOk result (λ edited. edited ≡ fold (insert_key edge_cmp) list.now ids.now) }
{
    let mut built = list.emptied(alloc)?;
    let mut done = 0;
    for id in ids {
        match list.search(*id) {
            Ok(_) => {}
            Err(place) => {
                let mut copies = Copies::new(RANGE + 1 + LAST);
                built.append_range(alloc, &mut copies, list, (done, place))?;
                built.append(alloc, &mut copies, &[*id])?;
                done = place;
            }
        }
    }
    let mut copies = Copies::new(RANGE);
    built.append_range(alloc, &mut copies, list, (done, list.len()))?;
    Ok(built.finish())
}

/// A list that ascends, with ids taken out that ascend, in one pass, of which each may cost what an edit of one does. `Memory` where none
/// was left.
pub fn without_each(alloc: Global, list: &Chunks, ids: &[EdgeId]) -> Result<Chunks, Memory>
    requires ascends { IsStrictlySortedBy edge_cmp list.now }
    requires ids_ascend { IsStrictlySortedBy edge_cmp ids.now }
    ensures { IfOk result (λ edited. edited ≡ fold (λ left id. remove_key (is_at (edge_cmp id)) left) list.now ids.now) }
{
    let mut built = list.emptied(alloc)?;
    let mut done = 0;
    for id in ids {
        match list.search(*id) {
            Ok(place) => {
                let mut copies = Copies::new(RANGE);
                built.append_range(alloc, &mut copies, list, (done, place))?;
                done = place + 1;
            }
            Err(_) => {}
        }
    }
    let mut copies = Copies::new(RANGE);
    built.append_range(alloc, &mut copies, list, (done, list.len()))?;
    Ok(built.finish())
}
