ghost use Rattle.std.specs.Prelude.{◌≡◌, ◌<◌, ◌+◌, ◌^◌, ◌++◌, [], length, take, drop, fold, slice_get, IfOk, MatchResult};
ghost use Rattle.std.specs.BTreeMap.{is_at};
ghost use Rattle.std.specs.BTreeSet.{insert_key};
ghost use Rattle.std.specs.Set.{remove_key};
ghost use Rattle.std.specs.List.Sorted.{IsStrictlySortedBy};
ghost use Rattle.pgs_base.specs.Graph.{edge_cmp};
ghost use Rattle.pgs_base.specs.Places.{IsKeyAt, IsKeyGap};

use crate::block::{search_block, spliced_block};
use crate::edits::{chunks_of, with_each, without_each};
use crate::short::{MOST, Short, short_of, spliced_short};
use crate::{Chunks, Long};
use pgs_base::{Boxed, EdgeId, Memory};
use std::alloc::Global;
use std::marker::Model;

// Up to so many ids stand in one block, which is smaller than chunks and quick to copy.
const FEW: usize = 64;

// Each node has two lists. The length of a short one stands beside the tag, and a long one in a box, so no list is larger than a block.
const _: () = prove!(size_of::<Form>() == 32);

/// At most three ids in the list itself, few in a block of their own, and many in a long list.
#[derive(Drop)]
enum Form {
    Short { len: u32, ids: [EdgeId; MOST] },
    Few(Vec<EdgeId>),
    Many(Boxed<Long>),
}

/// Any list of ids, of which up to three take no memory, up to FEW one small block, and more a long list. Contracts see the list.
#[derive(Drop)]
pub struct Ids {
    form: Form,
}

impl Model for Ids {
    ghost use Rattle.std.specs.Prelude.{List};
    ghost use Rattle.pgs_base.specs.declared.element.EdgeId.{EdgeId};
    ghost use Rattle.pgs_tables_edges.specs.Form.{form_ids, IsFitting};

    ghost Value = { List EdgeId };

    ghost view = { λ ids. form_ids ids.form };

    ghost invariant = { λ ids. IsFitting ids.form };
}

impl Ids {
    /// No ids. It takes no memory.
    pub fn new() -> Ids
        ensures { result ≡ [] }
    {
        Ids::from_short(Short::new())
    }

    /// The list of a slice's ids.
    pub fn from_slice(alloc: Global, ids: &[EdgeId]) -> Result<Ids, Memory>
        ensures { IfOk result (λ list. list ≡ ids.now) }
    {
        if ids.len() <= MOST {
            return Ok(Ids::from_short(short_of(ids)));
        }
        let form = if ids.len() <= FEW {
            Form::Few(Vec::from_slice(alloc, ids)?)
        } else {
            Form::Many(long_of(alloc, ids)?)
        };
        Ok(Ids { form })
    }

    // The list of at most three ids.
    fn from_short(short: Short) -> Ids
        ensures { result ≡ short }
    {
        let (len, ids) = short.into_parts();
        Ids {
            form: Form::Short { len, ids },
        }
    }

    // The list of a block's ids.
    fn from_block(alloc: Global, block: Vec<EdgeId>) -> Result<Ids, Memory>
        ensures { IfOk result (λ list. list ≡ block.items) }
    {
        if block.len() <= MOST {
            return Ok(Ids::from_short(short_of(block.as_slice())));
        }
        let form = if block.len() <= FEW {
            Form::Few(block)
        } else {
            Form::Many(long_of(alloc, block.as_slice())?)
        };
        Ok(Ids { form })
    }

    // The list of the chunks' ids.
    fn from_chunks(alloc: Global, chunks: Chunks) -> Result<Ids, Memory>
        ensures { IfOk result (λ list. list ≡ chunks) }
    {
        if chunks.len() <= FEW {
            let block = chunks.to_block(alloc)?;
            return Ids::from_block(alloc, block);
        }
        let long = Long::from_chunks(alloc, chunks)?;
        let long = Boxed::new(alloc, long)?;
        Ok(Ids {
            form: Form::Many(long),
        })
    }

    // The list of a long list's ids.
    fn from_long(alloc: Global, long: Long) -> Result<Ids, Memory>
        ensures { IfOk result (λ list. list ≡ long) }
    {
        if long.len() <= FEW {
            let block = long.to_block(alloc)?;
            return Ids::from_block(alloc, block);
        }
        let long = Boxed::new(alloc, long)?;
        Ok(Ids {
            form: Form::Many(long),
        })
    }

    /// How many ids there are.
    pub fn len(&self) -> usize
        ensures { result ≡ length self.now }
    {
        match &self.form {
            Form::Short { len, ids } => ids[..*len as usize].len(),
            Form::Few(ids) => ids.len(),
            Form::Many(long) => long.get().len(),
        }
    }

    /// The id at a place, from 0. `None` exactly past the last.
    pub fn at(&self, place: usize) -> Option<EdgeId>
        ensures { result ≡ slice_get self.now place }
    {
        match &self.form {
            Form::Short { len, ids } => ids[..*len as usize].get(place).copied(),
            Form::Few(ids) => ids.as_slice().get(place).copied(),
            Form::Many(long) => long.get().at(place),
        }
    }

    /// Where the id stands among ids that ascend, or where it would go.
    pub fn search(&self, id: EdgeId) -> Result<usize, usize>
        requires { IsStrictlySortedBy edge_cmp self.now }
        ensures there { MatchResult result (IsKeyAt edge_cmp id self.now) (IsKeyGap edge_cmp id self.now) }
        ensures found { IfOk result (λ place. slice_get self.now place ≡ Some id) }
        ensures small { IfOk result (λ place. place + 1 < 2 ^ 64) }
    {
        match &self.form {
            Form::Short { len, ids } => search_block(&ids[..*len as usize], id),
            Form::Few(ids) => search_block(ids.as_slice(), id),
            Form::Many(long) => long.get().search(id),
        }
    }

    // The ids in chunks.
    fn to_chunks(&self, alloc: Global) -> Result<Chunks, Memory>
        ensures { IfOk result (λ chunks. chunks ≡ self.now) }
    {
        match &self.form {
            Form::Short { len, ids } => chunks_of(alloc, &ids[..*len as usize]),
            Form::Few(block) => chunks_of(alloc, block.as_slice()),
            Form::Many(long) => long.get().to_chunks(alloc),
        }
    }

    /// The list with other ids in the place of a range. `Memory` where there was none left.
    pub fn spliced(
        &self,
        alloc: Global,
        range: (usize, usize),
        ids: &[EdgeId],
    ) -> Result<Ids, Memory>
        ensures { IfOk result (λ list. list ≡ take range.0 self.now ++ (ids.now ++ drop range.1 self.now)) }
    {
        match &self.form {
            Form::Short { len, ids: block } => {
                spliced_few(alloc, &block[..*len as usize], range, ids)
            }
            Form::Few(block) => spliced_few(alloc, block.as_slice(), range, ids),
            Form::Many(long) => {
                let spliced = long.get().spliced(alloc, range, ids)?;
                Ids::from_long(alloc, spliced)
            }
        }
    }

    /// An equal list. `Memory` where there was none left, and not for up to three ids.
    pub fn copy(&self, alloc: Global) -> Result<Ids, Memory>
        ensures { IfOk result (λ list. list ≡ self.now) }
    {
        if let Form::Short { len, ids } = &self.form {
            return Ok(Ids {
                form: Form::Short {
                    len: *len,
                    ids: *ids,
                },
            });
        }
        let last = self.len();
        self.spliced(alloc, (last, last), &[])
    }

    /// The list, which ascends, with ids put in that ascend. `Memory` where there was none left.
    pub fn with_all(&self, alloc: Global, ids: &[EdgeId]) -> Result<Ids, Memory>
        requires ascends { IsStrictlySortedBy edge_cmp self.now }
        requires ids_ascend { IsStrictlySortedBy edge_cmp ids.now }
        ensures { IfOk result (λ list. list ≡ fold (insert_key edge_cmp) self.now ids.now) }
    {
        let edited = with_each(alloc, &self.to_chunks(alloc)?, ids)?;
        Ids::from_chunks(alloc, edited)
    }

    /// The list, which ascends, with ids taken out that ascend. `Memory` where there was none left.
    pub fn without_all(&self, alloc: Global, ids: &[EdgeId]) -> Result<Ids, Memory>
        requires ascends { IsStrictlySortedBy edge_cmp self.now }
        requires ids_ascend { IsStrictlySortedBy edge_cmp ids.now }
        ensures { IfOk result (λ list. list ≡ fold (λ left id. remove_key (is_at (edge_cmp id)) left) self.now ids.now) }
    {
        let edited = without_each(alloc, &self.to_chunks(alloc)?, ids)?;
        Ids::from_chunks(alloc, edited)
    }
}

// The long list of a slice's ids.
fn long_of(alloc: Global, ids: &[EdgeId]) -> Result<Boxed<Long>, Memory>
    ensures { IfOk result (λ long. long ≡ ids.now) }
{
    let chunks = chunks_of(alloc, ids)?;
    let long = Long::from_chunks(alloc, chunks)?;
    Boxed::new(alloc, long)
}

// The list of a few ids with others in the place of a range.
fn spliced_few(
    alloc: Global,
    block: &[EdgeId],
    range: (usize, usize),
    ids: &[EdgeId],
) -> Result<Ids, Memory>
    ensures { IfOk result (λ list. list ≡ take range.0 block.now ++ (ids.now ++ drop range.1 block.now)) }
{
    if let Some(short) = spliced_short(block, range, ids) {
        return Ok(Ids::from_short(short));
    }
    let spliced = spliced_block(alloc, block, range, ids)?;
    Ids::from_block(alloc, spliced)
}
