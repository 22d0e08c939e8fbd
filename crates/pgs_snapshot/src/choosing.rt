ghost use Rattle.std.specs.Prelude.{◌≡◌, true, Some, None, Err, IsTrue, IfOk, IfErr, OnErr};
ghost use Rattle.pgs_journal.specs.Bounds.{IsBounded, IsBoundedStore};
ghost use Rattle.pgs_journal.specs.Calls.{HasAreaCauseWhere};
ghost use Rattle.pgs_snapshot.specs.Choice.{greater, head_epoch, is_foreign_head, leading, taken, without_heads};
ghost use Rattle.pgs_snapshot.specs.Choice as choices;
ghost use Rattle.pgs_snapshot.specs.Standing.{Finds, Refuses, is_read};
ghost use Rattle.pgs_world.specs.Moment.{IsQuiet, ShowsOne, IsSettled, MakesNoPut};

use crate::ChooseFault;
use pgs_base::{Bytes, List};
use pgs_journal::{AreaState, Head, read_head, scan};
use pgs_world::{Area, World, sync_both};
use std::alloc::Global;

/// The store of two areas: the chosen area, and what stands in it.
#[derive(Drop)]
pub struct Chosen {
    pub area: Area,
    pub epoch: u64,
    /// The place of the closed gate behind the last record.
    pub end: u64,
    /// The number of the record behind the last one in the second format, `None` in the first.
    pub next: Option<u64>,
    /// The payloads of the records, in order.
    pub payloads: List<Bytes>,
}

/// The epoch of the store that a head is of.
fn head_epoch(head: Head) -> Option<u64>
    ensures { result ≡ head_epoch head }
{
    match head {
        Head::NoStore | Head::Foreign => None,
        Head::Store { epoch, .. } => Some(epoch),
    }
}

/// The area whose store has the greater epoch, A where both are equal.
fn greater(a: Option<u64>, b: Option<u64>) -> Option<Area>
    ensures { result ≡ greater a b }
{
    match (a, b) {
        (None, None) => None,
        (None, Some(_)) => Some(Area::B),
        (Some(_), None) => Some(Area::A),
        (Some(a), Some(b)) => Some(if a < b { Area::B } else { Area::A }),
    }
}

fn is_foreign(head: Head) -> bool
    ensures { result ≡ is_foreign_head head }
{
    matches!(head, Head::Foreign)
}

/// Why there is no store in two areas of these heads, neither of which is one's.
fn no_store_of(a: Head, b: Head) -> ChooseFault
    ensures refused { Refuses result (without_heads a b) }
    ensures read { is_read (Err result) ≡ true }
{
    if is_foreign(a) || is_foreign(b) {
        ChooseFault::Foreign
    } else {
        ChooseFault::NoStore
    }
}

/// The area of the store with the greater epoch, by the heads of both.
fn leading(a: Head, b: Head) -> Result<Area, ChooseFault>
    ensures leads { IfOk result (λ area. leading a b ≡ Some area) }
    ensures none { OnErr result (leading a b ≡ None) }
    ensures refused { IfErr result (λ fault. Refuses fault (without_heads a b)) }
    ensures read { IfErr result (λ fault. is_read (Err fault) ≡ true) }
{
    match greater(head_epoch(a), head_epoch(b)) {
        Some(area) => Ok(area),
        None => Err(no_store_of(a, b)),
    }
}

/// The store of an area of this state.
fn store_in(area: Area, state: AreaState) -> Result<Chosen, ChooseFault>
    requires { IsBounded state }
    ensures chosen { IfOk result (λ it. taken area state ≡ choices.chosen it.area it.epoch it.end it.next it.payloads) }
    ensures refused { IfErr result (λ fault. Refuses fault (taken area state)) }
    ensures read { is_read result ≡ true }
    ensures bounds { IfOk result (λ it. IsBoundedStore it.epoch it.end it.next it.payloads) }
{
    match state {
        AreaState::NoStore => Err(ChooseFault::NoStore),
        AreaState::Foreign => Err(ChooseFault::Foreign),
        AreaState::Damaged { number, .. } => Err(ChooseFault::BadRecord { number }),
        AreaState::Store {
            epoch,
            end,
            next,
            payloads,
        } => Ok(Chosen {
            area,
            epoch,
            end,
            next,
            payloads,
        }),
    }
}

/// The store of two areas, with no sync: where that can be known, nothing is pending when they are read. Of each the head is read, and
/// then the chosen one is scanned.
fn read_chosen<W: World>(alloc: Global, world: &mut W) -> Result<Chosen, ChooseFault>
    requires { IsTrue (W.view world.old).honest → IsTrue (W.view world.old).tells_bytes → IsSettled (W.view world.old) }
    ensures found { Finds result (W.view world.old) (W.view world.new) }
    ensures quiet { IsQuiet (W.view world.old) (W.view world.new) }
    ensures image { ShowsOne (W.view world.new) }
    ensures faults { HasAreaCauseWhere (result ≡ Err ChooseFault.DiskFault) (W.failed world.new) (W.view world.old) (W.view world.new) }
    ensures no_put { MakesNoPut (W.view world.old) (W.view world.new) }
{
    let a = read_head(world, Area::A)?;
    let b = read_head(world, Area::B)?;
    let area = leading(a, b)?;
    let state = scan(alloc, world, area)?;
    store_in(area, state)
}

/// The store of two areas, by the definition of which one is chosen. Both areas are synced first; then the head of each is read, and
/// the one that is chosen is scanned, so that of the other no more than 17 bytes are read. Nothing is written: both areas and the
/// output are what they were at every moment, and after an answer that speaks of the areas nothing is pending. What it gives is
/// within its bounds on every world.
///
/// `NoStore` where no area is a store and none is foreign, `Foreign` where no area is a store and one is foreign, `BadRecord`
/// where the chosen store is damaged at that record, each exactly where the world tells its bytes. `DiskFault` comes only where
/// the count of area faults rose. `Memory` may come wherever there is none. Whether the records lead anywhere isn't judged.
#[tactic(auto, using(pgs_world::proofs::Moments::settled_quiet))]
pub fn choose_area<W: World>(alloc: Global, world: &mut W) -> Result<Chosen, ChooseFault>
    // It is what the definition says of both areas, and the areas are so now: the chosen one holds the records, as
    // `Journal::append` asks it of this epoch and this end.
    ensures found { Finds result (W.view world.old) (W.view world.new) }
    ensures settled { is_read result ≡ true → IsTrue (W.view world.old).honest → IsTrue (W.view world.old).tells_bytes
        → IsSettled (W.view world.new) }
    ensures quiet { IsQuiet (W.view world.old) (W.view world.new) }
    ensures image { ShowsOne (W.view world.new) }
    ensures faults { HasAreaCauseWhere (result ≡ Err ChooseFault.DiskFault) (W.failed world.new) (W.view world.old) (W.view world.new) }
    ensures no_put { MakesNoPut (W.view world.old) (W.view world.new) }
{
    sync_both(world)?;
    read_chosen(alloc, world)
}
