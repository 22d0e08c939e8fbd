ghost use Rattle.std.specs.Prelude.{◌≡◌, ◌≤◌, List, ℕ, length, IsTrue, Err, IfOk};
ghost use Rattle.pgs_journal.specs.Area.{area_state, HoldsStore};
ghost use Rattle.pgs_journal.specs.Bounds.{IsBounded};
ghost use Rattle.pgs_journal.specs.Calls.{HasAreaCauseWhere};
ghost use Rattle.pgs_journal.specs.Seen.{HasLength, Stand, IsScanned};
ghost use Rattle.pgs_journal.specs.Told.{IsMadeBy};
ghost use Rattle.pgs_world.specs.Answers.{Answer, Answered};
ghost use Rattle.pgs_world.specs.Moment.{IsQuiet, ShowsOne, MakesNoPut};
ghost use Rattle.pgs_world.specs.World.{part};
ghost use Rattle.pgs_world.specs.declared.area_limit.TheConstants.{AREA_LIMIT};

use crate::head::{Front, Head};
use crate::records::RecordReader;
use crate::{AreaState, ScanFault};
use pgs_world::{Area, World};
use std::alloc::Global;

/// What an area is whose first bytes these are.
fn scan_behind<W: World>(
    alloc: Global,
    world: &mut W,
    front: &Front,
) -> Result<AreaState, ScanFault>
    requires limit { front.now.len ≤ AREA_LIMIT }
    requires len { HasLength (W.view world.old) front.now.area front.now.len }
    requires size { length front.now.bytes ≡ 17 }
    requires bytes { 17 ≤ front.now.len → Stand (W.view world.old) front.now.area 0 front.now.bytes }
    requires image { ShowsOne (W.view world.old) }
    ensures scanned { IfOk result (IsScanned W.answered (W.view world.old) front.now.area world.old world.new front.now.len front.now.bytes) }
    ensures quiet { IsQuiet (W.view world.old) (W.view world.new) }
    ensures image { ShowsOne (W.view world.new) }
    ensures faults { HasAreaCauseWhere (result ≡ Err ScanFault.AreaFault) (W.failed world.new) (W.view world.old) (W.view world.new) }
    ensures no_put { MakesNoPut (W.view world.old) (W.view world.new) }
{
    match front.head() {
        Head::NoStore => Ok(AreaState::NoStore),
        Head::Foreign => Ok(AreaState::Foreign),
        Head::Store { format, epoch } => {
            let records = RecordReader {
                area: front.area,
                format,
                epoch,
            };
            records.read_all(alloc, world, front.len, front.bytes[16])
        }
    }
}

/// What an area is, with no write and no sync. Its length is asked, and its first 17 bytes are read where it has so many. Where
/// its gate is open and its head a store's, its records are read one after the other, up to the closed gate or to the first that
/// isn't whole or isn't fit for its place; nothing behind that is read. Where a record doesn't fit the length that is known, the length
/// is asked again, so that a record which was appended since isn't called damaged (docs/BYTES.md). It takes memory for the payloads, and
/// more of it only for one record at a time, whatever their length fields say.
///
/// `Memory` may come wherever there is none. `AreaFault` comes only where the count of area faults rose.
pub fn scan<W: World>(alloc: Global, world: &mut W, area: Area) -> Result<AreaState, ScanFault>
    // It is what the area is, where the world tells its bytes, and on every world what some bytes are, within bounds.
    ensures state { IfOk result (λ state. IsTrue (W.view world.old).tells_bytes → state ≡ area_state (part area (W.view world.old).shown)) }
    ensures found { IfOk result (λ state. (image : List ℕ) × (length image ≤ AREA_LIMIT) × (state ≡ area_state image)) }
    // Where it is a store, the area holds the records, as `Journal::append` asks it of this epoch and this end.
    ensures holds { IfOk result (λ state. IsTrue (W.view world.new).tells_bytes → HoldsStore state (part area (W.view world.new).shown)) }
    ensures bounds { IfOk result IsBounded }
    // The calls on the world are reads of this area, and what they answered makes the state (`laws::reading_beside_appends`).
    ensures answers { IfOk result (λ state. (answers : List Answer) × Answered W.answered area world.old answers world.new × IsMadeBy answers state) }
    ensures quiet { IsQuiet (W.view world.old) (W.view world.new) }
    ensures image { ShowsOne (W.view world.new) }
    ensures faults { HasAreaCauseWhere (result ≡ Err ScanFault.AreaFault) (W.failed world.new) (W.view world.old) (W.view world.new) }
    ensures no_put { MakesNoPut (W.view world.old) (W.view world.new) }
{
    let front = Front::read(world, area)?;
    scan_behind(alloc, world, &front)
}
