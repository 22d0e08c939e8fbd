//! The steps in which a store is made in an area, each with its clause on stops.

ghost use Rattle.std.specs.Prelude.{◌≡◌, ◌+◌, ◌≤◌, ◌++◌, ◌∷◌, [], false, length, IsTrue, IfOk, OnOk};
ghost use Rattle.pgs_journal.specs.Area.{opens, is_empty_or_open};
ghost use Rattle.pgs_journal.specs.Calls.{HasAreaCause, IsStep};
ghost use Rattle.pgs_journal.specs.declared.format.Format.TheVariants.{Second};
ghost use Rattle.pgs_journal.specs.Format.{head_body};
ghost use Rattle.pgs_journal.specs.Stops.{Turns, Closes, KeepsGate};
ghost use Rattle.pgs_world.specs.Disk.{IsSameBeside};
ghost use Rattle.pgs_world.specs.Moment.{StopsBy, IsQuiet, ShowsOne, IsSynced, IsSettled, MakesNoPut};
ghost use Rattle.pgs_world.specs.World.{part};
ghost use Rattle.pgs_world.specs.declared.area_limit.TheConstants.{AREA_LIMIT};

use crate::journal::OPEN;
use byteorder::{BigEndian, ByteOrder};
use pgs_world::{Area, AreaFault, World, write_synced};

/// The byte that is written for a closed gate.
const CLOSED: u8 = 0;

/// Whether an area is empty or its gate is open.
fn must_close<W: World>(world: &mut W, area: Area) -> Result<bool, AreaFault>
    ensures answer { IfOk result (λ must. IsTrue (W.view world.old).tells_bytes
        → must ≡ is_empty_or_open (part area (W.view world.old).shown)) }
    ensures quiet { IsQuiet (W.view world.old) (W.view world.new) }
    ensures image { ShowsOne (W.view world.new) }
    ensures faults { HasAreaCause result (W.failed world.new) (W.view world.old) (W.view world.new) }
    ensures no_put { MakesNoPut (W.view world.old) (W.view world.new) }
{
    if world.len(area)? == 0 {
        return Ok(true);
    }
    let mut gate = [CLOSED];
    world.read_at(area, 0, &mut gate)?;
    Ok(gate[0] == OPEN)
}

/// Closes the gate of an area that is empty or whose gate is open, and syncs that. A stop leaves the area as it was, or
/// no store. Elsewhere nothing is written: an unsynced write could open the gate before what an earlier stop left.
pub(crate) fn close_gate<W: World>(world: &mut W, area: Area) -> Result<(), AreaFault>
    ensures closed { OnOk result (IsTrue (W.view world.old).tells_bytes → opens (part area (W.view world.new).shown) ≡ false) }
    ensures some { OnOk result (IsTrue (W.view world.old).tells_bytes → 1 ≤ length (part area (W.view world.new).shown)) }
    ensures synced { OnOk result (IsSynced area (W.view world.old) → IsSynced area (W.view world.new)) }
    ensures settled { OnOk result (IsSettled (W.view world.old) → IsSettled (W.view world.new)) }
    ensures stops { IsTrue (W.view world.old).tells_bytes → IsSynced area (W.view world.old)
        → StopsBy (Turns area Closes) (W.view world.old) (W.view world.new) }
    ensures stops_beside { StopsBy (IsSameBeside area) (W.view world.old) (W.view world.new) }
    ensures beside { IsSameBeside area (W.view world.old).shown (W.view world.new).shown }
    ensures step { IsStep result (W.failed world.new) (W.view world.old) (W.view world.new) }
{
    if must_close(world, area)? {
        write_synced(world, area, 0, &[CLOSED])?;
    }
    Ok(())
}

/// A head of the second format behind its gate, and an open gate.
fn head_bytes(epoch: u64) -> [u8; 16]
    ensures { result ≡ head_body Second epoch ++ 1 ∷ [] }
{
    let mut head = *b"PGSGRD2\0\0\0\0\0\0\0\0\x01";
    BigEndian::write_u64(&mut head[7..15], epoch);
    head
}

/// Writes a head and records behind the gate of an area of one byte, and syncs them. A stop leaves that gate as it was.
pub(crate) fn write_store<W: World>(
    world: &mut W,
    area: Area,
    epoch: u64,
    first: &[u8],
) -> Result<(), AreaFault>
    requires { IsTrue (W.view world.old).tells_bytes → length (part area (W.view world.old).shown) ≡ 1 }
    ensures written { OnOk result (IsTrue (W.view world.old).tells_bytes
        → part area (W.view world.new).shown ≡ part area (W.view world.old).shown ++ (head_body Second epoch ++ 1 ∷ first.now)) }
    ensures limit { OnOk result (17 + length first.now ≤ AREA_LIMIT) }
    ensures synced { OnOk result (IsSynced area (W.view world.new)) }
    ensures settled { OnOk result (IsSettled (W.view world.old) → IsSettled (W.view world.new)) }
    ensures stops { StopsBy (Turns area KeepsGate) (W.view world.old) (W.view world.new) }
    ensures beside { IsSameBeside area (W.view world.old).shown (W.view world.new).shown }
    ensures step { IsStep result (W.failed world.new) (W.view world.old) (W.view world.new) }
{
    world.write_at(area, 1, &head_bytes(epoch))?;
    world.write_at(area, 17, first)?;
    world.sync(area)
}
