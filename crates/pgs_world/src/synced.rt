ghost use Rattle.std.specs.Prelude.{◌≡◌, ◌+◌, ◌≤◌, length, take, IsTrue, OnOk, OnErr};
ghost use Rattle.pgs_world.specs.Calls.{IsAreaCall};
ghost use Rattle.pgs_world.specs.Disk.{written_over, IsSameBeside, Writes, Cuts};
ghost use Rattle.pgs_world.specs.Moment.{Passes, StopsBy, IsQuiet, ShowsOne, IsSynced, IsSettled, MakesNoPut};
ghost use Rattle.pgs_world.specs.World.{part};
ghost use Rattle.pgs_world.specs.declared.area_limit.TheConstants.{AREA_LIMIT};

use crate::{Area, AreaFault, World};

/// Writes bytes into an area and syncs it. After `Ok` they are on the disk; after a fault, or a stop during
/// the call, any bytes may stand in their range.
pub fn write_synced<W: World>(
    world: &mut W,
    area: Area,
    at: u64,
    bytes: &[u8],
) -> Result<(), AreaFault>
    requires { IsTrue (W.view world.old).tells_bytes → at ≤ length (part area (W.view world.old).shown) }
    ensures written { OnOk result (IsTrue (W.view world.old).tells_bytes → part area (W.view world.new).shown ≡ written_over (part area (W.view world.old).shown) at bytes.now) }
    ensures limit { OnOk result (at + length bytes.now ≤ AREA_LIMIT) }
    ensures beside { IsSameBeside area (W.view world.old).shown (W.view world.new).shown }
    ensures stops { StopsBy (Writes area at (length bytes.now)) (W.view world.old) (W.view world.new) }
    ensures passes { Passes (W.view world.old) (W.view world.new) }
    ensures synced { OnOk result (IsSynced area (W.view world.new)) }
    ensures settled { OnOk result (IsSettled (W.view world.old) → IsSettled (W.view world.new)) }
    ensures call { IsAreaCall (W.view world.old) result (W.view world.new) }
    ensures last { OnErr result (W.failed world.new) }
{
    world.write_at(area, at, bytes)?;
    world.sync(area)
}

/// Cuts an area to a length and syncs it. After `Ok` the cut is on the disk; after a fault, or a stop during
/// the call, any bytes may stand behind it, up to the old length.
pub fn cut_synced<W: World>(world: &mut W, area: Area, len: u64) -> Result<(), AreaFault>
    requires { IsTrue (W.view world.old).tells_bytes → len ≤ length (part area (W.view world.old).shown) }
    ensures cut { OnOk result (IsTrue (W.view world.old).tells_bytes → part area (W.view world.new).shown ≡ take len (part area (W.view world.old).shown)) }
    ensures beside { IsSameBeside area (W.view world.old).shown (W.view world.new).shown }
    ensures stops { StopsBy (Cuts area len) (W.view world.old) (W.view world.new) }
    ensures passes { Passes (W.view world.old) (W.view world.new) }
    ensures synced { OnOk result (IsSynced area (W.view world.new)) }
    ensures settled { OnOk result (IsSettled (W.view world.old) → IsSettled (W.view world.new)) }
    ensures call { IsAreaCall (W.view world.old) result (W.view world.new) }
    ensures last { OnErr result (W.failed world.new) }
{
    world.cut(area, len)?;
    world.sync(area)
}

/// Syncs both areas. After `Ok` nothing is pending, and at every moment both areas are as they were.
pub fn sync_both<W: World>(world: &mut W) -> Result<(), AreaFault>
    ensures settled { OnOk result (IsTrue (W.view world.old).honest → IsTrue (W.view world.old).tells_bytes → IsSettled (W.view world.new)) }
    ensures quiet { IsQuiet (W.view world.old) (W.view world.new) }
    ensures call { IsAreaCall (W.view world.old) result (W.view world.new) }
    ensures last { OnErr result (W.failed world.new) }
{
    world.sync(Area::A)?;
    world.sync(Area::B)
}
