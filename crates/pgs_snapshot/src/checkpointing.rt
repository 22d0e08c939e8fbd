ghost use Rattle.std.specs.Prelude.{◌≤◌, List, ℕ, IsTrue, IfOk};
ghost use Rattle.pgs_journal.specs.Creating.{IsStoreMade};
ghost use Rattle.pgs_journal.specs.Format.{is_epoch, Holds, IsFrames};
ghost use Rattle.pgs_world.specs.World.{Triple, part};

use pgs_journal::Journal;
use pgs_world::{Area, AreaFault, World};

/// Writes a whole store of this epoch into an area, which is the one that isn't chosen, in the second format: its records are
/// those of the frames, one after the other, and the record behind them has the number `next`. At every moment the other area and
/// the output are what they were, and this area is what it was, no store, or the new store, also where the call fails; after `Ok`
/// it is the new store in every image. It takes no memory.
///
/// `AreaFault` comes only where the count of area faults rose.
pub fn checkpoint<W: World>(
    world: &mut W,
    area: Area,
    epoch: u64,
    first: &[u8],
    next: u64,
) -> Result<Journal, AreaFault>
    requires epoch { IsTrue (is_epoch epoch) }
    requires some { 2 ≤ next }
    requires frames { (payloads : List (List ℕ)) × IsFrames payloads next first.now }

    // What it makes of the area, and of the world at every moment.
    ensures made { IsStoreMade area epoch next first.now result (W.failed world.new) (W.view world.old) (W.view world.new) }
    // After Ok each image that a stop leaves of the area is the new store.
    ensures every_image { (payloads : List (List ℕ)) → IsFrames payloads next first.now
        → IfOk result (λ journal. IsTrue (W.view world.old).honest → IsTrue (W.view world.old).tells_bytes
        → (triple : Triple) → (W.view world.new).may_leave triple → Holds journal.next epoch payloads journal.end (part area triple)) }
{
    Journal::create(world, area, epoch, first, next)
}
