ghost use Rattle.std.specs.Prelude.{◌≡◌, false};
ghost use Rattle.pgs_run_lines.specs.AreasKept.{KeepsAreas};
ghost use Rattle.pgs_run_store.specs.Ending.{EndsLast, EndsUnopened, is_refusal};

use crate::Unopened;
use pgs_command::Status;
use pgs_run_lines::put_reply;
use pgs_world::World;

/// Ends a command whose store isn't opened: puts the line of a refusal, and gives the status. `PutFault` comes only where the count of
/// put faults rose. Where it is no refusal, the world is as it was.
pub fn end_unopened<W: World>(world: &mut W, unopened: Unopened) -> Status
    ensures ends { EndsUnopened unopened (W.view world.old) result (W.view world.new) }
    ensures areas { KeepsAreas (W.view world.old) (W.view world.new) }
    ensures early { is_refusal unopened ≡ false → world.new ≡ world.old }
    ensures last { EndsLast unopened result (W.failed world.new) }
{
    match unopened {
        Unopened::Refused(reply) => put_reply(world, &reply),
        Unopened::DiskFault => Status::DiskFault,
        Unopened::Memory => Status::Memory,
    }
}
