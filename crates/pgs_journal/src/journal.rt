ghost use Rattle.std.specs.Prelude.{◌≡◌, ◌≤◌, ◌<◌, List, ℕ, IsTrue, OnOk};
ghost use Rattle.pgs_codec.specs.Frame.{framed};
ghost use Rattle.pgs_journal.specs.Appending.{IsRecordAppended};
ghost use Rattle.pgs_journal.specs.Creating.{IsStoreMade};
ghost use Rattle.pgs_journal.specs.Format.{advanced, is_epoch, Holds, IsFrames, IsNextWithin};
ghost use Rattle.pgs_world.specs.Moment.{IsSynced};
ghost use Rattle.pgs_world.specs.World.{part};
ghost use Rattle.pgs_world.specs.declared.area_limit.TheConstants.{AREA_LIMIT};

use crate::steps::{close_gate, write_store};
use pgs_world::{Area, AreaFault, World, cut_synced, write_synced};

/// The byte of an open gate.
pub(crate) const OPEN: u8 = 1;

/// The journal of a store in one area.
#[derive(Drop)]
pub struct Journal {
    pub area: Area,
    pub epoch: u64,
    /// The place of the closed gate behind the last record.
    pub end: u64,
    /// The number of the next record in the second format, `None` in the first.
    pub next: Option<u64>,
}

/// The next number after one record more. It is in range, since the journal ends below 2^40 and its next number is at most that.
fn number_after(next: Option<u64>, end: u64) -> Option<u64>
    requires end { end < AREA_LIMIT }
    requires within { IsNextWithin next end }
    ensures { result ≡ advanced next }
{
    next.map(|number| number + 1)
}

impl Journal {
    /// Makes a store of this epoch in an area, in the second format, whose records are those of the frames, one after the other,
    /// and whose journal ends behind them: the next record has the number `next`. A stop during the call leaves of the area
    /// what it was, no store, or the new store, also where the call fails. It takes no memory.
    ///
    /// `AreaFault` comes only where the count of area faults rose.
    pub fn create<W: World>(
        world: &mut W,
        area: Area,
        epoch: u64,
        first: &[u8],
        next: u64,
    ) -> Result<Journal, AreaFault>
        requires epoch { IsTrue (is_epoch epoch) }
        requires some { 2 ≤ next }
        requires frames { (payloads : List (List ℕ)) × IsFrames payloads next first.now }

        // What it makes of the area, and of the world at every moment.
        ensures made { IsStoreMade area epoch next first.now result (W.failed world.new) (W.view world.old) (W.view world.new) }
        // After Ok the new store is on the disk.
        ensures synced { OnOk result (IsSynced area (W.view world.new)) }
    {
        close_gate(world, area)?;
        cut_synced(world, area, 1)?;
        write_store(world, area, epoch, first)?;
        write_synced(world, area, 0, &[OPEN])?;
        Ok(Journal {
            area,
            epoch,
            end: 16 + first.len() as u64,
            next: Some(next),
        })
    }

    /// Appends a record, framed with the next number: at `Ok` it is on the disk, and the journal ends behind it. A stop during
    /// the call leaves the records from before it, with the new one or without, also where the call fails. It takes no memory.
    ///
    /// `AreaFault` comes only where the count of area faults rose. The value isn't used again after it.
    pub fn append<W: World>(&mut self, world: &mut W, frame: &[u8]) -> Result<(), AreaFault>
        requires framed { (payload : List ℕ) × (frame.now ≡ framed self.old.next payload) }
        requires within { self.old.end < AREA_LIMIT }
        requires next_within { IsNextWithin self.old.next self.old.end }
        requires holds { IsTrue (W.view world.old).tells_bytes
            → (payloads : List (List ℕ))
            × Holds self.old.next self.old.epoch payloads self.old.end (part self.old.area (W.view world.old).shown) }

        // What it makes of the journal, of the area, and of the world at every moment.
        ensures { IsRecordAppended self.old self.new frame.now result (W.failed world.new) (W.view world.old) (W.view world.new) }
    {
        write_synced(world, self.area, self.end + 1, frame)?;
        write_synced(world, self.area, self.end, &[OPEN])?;
        self.next = number_after(self.next, self.end);
        self.end += frame.len() as u64;
        Ok(())
    }
}
