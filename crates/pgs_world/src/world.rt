ghost use Rattle.std.specs.Prelude.{◌≡◌, ◌+◌, ◌≤◌, length, take, drop, IsTrue, IfOk, OnOk, OnErr, ⊤};
ghost use Rattle.pgs_base.specs.declared.seed.Seed.{Seed};
ghost use Rattle.pgs_base.specs.declared.seed.Seed.TheVariants.{Fixed};
ghost use Rattle.pgs_world.specs.declared.area.Area.{Area};
ghost use Rattle.pgs_world.specs.Answers.{Answer, Long, Read};
ghost use Rattle.pgs_world.specs.Calls.{IsAreaCall};
ghost use Rattle.pgs_world.specs.Count.{Rose, RoseByOne};
ghost use Rattle.pgs_world.specs.Disk.{written_over, IsSameBeside, Writes, Cuts, PutsFront};
ghost use Rattle.pgs_world.specs.Moment.{IsTimed, Passes, StopsBy, IsQuiet, ShowsOne, IsSynced, MakesNoPut};
ghost use Rattle.pgs_world.specs.World.{View, output_of, part, Adds, AddsFront};
ghost use Rattle.pgs_world.specs.declared.area_limit.TheConstants.{AREA_LIMIT};

use crate::{Area, AreaFault, PutFault};
use pgs_base::Seed;

/// Two areas of bytes and an output.
///
/// A call that fails raised a count by one. What a contract says of the bytes and of the output holds where the
/// world tells them, and what it says of stops holds where the world is honest (docs/DEFINITIONS.md).
pub trait World {
    /// What contracts see of the world.
    ghost view: { Self → View };

    /// The last call on the world failed. Code that is generic over worlds can't make this fact up, and knows nothing of it after a call
    /// that didn't fail; so where a contract says it, the call that failed was the last, whatever a world takes it to be.
    ghost failed: { Self → Type 0 } = { λ _. ⊤ };

    /// A call that answered of an area: its length, or bytes of it. Code that is generic over worlds can't make such a fact up, so what a
    /// contract says by it is said of the calls themselves, whatever a world takes it to be.
    ghost answered: { Self → Area → Answer → Self → Type 0 } = { λ _ _ _ _. ⊤ };

    /// How the tables of a graph that is kept with the world hash.
    ghost hashed_by: { Self → Seed } = { λ _. Fixed };

    /// The length of an area, in bytes. An area of more than 2^40 bytes is a fault.
    fn len(&mut self, area: Area) -> Result<u64, AreaFault>
        ensures length { IfOk result (λ count. IsTrue (view self.old).tells_bytes → count ≡ length (part area (view self.old).shown)) }
        ensures limit { IfOk result (λ count. count ≤ AREA_LIMIT) }
        ensures answered { IfOk result (λ count. answered self.old area (Long count) self.new) }
        ensures quiet { IsQuiet (view self.old) (view self.new) }
        ensures call { IsAreaCall (view self.old) result (view self.new) }
        ensures last { OnErr result (failed self.new) };

    /// Fills the buffer with the bytes of an area from a place on. Where the length is told, no caller may ask
    /// for a range outside the area; where it isn't, an implementation should make such a range a fault.
    fn read_at(&mut self, area: Area, at: u64, buf: &mut [u8]) -> Result<(), AreaFault>
        requires { IsTrue (view self.old).tells_bytes → at + length buf.old ≤ length (part area (view self.old).shown) }
        ensures bytes { OnOk result (IsTrue (view self.old).tells_bytes → buf.new ≡ take (length buf.old) (drop at (part area (view self.old).shown))) }
        ensures answered { OnOk result (answered self.old area (Read at buf.new) self.new) }
        ensures quiet { IsQuiet (view self.old) (view self.new) }
        ensures call { IsAreaCall (view self.old) result (view self.new) }
        ensures last { OnErr result (failed self.new) };

    /// Writes over what is there, and past the end. Until a sync of the area, a stop may leave any bytes in
    /// the range and any length between the old and the new one. A write past 2^40 bytes is a fault. After
    /// a fault the bytes are as if part of it had been done.
    fn write_at(&mut self, area: Area, at: u64, bytes: &[u8]) -> Result<(), AreaFault>
        requires { IsTrue (view self.old).tells_bytes → at ≤ length (part area (view self.old).shown) }
        ensures written { OnOk result (IsTrue (view self.old).tells_bytes → part area (view self.new).shown ≡ written_over (part area (view self.old).shown) at bytes.now) }
        ensures limit { OnOk result (at + length bytes.now ≤ AREA_LIMIT) }
        ensures beside { IsSameBeside area (view self.old).shown (view self.new).shown }
        ensures stops { StopsBy (Writes area at (length bytes.now)) (view self.old) (view self.new) }
        ensures passes { Passes (view self.old) (view self.new) }
        ensures call { IsAreaCall (view self.old) result (view self.new) }
        ensures last { OnErr result (failed self.new) };

    /// Cuts an area to a length. Until a sync of the area, a stop may leave any bytes behind the cut, up to
    /// the old length. After a fault the bytes are as if part of it had been done.
    fn cut(&mut self, area: Area, len: u64) -> Result<(), AreaFault>
        requires { IsTrue (view self.old).tells_bytes → len ≤ length (part area (view self.old).shown) }
        ensures cut { OnOk result (IsTrue (view self.old).tells_bytes → part area (view self.new).shown ≡ take len (part area (view self.old).shown)) }
        ensures beside { IsSameBeside area (view self.old).shown (view self.new).shown }
        ensures stops { StopsBy (Cuts area len) (view self.old) (view self.new) }
        ensures passes { Passes (view self.old) (view self.new) }
        ensures call { IsAreaCall (view self.old) result (view self.new) }
        ensures last { OnErr result (failed self.new) };

    /// After it, a stop leaves of the area what a read gives.
    fn sync(&mut self, area: Area) -> Result<(), AreaFault>
        ensures synced { OnOk result (IsSynced area (view self.new)) }
        ensures quiet { IsQuiet (view self.old) (view self.new) }
        ensures call { IsAreaCall (view self.old) result (view self.new) }
        ensures last { OnErr result (failed self.new) };

    /// Puts the piece at the end of the output; the count of puts is then one more. After `PutFault` some front
    /// of the piece may have been put, the count of put faults rose, and the count of puts is as it was. A stop
    /// during the call leaves some front of the piece.
    fn put(&mut self, piece: &[u8]) -> Result<(), PutFault>
        ensures whole { OnOk result (Adds (output_of (view self.old)) (output_of (view self.new)) piece.now) }
        ensures front { OnErr result (AddsFront (output_of (view self.old)) (output_of (view self.new)) piece.now) }
        ensures cause { OnErr result (RoseByOne (view self.old).put_faults (view self.new).put_faults) }
        ensures last { OnErr result (failed self.new) }
        ensures faults_stay { (view self.old).put_faults ≤ (view self.new).put_faults }

        ensures a { (view self.new).shown.a ≡ (view self.old).shown.a }
        ensures b { (view self.new).shown.b ≡ (view self.old).shown.b }
        ensures stops { StopsBy (PutsFront piece.now) (view self.old) (view self.new) }
        ensures passes { Passes (view self.old) (view self.new) }
        ensures moment { Rose (view self.old).moment (view self.new).moment }
        ensures image { ShowsOne (view self.new) }
        ensures counted { OnOk result ((view self.new).puts ≡ (view self.old).puts + 1) }
        ensures not_counted { OnErr result ((view self.new).puts ≡ (view self.old).puts) }
        ensures no_cause { OnOk result ((view self.new).put_faults ≡ (view self.old).put_faults) }
        ensures no_area { (view self.new).area_faults ≡ (view self.old).area_faults };

    /// How the tables of a graph that is kept with this world hash. No answer depends on it.
    fn seed(&self) -> Seed
        ensures { result ≡ hashed_by self.now };

    /// What a stop may leave now, and since each moment, belong together.
    ghost timed: { (world : Self) → IsTimed (view world) };
}
