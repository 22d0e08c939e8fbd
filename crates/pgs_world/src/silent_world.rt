ghost use Rattle.std.specs.Prelude.{◌≡◌, ◌+◌, ◌≤◌, false, length, is_err, IfOk, OnOk, OnErr};
ghost use Rattle.pgs_world.specs.Calls.{Reaches, HasLength, HasBytes, IsWrittenOver, IsCutTo, IsAreaCall, IsPutCall};
ghost use Rattle.pgs_world.specs.Count.{Rose, RoseByOne};
ghost use Rattle.pgs_world.specs.Disk.{IsSameBeside, Writes, Cuts, PutsFront};
ghost use Rattle.pgs_world.specs.Moment.{Passes, StopsBy, IsQuiet, IsSynced};
ghost use Rattle.pgs_world.specs.Silent.{silent_view, put_fails, area_fails, is_outside, after_area_call, after_put};
ghost use Rattle.pgs_world.specs.World.{output_of, Adds, AddsFront};
ghost use Rattle.pgs_world.specs.declared.area_limit.TheConstants.{AREA_LIMIT};

use crate::{Area, AreaFault, PutFault, World};
use pgs_base::{List, Seed};
use std::marker::Model;

/// A world that tells nothing: contracts know no more of it than its counts, as of real files.
///
/// Its areas are empty and take nothing in, and what is put goes nowhere. It also fails at the listed calls.
#[derive(Drop)]
pub struct SilentWorld {
    fail: List<u64>,
    calls: u64,
    area_faults: u64,
    put_faults: u64,
    puts: u64,
}

impl Model for SilentWorld {
    ghost use Rattle.pgs_world.specs.Silent.{Silent};

    ghost Value = { Silent };

    ghost view = { λ w. record { fail = w.fail; calls = w.calls; area_faults = w.area_faults; put_faults = w.put_faults; puts = w.puts } };
}

impl SilentWorld {
    /// A world that fails at the listed calls, counted from 1 over all kinds of calls.
    pub fn new(fail: List<u64>) -> SilentWorld
        ensures { result ≡ record { fail = fail; calls = 0; area_faults = 0; put_faults = 0; puts = 0 } }
    {
        SilentWorld {
            fail,
            calls: 0,
            area_faults: 0,
            put_faults: 0,
            puts: 0,
        }
    }

    /// Counts a call on an area, which fails where it is refused or listed.
    fn area_call(&mut self, refused: bool) -> Result<(), AreaFault>
        ensures fails { is_err result ≡ area_fails self.old refused }
        ensures after { self.new ≡ after_area_call self.old (area_fails self.old refused) }
        ensures cause { OnErr result (RoseByOne self.old.area_faults self.new.area_faults) }
        ensures no_cause { OnOk result (self.new.area_faults ≡ self.old.area_faults) }
        ensures stays { self.old.area_faults ≤ self.new.area_faults }
        ensures calls { self.old.calls ≤ self.new.calls }
        ensures moment { Rose self.old.calls self.new.calls }
    {
        self.calls = self.calls.saturating_add(1);
        if refused || self.fail.as_slice().contains(&self.calls) {
            self.area_faults = self.area_faults.saturating_add(1);
            return Err(AreaFault);
        }
        Ok(())
    }
}

impl World for SilentWorld {
    ghost use Rattle.pgs_world.specs.Silent.{silent_view};
    ghost use Rattle.pgs_world.specs.Untold.{timed_untold};

    ghost view = { silent_view };

    ghost timed = { λ w. timed_untold (record { calls = w.calls; area_faults = w.area_faults; put_faults = w.put_faults; puts = w.puts }) };

    /// 0, unless the call is listed.
    fn len(&mut self, area: Area) -> Result<u64, AreaFault>
        ensures empty { IfOk result (λ count. count ≡ 0) }
        ensures fails { is_err result ≡ area_fails self.old (false) }
        ensures after { self.new ≡ after_area_call self.old (area_fails self.old (false)) }

        // What every world says.
        ensures length { IfOk result (λ count. HasLength area count (silent_view self.old)) }
        ensures limit { IfOk result (λ count. count ≤ AREA_LIMIT) }
        ensures quiet { IsQuiet (silent_view self.old) (silent_view self.new) }
        ensures call { IsAreaCall (silent_view self.old) result (silent_view self.new) }
    {
        self.area_call(false)?;
        Ok(0)
    }

    /// Fails at each range that isn't empty, and where the call is listed.
    fn read_at(&mut self, area: Area, at: u64, buf: &mut [u8]) -> Result<(), AreaFault>
        requires { Reaches area (at + length buf.old) (silent_view self.old) }
        ensures same { buf.new ≡ buf.old }
        ensures fails { is_err result ≡ area_fails self.old (is_outside at (length buf.old)) }
        ensures after { self.new ≡ after_area_call self.old (area_fails self.old (is_outside at (length buf.old))) }

        // What every world says.
        ensures bytes { OnOk result (HasBytes area at (length buf.old) buf.new (silent_view self.old)) }
        ensures quiet { IsQuiet (silent_view self.old) (silent_view self.new) }
        ensures call { IsAreaCall (silent_view self.old) result (silent_view self.new) }
    {
        self.area_call(at != 0 || !buf.is_empty())
    }

    /// Fails at each piece that isn't empty, past the front, and where the call is listed.
    fn write_at(&mut self, area: Area, at: u64, bytes: &[u8]) -> Result<(), AreaFault>
        requires { Reaches area at (silent_view self.old) }
        ensures fails { is_err result ≡ area_fails self.old (is_outside at (length bytes.now)) }
        ensures after { self.new ≡ after_area_call self.old (area_fails self.old (is_outside at (length bytes.now))) }

        // What every world says.
        ensures written { OnOk result (IsWrittenOver area at bytes.now (silent_view self.old) (silent_view self.new)) }
        ensures limit { OnOk result (at + length bytes.now ≤ AREA_LIMIT) }
        ensures beside { IsSameBeside area (silent_view self.old).shown (silent_view self.new).shown }
        ensures stops { StopsBy (Writes area at (length bytes.now)) (silent_view self.old) (silent_view self.new) }
        ensures passes { Passes (silent_view self.old) (silent_view self.new) }
        ensures call { IsAreaCall (silent_view self.old) result (silent_view self.new) }
    {
        self.area_call(at != 0 || !bytes.is_empty())
    }

    /// Fails at each length but 0, and where the call is listed.
    fn cut(&mut self, area: Area, len: u64) -> Result<(), AreaFault>
        requires { Reaches area len (silent_view self.old) }
        ensures fails { is_err result ≡ area_fails self.old (is_outside len 0) }
        ensures after { self.new ≡ after_area_call self.old (area_fails self.old (is_outside len 0)) }

        // What every world says.
        ensures cut { OnOk result (IsCutTo area len (silent_view self.old) (silent_view self.new)) }
        ensures beside { IsSameBeside area (silent_view self.old).shown (silent_view self.new).shown }
        ensures stops { StopsBy (Cuts area len) (silent_view self.old) (silent_view self.new) }
        ensures passes { Passes (silent_view self.old) (silent_view self.new) }
        ensures call { IsAreaCall (silent_view self.old) result (silent_view self.new) }
    {
        self.area_call(len != 0)
    }

    /// Fails where the call is listed.
    fn sync(&mut self, area: Area) -> Result<(), AreaFault>
        ensures fails { is_err result ≡ area_fails self.old (false) }
        ensures after { self.new ≡ after_area_call self.old (area_fails self.old (false)) }

        // What every world says.
        ensures synced { OnOk result (IsSynced area (silent_view self.new)) }
        ensures quiet { IsQuiet (silent_view self.old) (silent_view self.new) }
        ensures call { IsAreaCall (silent_view self.old) result (silent_view self.new) }
    {
        self.area_call(false)
    }

    /// Fails where the call is listed, and after 2^64 - 1 puts that didn't, since no more can be counted.
    fn put(&mut self, piece: &[u8]) -> Result<(), PutFault>
        ensures fails { is_err result ≡ put_fails self.old }
        ensures after { self.new ≡ after_put self.old }

        // What every world says.
        ensures whole { OnOk result (Adds (output_of (silent_view self.old)) (output_of (silent_view self.new)) piece.now) }
        ensures front { OnErr result (AddsFront (output_of (silent_view self.old)) (output_of (silent_view self.new)) piece.now) }
        ensures stops { StopsBy (PutsFront piece.now) (silent_view self.old) (silent_view self.new) }
        ensures passes { Passes (silent_view self.old) (silent_view self.new) }
        ensures call { IsPutCall (silent_view self.old) result (silent_view self.new) }
    {
        self.calls = self.calls.saturating_add(1);
        if self.fail.as_slice().contains(&self.calls) || self.puts == u64::MAX {
            self.put_faults = self.put_faults.saturating_add(1);
            return Err(PutFault);
        }
        self.puts += 1;
        Ok(())
    }

    /// By fixed keys.
    fn seed(&self) -> Seed {
        Seed::Fixed
    }
}
