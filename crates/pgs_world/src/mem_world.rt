ghost use Rattle.std.specs.Prelude.{◌≡◌, ◌+◌, ◌≤◌, ◌^◌, [], not, length, take, drop, min, is_some, is_err, Some, IfSome, IfOk, OnOk, OnErr, IsTrue};
ghost use Rattle.pgs_world.specs.Calls.{Reaches, HasLength, HasBytes, IsWrittenOver, IsCutTo, IsAreaCall, IsPutCall};
ghost use Rattle.pgs_world.specs.Disk.{IsSameBeside, Writes, Cuts, PutsFront};
ghost use Rattle.pgs_world.specs.Left.{left_of};
ghost use Rattle.pgs_world.specs.MemWorld.{IsKnown, view_of, area_of, begun, fails_next, refuses, len_fails, write_fails, after_read, after_write_at, after_cut_to, after_sync, after_put};
ghost use Rattle.pgs_world.specs.Moment.{Passes, StopsBy, IsQuiet, IsSynced, IsSettled};
ghost use Rattle.pgs_world.specs.World.{output_of, part, Adds, AddsFront};
ghost use Rattle.pgs_world.specs.declared.area_limit.TheConstants.{AREA_LIMIT};

use crate::area_limit::passes_limit;
use crate::mem_contents::{Contents, Note, Noted, add_note};
use crate::meter::Meter;
use crate::{Area, AreaFault, Leave, PutFault, World};
use pgs_base::{Bytes, List, Memory, Seed};
use std::alloc::Global;
use std::marker::Model;

/// A world in memory. It is honest, tells its bytes and its output, and fails exactly as listed.
///
/// It takes its memory when it is made, and no call asks for more.
#[derive(Drop)]
pub struct MemWorld {
    first_a: Bytes,
    first_b: Bytes,
    contents: Contents,
    /// The calls that changed it, and the bytes that they were handed.
    notes: Vec<Noted>,
    pieces: Vec<u8>,
    meter: Meter,
}

impl Model for MemWorld {
    ghost use Rattle.pgs_world.specs.MemWorld.{Kept};

    ghost Value = { Kept };

    ghost use Rattle.pgs_world.specs.Sound.{kept_of, IsSound};

    ghost view = { kept_of };

    ghost invariant = { IsSound };
}

impl MemWorld {
    /// A world with these areas, all of them on the disk, and no output. It takes at once the memory for
    /// `room` calls and for `room` bytes written and put; no call asks for more.
    ///
    /// It fails exactly at the calls that are listed, counted from 1 over all kinds of calls, at every call
    /// after the `room`-th, at a piece with which the bytes handed in so far exceed `room` (also those
    /// handed to calls that failed), at a `len` of an area of more than 2^40 bytes, and at a write whose range
    /// ends past 2^40 bytes. `room` is at most 2^32.
    pub fn new(
        alloc: Global,
        a: Bytes,
        b: Bytes,
        room: u64,
        fail: List<u64>,
    ) -> Result<MemWorld, Memory>
        requires { room ≤ 2 ^ 32 }
        ensures output { IfOk result (λ world. output_of (⟦<MemWorld as World>⟧.view world) ≡ Some []) }
        ensures put_faults { IfOk result (λ world. (⟦<MemWorld as World>⟧.view world).put_faults ≡ 0) }
        ensures area_faults { IfOk result (λ world. (⟦<MemWorld as World>⟧.view world).area_faults ≡ 0) }
        ensures shown { IfOk result (λ world. (⟦<MemWorld as World>⟧.view world).shown ≡ record { a = a; b = b; output = [] }) }
        ensures settled { IfOk result (λ world. IsSettled (⟦<MemWorld as World>⟧.view world)) }
        ensures kept { IfOk result (λ world. world ≡ begun a b room room fail) }
    {
        MemWorld::starting(alloc, a, b, room, room, fail)
    }

    /// The same, but every call after the first `calls` ones fails, and no other is listed.
    pub fn stopping(
        alloc: Global,
        a: Bytes,
        b: Bytes,
        room: u64,
        calls: u64,
    ) -> Result<MemWorld, Memory>
        requires { room ≤ 2 ^ 32 }
        ensures shown { IfOk result (λ world. (⟦<MemWorld as World>⟧.view world).shown ≡ record { a = a; b = b; output = [] }) }
        ensures settled { IfOk result (λ world. IsSettled (⟦<MemWorld as World>⟧.view world)) }
        ensures kept { IfOk result (λ world. world ≡ begun a b room (min room calls) []) }
    {
        MemWorld::starting(alloc, a, b, room, room.min(calls), List::new(alloc))
    }

    fn starting(
        alloc: Global,
        a: Bytes,
        b: Bytes,
        room: u64,
        most: u64,
        fail: List<u64>,
    ) -> Result<MemWorld, Memory>
        requires room { room ≤ 2 ^ 32 }
        requires most { most ≤ room }
        ensures { IfOk result (λ world. world ≡ begun a b room most fail) }
    {
        let count = room as usize;
        let contents = Contents::new(alloc, &a, &b, count)?;
        let notes = Vec::with_capacity(alloc, count)?;
        let pieces = Vec::with_capacity(alloc, count)?;
        Ok(MemWorld {
            first_a: a,
            first_b: b,
            contents,
            notes,
            pieces,
            meter: Meter::new(room, most, fail),
        })
    }

    /// All that was put.
    pub fn output(&self) -> &[u8]
        ensures { output_of (⟦<MemWorld as World>⟧.view self.now) ≡ Some result.now }
    {
        self.contents.output.as_slice()
    }

    /// What a read of the area gives, without a call of the world.
    pub fn bytes(&self, area: Area) -> &[u8]
        ensures { part area (⟦<MemWorld as World>⟧.view self.now).shown ≡ result.now }
    {
        self.contents.bytes(area)
    }

    /// Both areas and the output, as a stop leaves them.
    pub fn left(self, alloc: Global, how: Leave) -> Result<(Bytes, Bytes, Bytes), Memory>
        ensures may_leave { IfOk result (λ left. (⟦<MemWorld as World>⟧.view self).may_leave (record { a = left.0; b = left.1; output = left.2 })) }
        ensures a { IfOk result (λ left. left.0 ≡ left_of how self.now.a) }
        ensures b { IfOk result (λ left. left.1 ≡ left_of how self.now.b) }
        ensures output { IfOk result (λ left. left.2 ≡ self.now.output) }
    {
        self.contents.images(alloc, how)
    }

    /// Writes, or says that the call fails.
    fn write_exact(&mut self, area: Area, at: u64, bytes: &[u8]) -> bool
        requires { at ≤ length (area_of area self.old.now).bytes }
        ensures did { result ≡ not (write_fails self.old at (length bytes.now)) }
        ensures after { self.new ≡ after_write_at self.old area at bytes.now }
        ensures known { IsKnown self.old }
    {
        let before = self.meter.calls;
        let admits = self.meter.admits_piece(bytes);
        if !admits || passes_limit(at, bytes.len() as u64) {
            self.meter.count_area_fault();
            return false;
        }
        self.contents.write(area, at as usize, bytes);
        let note = Note::Write(area, at, bytes.len() as u64);
        let call = Noted { before, note };
        add_note(&mut self.notes, &mut self.pieces, call, bytes);
        true
    }

    /// Cuts, or says that the call fails.
    fn cut_exact(&mut self, area: Area, len: u64) -> bool
        ensures did { result ≡ not (fails_next self.old.meter) }
        ensures after { self.new ≡ after_cut_to self.old area len }
        ensures known { IsKnown self.old }
    {
        let before = self.meter.calls;
        if !self.meter.admits() {
            self.meter.count_area_fault();
            return false;
        }
        self.contents.cut(area, len as usize);
        let note = Note::Cut(area, len);
        let call = Noted { before, note };
        add_note(&mut self.notes, &mut self.pieces, call, &[]);
        true
    }

    /// Syncs, or says that the call fails.
    fn sync_exact(&mut self, area: Area) -> bool
        ensures did { result ≡ not (fails_next self.old.meter) }
        ensures after { self.new ≡ after_sync self.old area }
        ensures known { IsKnown self.old }
    {
        let before = self.meter.calls;
        if !self.meter.admits() {
            self.meter.count_area_fault();
            return false;
        }
        self.contents.sync(area);
        let note = Note::Sync(area);
        let call = Noted { before, note };
        add_note(&mut self.notes, &mut self.pieces, call, &[]);
        true
    }

    /// Puts, or says that the call fails.
    fn put_exact(&mut self, piece: &[u8]) -> bool
        ensures did { result ≡ not (refuses self.old.meter (length piece.now)) }
        ensures after { self.new ≡ after_put self.old piece.now }
        ensures known { IsKnown self.old }
    {
        let before = self.meter.calls;
        if !self.meter.admits_piece(piece) {
            self.meter.count_put_fault();
            return false;
        }
        self.meter.count_put();
        self.contents.put(piece);
        let note = Note::Put(piece.len() as u64);
        let call = Noted { before, note };
        add_note(&mut self.notes, &mut self.pieces, call, piece);
        true
    }

    /// The length of an area, where the call doesn't fail.
    fn len_exact(&mut self, area: Area) -> Option<u64>
        ensures did { is_some result ≡ not (len_fails self.old area) }
        ensures length { IfSome result (λ count. count ≡ length (area_of area self.old.now).bytes) }
        ensures after { self.new ≡ after_read self.old (len_fails self.old area) }
        ensures known { IsKnown self.old }
    {
        let admits = self.meter.admits();
        let len = self.contents.bytes(area).len() as u64;
        if !admits || passes_limit(0, len) {
            self.meter.count_area_fault();
            return None;
        }
        Some(len)
    }

    /// Fills the buffer, or says that the call fails.
    fn read_exact(&mut self, area: Area, at: u64, buf: &mut [u8]) -> bool
        requires { at + length buf.old ≤ length (area_of area self.old.now).bytes }
        ensures did { result ≡ not (fails_next self.old.meter) }
        ensures bytes { IsTrue result → buf.new ≡ take (length buf.old) (drop at (area_of area self.old.now).bytes) }
        ensures after { self.new ≡ after_read self.old (fails_next self.old.meter) }
        ensures known { IsKnown self.old }
    {
        if !self.meter.admits() {
            self.meter.count_area_fault();
            return false;
        }
        let at = at as usize;
        buf.copy_from_slice(&self.contents.bytes(area)[at..at + buf.len()]);
        true
    }
}

impl World for MemWorld {
    ghost use Rattle.pgs_world.specs.MemWorld.{view_of, timed_kept};

    ghost view = { view_of };

    ghost timed = { timed_kept };

    /// Fails exactly as listed, past the last call, and where the area has more than 2^40 bytes.
    fn len(&mut self, area: Area) -> Result<u64, AreaFault>
        ensures fails { is_err result ≡ len_fails self.old area }
        ensures after { self.new ≡ after_read self.old (len_fails self.old area) }

        // What every world says.
        ensures length { IfOk result (λ count. HasLength area count (view_of self.old)) }
        ensures limit { IfOk result (λ count. count ≤ AREA_LIMIT) }
        ensures quiet { IsQuiet (view_of self.old) (view_of self.new) }
        ensures call { IsAreaCall (view_of self.old) result (view_of self.new) }
    {
        self.len_exact(area).ok_or(AreaFault)
    }

    /// Fails exactly as listed and past the last call.
    fn read_at(&mut self, area: Area, at: u64, buf: &mut [u8]) -> Result<(), AreaFault>
        requires { Reaches area (at + length buf.old) (view_of self.old) }
        ensures fails { is_err result ≡ fails_next self.old.meter }
        ensures after { self.new ≡ after_read self.old (fails_next self.old.meter) }

        // What every world says.
        ensures bytes { OnOk result (HasBytes area at (length buf.old) buf.new (view_of self.old)) }
        ensures quiet { IsQuiet (view_of self.old) (view_of self.new) }
        ensures call { IsAreaCall (view_of self.old) result (view_of self.new) }
    {
        area_answer(self.read_exact(area, at, buf))
    }

    /// Fails exactly as listed, past the last call, past the room and past 2^40 bytes, and then writes nothing.
    fn write_at(&mut self, area: Area, at: u64, bytes: &[u8]) -> Result<(), AreaFault>
        requires { Reaches area at (view_of self.old) }
        ensures fails { is_err result ≡ write_fails self.old at (length bytes.now) }
        ensures after { self.new ≡ after_write_at self.old area at bytes.now }

        // What every world says.
        ensures written { OnOk result (IsWrittenOver area at bytes.now (view_of self.old) (view_of self.new)) }
        ensures limit { OnOk result (at + length bytes.now ≤ AREA_LIMIT) }
        ensures beside { IsSameBeside area (view_of self.old).shown (view_of self.new).shown }
        ensures stops { StopsBy (Writes area at (length bytes.now)) (view_of self.old) (view_of self.new) }
        ensures passes { Passes (view_of self.old) (view_of self.new) }
        ensures call { IsAreaCall (view_of self.old) result (view_of self.new) }
    {
        area_answer(self.write_exact(area, at, bytes))
    }

    /// Fails exactly as listed and past the last call, and then cuts nothing.
    fn cut(&mut self, area: Area, len: u64) -> Result<(), AreaFault>
        requires { Reaches area len (view_of self.old) }
        ensures fails { is_err result ≡ fails_next self.old.meter }
        ensures after { self.new ≡ after_cut_to self.old area len }

        // What every world says.
        ensures cut { OnOk result (IsCutTo area len (view_of self.old) (view_of self.new)) }
        ensures beside { IsSameBeside area (view_of self.old).shown (view_of self.new).shown }
        ensures stops { StopsBy (Cuts area len) (view_of self.old) (view_of self.new) }
        ensures passes { Passes (view_of self.old) (view_of self.new) }
        ensures call { IsAreaCall (view_of self.old) result (view_of self.new) }
    {
        area_answer(self.cut_exact(area, len))
    }

    /// Fails exactly as listed and past the last call, and then syncs nothing.
    fn sync(&mut self, area: Area) -> Result<(), AreaFault>
        ensures fails { is_err result ≡ fails_next self.old.meter }
        ensures after { self.new ≡ after_sync self.old area }

        // What every world says.
        ensures synced { OnOk result (IsSynced area (view_of self.new)) }
        ensures quiet { IsQuiet (view_of self.old) (view_of self.new) }
        ensures call { IsAreaCall (view_of self.old) result (view_of self.new) }
    {
        area_answer(self.sync_exact(area))
    }

    /// Fails exactly as listed, past the last call and past the room, and then puts nothing.
    fn put(&mut self, piece: &[u8]) -> Result<(), PutFault>
        ensures fails { is_err result ≡ refuses self.old.meter (length piece.now) }
        ensures after { self.new ≡ after_put self.old piece.now }

        // What every world says.
        ensures whole { OnOk result (Adds (output_of (view_of self.old)) (output_of (view_of self.new)) piece.now) }
        ensures front { OnErr result (AddsFront (output_of (view_of self.old)) (output_of (view_of self.new)) piece.now) }
        ensures stops { StopsBy (PutsFront piece.now) (view_of self.old) (view_of self.new) }
        ensures passes { Passes (view_of self.old) (view_of self.new) }
        ensures call { IsPutCall (view_of self.old) result (view_of self.new) }
    {
        if self.put_exact(piece) {
            Ok(())
        } else {
            Err(PutFault)
        }
    }

    /// By fixed keys.
    fn seed(&self) -> Seed {
        Seed::Fixed
    }
}

/// The answer of a call on an area.
fn area_answer(did: bool) -> Result<(), AreaFault>
    ensures { is_err result ≡ not did }
{
    if did { Ok(()) } else { Err(AreaFault) }
}
