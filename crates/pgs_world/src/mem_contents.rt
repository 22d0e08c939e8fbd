ghost use Rattle.std.specs.Prelude.{◌≡◌, ℕ, ◌+◌, ◌≤◌, ◌++◌, ◌∷◌, [], length, IfOk, vec_len, vec_capacity};
ghost use Rattle.pgs_world.specs.declared.area.Area.{Area};
ghost use Rattle.pgs_world.specs.Held.{IsWell, after_write, after_cut, on_disk};
ghost use Rattle.pgs_world.specs.Left.{left_of};
ghost use Rattle.pgs_world.specs.MemArea.{held_of, area_in, state_of, size_in, HasRoom};
ghost use Rattle.pgs_world.specs.MemWorld.{Leaves, with_area, with_output};

use crate::mem_area::MemArea;
use crate::{Area, Leave};
use pgs_base::{Bytes, List, Memory};
use std::alloc::Global;

/// A call that changed a world in memory, with the number of bytes that it was handed.
#[derive(Clone, Copy)]
pub(crate) enum Note {
    Write(Area, u64, u64),
    Cut(Area, u64),
    Sync(Area),
    Put(u64),
}

/// The same, with the number of calls before it.
#[derive(Clone, Copy)]
pub(crate) struct Noted {
    pub(crate) before: u64,
    pub(crate) note: Note,
}

/// The two areas of a world in memory, and all that was put.
#[derive(Drop)]
pub(crate) struct Contents {
    pub(crate) a: MemArea,
    pub(crate) b: MemArea,
    pub(crate) output: Vec<u8>,
}

impl Contents {
    /// These areas, all of them on the disk, and no output, with memory for `room` bytes more each.
    pub(crate) fn new(alloc: Global, a: &Bytes, b: &Bytes, room: usize) -> Result<Contents, Memory>
        ensures state { IfOk result (λ contents. state_of contents ≡ record { a = on_disk a.now; b = on_disk b.now; output = [] }) }
        ensures areas_room { IfOk result (λ contents. (area : Area) → HasRoom (size_in area (length a.now) (length b.now) + room) (area_in area contents)) }
        ensures output_room { IfOk result (λ contents. room ≤ vec_capacity contents.output) }
    {
        let size_a = a.len().checked_add(room).ok_or(Memory)?;
        let size_b = b.len().checked_add(room).ok_or(Memory)?;
        Ok(Contents {
            a: MemArea::new(alloc, a.as_slice(), size_a)?,
            b: MemArea::new(alloc, b.as_slice(), size_b)?,
            output: Vec::with_capacity(alloc, room)?,
        })
    }

    /// What a read of the area gives.
    pub(crate) fn bytes(&self, area: Area) -> &[u8]
        ensures { result.now ≡ (held_of (area_in area self.now)).bytes }
    {
        match area {
            Area::A => &self.a.bytes,
            Area::B => &self.b.bytes,
        }
    }

    pub(crate) fn write(&mut self, area: Area, at: usize, piece: &[u8])
        requires within { at ≤ length (area_in area self.old).bytes.items }
        requires room { at + length piece.now ≤ vec_capacity (area_in area self.old).bytes }
        ensures state { state_of self.new ≡ with_area area (after_write (held_of (area_in area self.old)) at piece.now) (state_of self.old) }
        ensures room { (which : Area) (size : ℕ) → HasRoom size (area_in which self.old) → HasRoom size (area_in which self.new) }
        ensures output { self.new.output ≡ self.old.output }
    {
        match area {
            Area::A => self.a.write(at, piece),
            Area::B => self.b.write(at, piece),
        }
    }

    pub(crate) fn cut(&mut self, area: Area, len: usize)
        ensures state { state_of self.new ≡ with_area area (after_cut (held_of (area_in area self.old)) len) (state_of self.old) }
        ensures room { (which : Area) (size : ℕ) → HasRoom size (area_in which self.old) → HasRoom size (area_in which self.new) }
        ensures output { self.new.output ≡ self.old.output }
    {
        match area {
            Area::A => self.a.cut(len),
            Area::B => self.b.cut(len),
        }
    }

    pub(crate) fn sync(&mut self, area: Area)
        requires { HasRoom (length (area_in area self.old).bytes.items) (area_in area self.old) }
        ensures state { state_of self.new ≡ with_area area (on_disk (held_of (area_in area self.old)).bytes) (state_of self.old) }
        ensures room { (which : Area) (size : ℕ) → HasRoom size (area_in which self.old) → HasRoom size (area_in which self.new) }
        ensures output { self.new.output ≡ self.old.output }
    {
        match area {
            Area::A => self.a.sync(),
            Area::B => self.b.sync(),
        }
    }

    pub(crate) fn put(&mut self, piece: &[u8])
        requires { length self.old.output.items + length piece.now ≤ vec_capacity self.old.output }
        ensures state { state_of self.new ≡ with_output (self.old.output.items ++ piece.now) (state_of self.old) }
        ensures room { (which : Area) (size : ℕ) → HasRoom size (area_in which self.old) → HasRoom size (area_in which self.new) }
        ensures output { vec_capacity self.old.output ≤ vec_capacity self.new.output }
    {
        self.output.extend_from_slice(piece).unwrap();
    }

    /// Both areas and the output, as a stop leaves them.
    pub(crate) fn images(&self, alloc: Global, how: Leave) -> Result<(Bytes, Bytes, Bytes), Memory>
        requires { (area : Area) → IsWell (held_of (area_in area self.now)) }
        ensures may_leave { IfOk result (λ left. Leaves (state_of self.now) (record { a = left.0; b = left.1; output = left.2 })) }
        ensures a { IfOk result (λ left. left.0 ≡ left_of how (held_of self.now.a)) }
        ensures b { IfOk result (λ left. left.1 ≡ left_of how (held_of self.now.b)) }
        ensures output { IfOk result (λ left. left.2 ≡ self.now.output.items) }
    {
        let a = self.a.left(alloc, how)?;
        let b = self.b.left(alloc, how)?;
        let output = List::from_slice(alloc, &self.output)?;
        Ok((a, b, output))
    }
}

/// Adds a call and its piece to those that changed the world.
pub(crate) fn add_note(notes: &mut Vec<Noted>, pieces: &mut Vec<u8>, call: Noted, piece: &[u8])
    requires notes { vec_len notes.old + 1 ≤ vec_capacity notes.old }
    requires pieces { vec_len pieces.old + length piece.now ≤ vec_capacity pieces.old }
    ensures notes { notes.new.items ≡ notes.old.items ++ call ∷ [] }
    ensures pieces { pieces.new.items ≡ pieces.old.items ++ piece.now }
    ensures notes_room { vec_capacity notes.old ≤ vec_capacity notes.new }
    ensures pieces_room { vec_capacity pieces.old ≤ vec_capacity pieces.new }
{
    notes.push(call).unwrap();
    pieces.extend_from_slice(piece).unwrap();
}
