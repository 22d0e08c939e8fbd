ghost use Rattle.std.specs.Prelude.{◌≡◌, ℕ, ◌+◌, ◌-◌, ◌≤◌, ◌++◌, length, map, replicate, unwrap_or, IfOk, vec_capacity};
ghost use Rattle.pgs_world.specs.Disk.{written_over};
ghost use Rattle.pgs_world.specs.Held.{blotted, after_write, after_cut, all_kept, on_disk, filled};
ghost use Rattle.pgs_world.specs.Left.{left_of};
ghost use Rattle.pgs_world.specs.MemArea.{held_of, HasRoom};

use crate::Leave;
use pgs_base::{Bytes, List, Memory};
use std::alloc::Global;

/// An area in memory, with what a stop may leave of it. No change of it asks for memory.
#[derive(Drop)]
pub(crate) struct MemArea {
    /// What a read gives.
    pub(crate) bytes: Vec<u8>,
    /// The bytes at the last sync.
    pub(crate) synced: Vec<u8>,
    /// Below the least length since the sync: the byte that was there, or none where it was written since.
    pub(crate) kept: Vec<Option<u8>>,
    /// The greatest length since the sync.
    pub(crate) greatest: usize,
    /// Below this place nothing was changed since the sync, so that a sync looks at no more than what changed.
    pub(crate) low: usize,
}

impl MemArea {
    /// An area with these bytes, all of them on the disk, and memory for `size` bytes.
    pub(crate) fn new(alloc: Global, bytes: &[u8], size: usize) -> Result<MemArea, Memory>
        requires { length bytes.now ≤ size }
        ensures held { IfOk result (λ area. held_of area ≡ on_disk bytes.now) }
        ensures room { IfOk result (HasRoom size) }
    {
        let mut all = Vec::with_capacity(alloc, size)?;
        all.extend_from_slice(bytes)?;
        let mut area = MemArea {
            bytes: all,
            synced: Vec::with_capacity(alloc, size)?,
            kept: Vec::with_capacity(alloc, size)?,
            greatest: 0,
            low: 0,
        };
        area.sync();
        Ok(area)
    }

    /// Writes over what is there, and past the end.
    pub(crate) fn write(&mut self, at: usize, piece: &[u8])
        requires within { at ≤ length self.old.bytes.items }
        requires room { at + length piece.now ≤ vec_capacity self.old.bytes }
        ensures held { held_of self.new ≡ after_write (held_of self.old) at piece.now }
        ensures room { (size : ℕ) → HasRoom size self.old → HasRoom size self.new }
    {
        let end = at + piece.len();
        write_over(&mut self.bytes, at, piece);
        blot(&mut self.kept, at, piece.len());
        self.greatest = self.greatest.max(end);
        self.low = self.low.min(at);
    }

    /// Cuts to a length.
    pub(crate) fn cut(&mut self, len: usize)
        ensures held { held_of self.new ≡ after_cut (held_of self.old) len }
        ensures room { (size : ℕ) → HasRoom size self.old → HasRoom size self.new }
    {
        self.bytes.truncate(len);
        self.kept.truncate(len);
        self.low = self.low.min(len);
    }

    /// Takes what a read gives for the bytes on the disk.
    pub(crate) fn sync(&mut self)
        requires { HasRoom (length self.old.bytes.items) self.old }
        ensures held { held_of self.new ≡ on_disk self.old.bytes.items }
        ensures room { (size : ℕ) → HasRoom size self.old → HasRoom size self.new }
    {
        let changed = &self.bytes[self.low..];
        self.synced.truncate(self.low);
        self.synced.extend_from_slice(changed).unwrap();
        self.kept.truncate(self.low);
        keep_all(&mut self.kept, changed);
        self.low = self.bytes.len();
        self.greatest = self.bytes.len();
    }
}

impl MemArea {
    /// The image that a stop leaves.
    pub(crate) fn left(&self, alloc: Global, how: Leave) -> Result<Bytes, Memory>
        requires { length self.now.kept.items ≤ length self.now.synced.items }
        ensures { IfOk result (λ bytes. bytes ≡ left_of how (held_of self.now)) }
    {
        match how {
            Leave::Old => List::from_slice(alloc, &self.synced[..self.kept.len()]),
            Leave::New => List::from_slice(alloc, &self.bytes),
            Leave::Fill(byte) => self.filled_image(alloc, byte),
        }
    }

    /// The image of the greatest length with this byte wherever a stop may leave any.
    fn filled_image(&self, alloc: Global, byte: u8) -> Result<Bytes, Memory>
        ensures { IfOk result (λ bytes. bytes ≡ filled byte self.now.kept.items self.now.greatest) }
    {
        let front = kept_or(alloc, &self.kept, byte)?;
        let image = padded_image(front, self.greatest, byte)?;
        Ok(List::from_vec(image))
    }
}

/// The kept bytes, and this one where there is none.
fn kept_or(alloc: Global, kept: &[Option<u8>], byte: u8) -> Result<Vec<u8>, Memory>
    ensures { IfOk result (λ image. image.items ≡ map (λ k. unwrap_or k byte) kept.now) }
{
    let mut image = Vec::with_capacity(alloc, kept.len())?;
    for k in kept {
        image.push(k.unwrap_or(byte))?;
    }
    Ok(image)
}

/// The image, and behind it this byte up to a length.
fn padded_image(image: Vec<u8>, len: usize, byte: u8) -> Result<Vec<u8>, Memory>
    ensures { IfOk result (λ all. all.items ≡ image.items ++ replicate (len - length image.items) byte) }
{
    let mut all = image;
    let gap = len.saturating_sub(all.len());
    for place in 0..gap {
        all.push(byte)?;
    }
    Ok(all)
}

/// Writes a piece over what is there, and past the end.
fn write_over(bytes: &mut Vec<u8>, at: usize, piece: &[u8])
    requires within { at ≤ length bytes.old.items }
    requires room { at + length piece.now ≤ vec_capacity bytes.old }
    ensures written { bytes.new.items ≡ written_over bytes.old.items at piece.now }
    ensures capacity { vec_capacity bytes.old ≤ vec_capacity bytes.new }
{
    let end = at + piece.len();
    if end < bytes.len() {
        bytes[at..end].copy_from_slice(piece);
    } else {
        bytes.truncate(at);
        bytes.extend_from_slice(piece).unwrap();
    }
}

/// Forgets the kept bytes in a range.
fn blot(kept: &mut Vec<Option<u8>>, at: usize, count: usize)
    ensures blotted { kept.new.items ≡ blotted at count kept.old.items }
    ensures capacity { vec_capacity kept.old ≤ vec_capacity kept.new }
{
    let reached = count.min(kept.len().saturating_sub(at));
    for done in 0..reached {
        kept[at + done] = None;
    }
}

/// Keeps these bytes behind those that are kept.
fn keep_all(kept: &mut Vec<Option<u8>>, bytes: &[u8])
    requires { length kept.old.items + length bytes.now ≤ vec_capacity kept.old }
    ensures kept { kept.new.items ≡ kept.old.items ++ all_kept bytes.now }
    ensures capacity { vec_capacity kept.old ≤ vec_capacity kept.new }
{
    for byte in bytes {
        kept.push(Some(*byte)).unwrap();
    }
}
