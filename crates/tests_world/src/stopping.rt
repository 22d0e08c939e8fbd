//! A file and an output in memory that tell what a stop may leave: so what the world over files says of stops is said of something. Each
//! change is made whole, at once, and the states before it are kept, by the moments of the calls.

ghost use Rattle.std.specs.Prelude.{◌≡◌, ◌+◌, ◌≤◌, ◌++◌, length, take, IfOk, OnOk, OnErr};
ghost use Rattle.pgs_world.specs.Disk.{written_over};
ghost use Rattle.pgs_world.specs.Moment.{IsSettled};

use pgs_base::Seed;
use pgs_world::World;
use pgs_world_files::{AreaFile, AreaFiles, FileWorld, Handle, NamedFile, StoreFile};
use pgs_world_streams::SteadyWrite;
use std::alloc::{AllocError, Global};
use std::io::{self, ErrorKind, Write};

/// A state before a call that changed it.
#[derive(Drop)]
pub struct Was {
    until: u64,
    bytes: Vec<u8>,
}

/// Bytes, a moment behind the call that made them, and the states before, the newest first.
#[derive(Drop)]
pub struct Kept {
    bytes: Vec<u8>,
    until: u64,
    past: Vec<Was>,
}

// The bytes with a piece written over them at a place.
fn written(bytes: &Vec<u8>, at: usize, piece: &[u8]) -> Result<Vec<u8>, AllocError>
    requires { at ≤ length bytes.now.items }
    ensures { IfOk result (λ new. new.items ≡ written_over bytes.now.items at piece.now) }
{
    let mut new = bytes.clone()?;
    new.truncate(at);
    new.extend_from_slice(piece)?;
    let end = at + piece.len();
    if end < bytes.len() {
        new.extend_from_slice(&bytes[end..])?;
    }
    Ok(new)
}

// The bytes with a piece behind them.
fn longer(bytes: &Vec<u8>, piece: &[u8]) -> Result<Vec<u8>, AllocError>
    ensures { IfOk result (λ new. new.items ≡ bytes.now.items ++ piece.now) }
{
    let mut new = bytes.clone()?;
    new.extend_from_slice(piece)?;
    Ok(new)
}

// The same bytes.
fn copy_of(bytes: &Vec<u8>) -> Result<Vec<u8>, AllocError>
    ensures { IfOk result (λ new. new.items ≡ bytes.now.items) }
{
    Ok(bytes.clone()?)
}

// The first bytes, up to a length.
fn front_of(bytes: &Vec<u8>, len: usize) -> Result<Vec<u8>, AllocError>
    ensures { IfOk result (λ new. new.items ≡ take len bytes.now.items) }
{
    let mut new = bytes.clone()?;
    new.truncate(len);
    Ok(new)
}

// A moment behind this one.
fn behind(moment: u64) -> io::Result<u64>
    ensures { IfOk result (λ until. until ≡ moment + 1) }
{
    match moment.checked_add(1) {
        Some(until) => Ok(until),
        None => Err(io::Error::from(ErrorKind::InvalidInput)),
    }
}

impl Kept {
    ghost use Rattle.tests_world.specs.Stopping.{IsStill, IsChanged};

    /// No bytes yet.
    pub fn new(alloc: Global) -> Kept {
        Kept {
            bytes: Vec::new(alloc),
            until: 0,
            past: Vec::new(alloc),
        }
    }

    // A call that begins at a moment makes the bytes these.
    fn change(&mut self, moment: u64, bytes: Vec<u8>) -> io::Result<()>
        ensures changed { OnOk result (IsChanged moment bytes.items self.old self.new) }
        ensures still { OnErr result (IsStill self.old self.new) }
    {
        let until = behind(moment)?;
        let was = Was {
            until: self.until,
            bytes: copy_of(&self.bytes)?,
        };
        self.past.insert(0, was)?;
        self.bytes = bytes;
        self.until = until;
        Ok(())
    }

    // Writes at a place within the bytes, or at their end.
    fn write_within(&mut self, moment: u64, at: usize, piece: &[u8]) -> io::Result<()>
        requires { at ≤ length self.old.bytes.items }
        ensures changed { OnOk result (IsChanged moment (written_over self.old.bytes.items at piece.now) self.old self.new) }
        ensures still { OnErr result (IsStill self.old self.new) }
    {
        let bytes = written(&self.bytes, at, piece)?;
        self.change(moment, bytes)
    }

    // Writes behind the bytes.
    fn add(&mut self, moment: u64, piece: &[u8]) -> io::Result<()>
        ensures changed { OnOk result (IsChanged moment (self.old.bytes.items ++ piece.now) self.old self.new) }
        ensures still { OnErr result (IsStill self.old self.new) }
    {
        let bytes = longer(&self.bytes, piece)?;
        self.change(moment, bytes)
    }

    // The first bytes, up to a length within them.
    fn cut_within(&mut self, moment: u64, len: usize) -> io::Result<()>
        ensures changed { OnOk result (IsChanged moment (take len self.old.bytes.items) self.old self.new) }
        ensures still { OnErr result (IsStill self.old self.new) }
    {
        let bytes = front_of(&self.bytes, len)?;
        self.change(moment, bytes)
    }
}

impl Handle for Kept {
    ghost use Rattle.std.specs.Prelude.{true};
    ghost use Rattle.tests_world.specs.Stopping.{past_of, LengthOf, ReadOf, WriteOf, CutOf, SyncOf};
    ghost use Rattle.tests_world.specs.StoppingLaws.{kept_over, kept_stops};

    ghost tells = { true };

    ghost contents = { λ kept. kept.bytes.items };

    ghost tells_stops = { true };

    ghost past = { past_of };

    ghost length_gives = { LengthOf };

    ghost read_gives = { ReadOf };

    ghost write_gives = { WriteOf };

    ghost cut_gives = { CutOf };

    ghost sync_gives = { SyncOf };

    ghost over = { λ tells t. kept_over t };

    ghost stops = { λ tells. kept_stops };

    fn until(&self) -> u64 {
        self.until
    }

    fn length_once(&mut self, _moment: u64) -> io::Result<u64> {
        Ok(self.bytes.len() as u64)
    }

    /// One byte at a time.
    fn read_once(&mut self, _moment: u64, at: u64, buf: &mut [u8]) -> io::Result<usize> {
        if at >= self.bytes.len() as u64 || buf.is_empty() {
            return Ok(0);
        }
        buf[0] = self.bytes[at as usize];
        Ok(1)
    }

    fn write_once(&mut self, moment: u64, at: u64, bytes: &[u8]) -> io::Result<usize> {
        if at > self.bytes.len() as u64 {
            return Err(io::Error::from(ErrorKind::InvalidInput));
        }
        match self.write_within(moment, at as usize, bytes) {
            Ok(()) => Ok(bytes.len()),
            Err(error) => Err(error),
        }
    }

    fn cut_once(&mut self, moment: u64, len: u64) -> io::Result<()> {
        if len > self.bytes.len() as u64 {
            return Err(io::Error::from(ErrorKind::InvalidInput));
        }
        self.cut_within(moment, len as usize)
    }

    fn sync_once(&mut self, _moment: u64) -> io::Result<()> {
        Ok(())
    }
}

/// The same as the file of a name, which always is this one.
impl NamedFile for Kept {
    ghost use Rattle.std.specs.Prelude.{true};
    ghost use Rattle.tests_world.specs.Stopping.{past_of, LengthOf, ReadOf, WriteOf, CutOf, SyncOf, NameOf, ReopenOf};
    ghost use Rattle.tests_world.specs.StoppingLaws.{named_over, named_stops};

    ghost tells = { true };

    ghost contents = { λ kept. kept.bytes.items };

    ghost tells_stops = { true };

    ghost past = { past_of };

    ghost length_gives = { LengthOf };

    ghost read_gives = { ReadOf };

    ghost write_gives = { WriteOf };

    ghost cut_gives = { CutOf };

    ghost sync_gives = { SyncOf };

    ghost name_gives = { NameOf };

    ghost reopen_gives = { ReopenOf };

    ghost over = { λ tells t. named_over t };

    ghost stops = { λ tells. named_stops };

    fn until(&self) -> u64 {
        self.until
    }

    fn ask_length(&mut self, moment: u64) -> io::Result<u64> {
        self.length_once(moment)
    }

    fn read_from(&mut self, moment: u64, at: u64, buf: &mut [u8]) -> io::Result<usize> {
        self.read_once(moment, at, buf)
    }

    fn write_from(&mut self, moment: u64, at: u64, bytes: &[u8]) -> io::Result<usize> {
        Handle::write_once(self, moment, at, bytes)
    }

    fn cut_to(&mut self, moment: u64, len: u64) -> io::Result<()> {
        self.cut_once(moment, len)
    }

    fn sync_bytes(&mut self, moment: u64) -> io::Result<()> {
        self.sync_once(moment)
    }

    fn check_name(&mut self, _moment: u64, _len: u64) -> io::Result<()> {
        Ok(())
    }

    fn open_to_write(&mut self, _moment: u64) {}
}

impl Write for Kept {
    ghost use Rattle.tests_world.specs.Stopping.{told_of};

    ghost contents = { told_of };

    fn write(&mut self, buf: &[u8]) -> io::Result<usize> {
        match self.add(self.until, buf) {
            Ok(()) => Ok(buf.len()),
            Err(error) => Err(error),
        }
    }

    fn flush(&mut self) -> io::Result<()> {
        Ok(())
    }
}

impl SteadyWrite for Kept {
    ghost use Rattle.std.specs.Prelude.{true, refl};
    ghost use Rattle.tests_world.specs.Stopping.{past_of, AddOf, SyncOf};
    ghost use Rattle.tests_world.specs.StoppingLaws.{output_stops};

    ghost tells = { true };

    ghost tells_stops = { true };

    ghost past = { past_of };

    ghost write_gives = { AddOf };

    ghost flush_gives = { SyncOf };

    ghost steady = { λ _. refl };

    ghost stops = { λ tells. output_stops };

    fn until(&self) -> u64 {
        self.until
    }

    fn shown(&self) -> Option<&[u8]> {
        Some(self.bytes.as_slice())
    }

    fn write_once(&mut self, moment: u64, bytes: &[u8]) -> io::Result<usize> {
        match self.add(moment, bytes) {
            Ok(()) => Ok(bytes.len()),
            Err(error) => Err(error),
        }
    }

    fn flush_once(&mut self, _moment: u64) -> io::Result<()> {
        Ok(())
    }
}

/// A world over two such files and such an output, without bytes. What is said of stops holds of it, and nothing is pending.
pub fn kept_world(alloc: Global) -> FileWorld<Kept, Kept>
    ensures settled { IsSettled (⟦<FileWorld<Kept, Kept> as World>⟧.view result) }
{
    let a = AreaFile::new(Kept::new(alloc));
    let b = AreaFile::new(Kept::new(alloc));
    FileWorld::new(AreaFiles::new(a, b), Kept::new(alloc), Seed::Fixed)
}

/// The same over two files of a store.
pub fn kept_store_world(alloc: Global) -> FileWorld<Kept, StoreFile<Kept>>
    ensures settled { IsSettled (⟦<FileWorld<Kept, StoreFile<Kept>> as World>⟧.view result) }
{
    let a = AreaFile::new(StoreFile::new(Kept::new(alloc), 0));
    let b = AreaFile::new(StoreFile::new(Kept::new(alloc), 0));
    FileWorld::new(AreaFiles::new(a, b), Kept::new(alloc), Seed::Fixed)
}
