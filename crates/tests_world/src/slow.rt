//! Pieces that are written whole, by writers that take a byte at a time, are interrupted and fail.

ghost use Rattle.std.specs.Prelude.{refl};

use pgs_base::Seed;
use pgs_world::World;
use pgs_world_files::{AreaFiles, FileWorld, StoreFile, SystemFile};
use pgs_world_streams::{SteadyWrite, write_whole};
use std::alloc::Global;
use std::io::{self, ErrorKind, Write};

/// Takes one byte of a write. It is interrupted at each write from the second to the last of these, counted from 1, and fails at one.
#[derive(Drop)]
struct Slow {
    kept: Vec<u8>,
    writes: u32,
    interrupted_to: u32,
    fails_at: u32,
}

impl Slow {
    fn new(alloc: Global, interrupted_to: u32, fails_at: u32) -> Slow {
        Slow {
            kept: Vec::new(alloc),
            writes: 0,
            interrupted_to,
            fails_at,
        }
    }
}

impl Write for Slow {
    fn write(&mut self, buf: &[u8]) -> io::Result<usize> {
        self.writes = self.writes.saturating_add(1);
        if 2 <= self.writes && self.writes <= self.interrupted_to {
            return Err(io::Error::from(ErrorKind::Interrupted));
        }
        if self.writes == self.fails_at {
            return Err(io::Error::from(ErrorKind::BrokenPipe));
        }
        let Some(byte) = buf.first() else {
            return Ok(0);
        };
        self.kept.push(*byte)?;
        Ok(1)
    }

    fn flush(&mut self) -> io::Result<()> {
        Ok(())
    }
}

impl SteadyWrite for Slow {
    ghost use Rattle.pgs_world_streams.specs.Past.{tells_no_stops};

    ghost steady = { λ _. refl };

    ghost stops = { tells_no_stops };

    fn until(&self) -> u64 {
        0
    }

    fn shown(&self) -> Option<&[u8]> {
        None
    }

    fn write_once(&mut self, _moment: u64, bytes: &[u8]) -> io::Result<usize> {
        self.write(bytes)
    }

    fn flush_once(&mut self, _moment: u64) -> io::Result<()> {
        self.flush()
    }
}

/// Puts whether two bytes aren't written where the writes up to this one are interrupted, and how many writes were made.
pub fn put_write(out: &mut String, alloc: Global, interrupted_to: u64) -> Option<()> {
    let mut writer = Slow::new(alloc, interrupted_to.min(100_000) as u32, 0);
    let fails = write_whole(&mut writer, 0, b"ab").is_err();
    write!(out, "{fails}, {}", writer.writes).ok()
}

type NoAreas<'a> = AreaFiles<StoreFile<SystemFile<'a, HostRuntime>>>;

/// Puts what three puts answer where the second write is interrupted and the fifth fails, and what was written.
pub fn put_puts(out: &mut String, rt: &HostRuntime) -> Option<()> {
    let areas: NoAreas<'_> = AreaFiles::absent();
    let mut world = FileWorld::new(areas, Slow::new(rt.alloc(), 2, 5), Seed::Fixed);
    for piece in ["ab", "cd", "e"] {
        write!(out, "{:?}, ", world.put(piece.as_bytes())).ok()?;
    }
    let writer = world.into_writer();
    out.push_str(str::from_utf8(writer.kept.as_slice()).ok()?)
        .ok()
}
