//! A reader as a source: bytes, faults and their cause.

ghost use Rattle.std.specs.Prelude.{refl};

use pgs_world::Source;
use pgs_world_streams::{StdinSource, SteadyRead};
use std::io::{self, Read};

/// Gives one byte, then an error, then another byte and the end.
#[derive(Drop)]
struct Flaky {
    reads: u32,
}

impl Read for Flaky {
    fn read(&mut self, buf: &mut [u8]) -> io::Result<usize> {
        self.reads = self.reads.saturating_add(1);
        match (self.reads, buf.first_mut()) {
            (2, _) => Err(io::Error::from(io::ErrorKind::BrokenPipe)),
            (1 | 3, Some(place)) => {
                *place = b'x';
                Ok(1)
            }
            _ => Ok(0),
        }
    }
}

impl SteadyRead for Flaky {
    ghost steady = { λ _. refl };

    fn read_once(&mut self, buf: &mut [u8]) -> io::Result<usize> {
        self.read(buf)
    }
}

/// Puts what four reads answer, and the cause that is kept then.
pub fn put_reads(out: &mut String) -> Option<()> {
    let mut source = StdinSource::new(Flaky { reads: 0 });
    for _ in 0..4 {
        write!(out, "{:?}, ", source.read(&mut [0; 4])).ok()?;
    }
    write!(out, "{:?}", source.cause()).ok()
}
