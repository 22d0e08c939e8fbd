//! A sync that failed: what was written may be lost though the next sync succeeds.

use pgs_world_files::{Handle, NamedFile, StoreFile};
use std::alloc::Global;
use std::cell::Cell;
use std::io::{self, ErrorKind};
use std::rc::Rc;

/// A place and a byte for each write so far.
type Written = Rc<Cell<[Option<(u64, u8)>; 4]>>;

/// A file of 1,025 bytes, each the number of its block, whose first sync fails. It can be written behind that alone, once it is opened for it, and
/// tells what was written.
#[derive(Drop)]
struct Failing {
    syncs: u32,
    named: bool,
    opened: bool,
    written: Written,
}

impl NamedFile for Failing {
    ghost use Rattle.pgs_world_files.specs.Named.{tells_nothing};

    ghost over = { tells_nothing };

    ghost stops = { tells_nothing };

    fn until(&self) -> u64 {
        0
    }

    fn ask_length(&mut self, _moment: u64) -> io::Result<u64> {
        Ok(1025)
    }

    fn read_from(&mut self, _moment: u64, at: u64, buf: &mut [u8]) -> io::Result<usize> {
        match buf.first_mut() {
            Some(place) => {
                *place = match at / 512 {
                    0 => 0,
                    1 => 1,
                    _ => 2,
                };
                Ok(1)
            }
            None => Ok(0),
        }
    }

    fn write_from(&mut self, _moment: u64, at: u64, bytes: &[u8]) -> io::Result<usize> {
        if !self.opened {
            return Err(io::Error::from(ErrorKind::PermissionDenied));
        }
        let mut written = self.written.get();
        let free = written.iter_mut().find(|place| place.is_none());
        let (Some(place), Some(byte)) = (free, bytes.first()) else {
            return Ok(0);
        };
        *place = Some((at, *byte));
        self.written.set(written);
        Ok(1)
    }

    fn cut_to(&mut self, _moment: u64, _len: u64) -> io::Result<()> {
        Ok(())
    }

    fn sync_bytes(&mut self, _moment: u64) -> io::Result<()> {
        self.syncs = self.syncs.saturating_add(1);
        match self.syncs {
            1 => Err(io::Error::from(ErrorKind::StorageFull)),
            _ => Ok(()),
        }
    }

    fn check_name(&mut self, _moment: u64, _len: u64) -> io::Result<()> {
        match self.named {
            true => Ok(()),
            false => Err(io::Error::from(ErrorKind::StaleNetworkFileHandle)),
        }
    }

    fn open_to_write(&mut self, _moment: u64) {
        self.opened = self.syncs == 1;
    }
}

// A file of a store over such a file, which tells there what was written.
fn store_file(written: &Written, named: bool) -> Option<StoreFile<Failing>> {
    let failing = Failing {
        syncs: 0,
        named,
        opened: false,
        written: written.clone().ok()?,
    };
    Some(StoreFile::new(failing, 1025))
}

/// Puts whether each of two syncs fails of a file that is found by its name, or isn't, and what was written between.
pub fn put_syncs(out: &mut String, alloc: Global, named: bool) -> Option<()> {
    let written = Rc::new(alloc, Cell::new([None; 4])).ok()?;
    let mut store = store_file(&written, named)?;
    let first = store.sync_once(0).is_err();
    let second = store.sync_once(1).is_err();
    write!(out, "{first}, {second}, {:?}", written.get()).ok()
}
