ghost use Rattle.std.specs.Prelude.{Ok, Err, IfOk, IfErr, is_ok};
ghost use Rattle.std.specs.Io.{ReadsAtMost, WritesAtMost};
ghost use Rattle.std.specs.Path.{path_buf_bytes};
ghost use Rattle.std.specs.Result.{result_err};
ghost use Rattle.pgs_world_files.specs.Calls.{Facts, no_facts};

use crate::Found;
use pgs_world_streams::{SteadyWrite, is_above_standard};
use std::fs::{self, File, OpenOptions, TryLockError};
use std::io;
use std::os::unix::fs::FileExt;
use std::path::PathBuf;
use std::rt::Files;

/// The system's files. Each call is one call of the system, and its answer a fact (`facts`) that code which is generic over systems can't
/// make up.
pub trait System {
    /// An open file.
    type File: SteadyWrite + Drop;

    /// What the calls answered.
    ghost facts: { Facts Self.File } = { no_facts };

    /// Opens the file of a name.
    fn open(&self, how: &OpenOptions, name: &str) -> io::Result<Self::File>
        ensures { facts.opened how.now name.now result };

    /// Which file a name is of.
    fn find(&self, name: &str) -> io::Result<Found>
        ensures { facts.there name.now result };

    /// Which file a name is of, asked behind what was done with an open file.
    fn find_behind(&self, file: &Self::File, name: &str) -> io::Result<Found>
        ensures { facts.named file.now name.now result };

    /// The name of a file without links on its way.
    fn real_path(&self, name: &str) -> io::Result<PathBuf>
        ensures real { IfOk result (λ path. facts.real name.now (Ok (path_buf_bytes path))) }
        ensures failed { IfErr result (λ error. facts.real name.now (Err error)) };

    /// Which file an open one is.
    fn found(&self, file: &Self::File) -> io::Result<Found>
        ensures { facts.found file.now result };

    /// Whether its number is none of the standard streams'.
    fn is_above_standard(&self, file: &Self::File) -> bool
        ensures { facts.above file.now result };

    /// Takes the lock that nobody has beside it, without waiting.
    fn lock_alone(&self, file: &mut Self::File) -> Result<(), TryLockError>
        ensures { facts.alone file.old (result_err result) file.new };

    /// Takes the lock that readers share, without waiting.
    fn lock_shared(&self, file: &mut Self::File) -> Result<(), TryLockError>
        ensures { facts.shared file.old (result_err result) file.new };

    /// Waits until the names in a folder stand on the disk.
    fn sync_names(&self, folder: &Self::File) -> io::Result<()>
        ensures { facts.folder folder.now (result_err result) };

    /// Reads the first bytes, and says how many.
    fn read_head(&self, file: &Self::File, buf: &mut [u8]) -> io::Result<usize>
        ensures bound { ReadsAtMost result buf.new }
        ensures gives { facts.head file.now buf.new result };

    /// The length, in bytes.
    fn length(&self, file: &mut Self::File) -> io::Result<u64>
        ensures { facts.length file.old result file.new };

    /// Reads into the front of the buffer what stands from a place on, and says how many bytes; 0 at the end.
    fn read_at(&self, file: &mut Self::File, at: u64, buf: &mut [u8]) -> io::Result<usize>
        ensures bound { ReadsAtMost result buf.new }
        ensures gives { facts.read file.old at buf.new result file.new };

    /// Writes a front of the bytes from a place on, and says how many it took.
    fn write_at(&self, file: &mut Self::File, at: u64, bytes: &[u8]) -> io::Result<usize>
        ensures bound { WritesAtMost result bytes.now }
        ensures gives { facts.write file.old at bytes.now result file.new };

    /// Makes the file as long as asked.
    fn set_len(&self, file: &mut Self::File, len: u64) -> io::Result<()>
        ensures { facts.cut file.old len (is_ok result) file.new };

    /// Waits until what was written stands on the disk.
    fn sync_data(&self, file: &mut Self::File) -> io::Result<()>
        ensures { facts.sync file.old (result_err result) file.new };
}

/// The calls of std, each one line: std promises of them their counts alone. docs/DECISIONS.md, "The real files", lists them as trusted.
impl<R: Files<File = File> + AllocGlobal> System for R {
    type File = File;

    fn open(&self, how: &OpenOptions, name: &str) -> io::Result<File> {
        how.open(self, name)
    }

    fn find(&self, name: &str) -> io::Result<Found> {
        Ok(Found::of(&fs::metadata(self, name)?))
    }

    fn find_behind(&self, _file: &File, name: &str) -> io::Result<Found> {
        Ok(Found::of(&fs::metadata(self, name)?))
    }

    fn real_path(&self, name: &str) -> io::Result<PathBuf> {
        fs::canonicalize(self, name)
    }

    fn found(&self, file: &File) -> io::Result<Found> {
        Ok(Found::of(&file.metadata()?))
    }

    fn is_above_standard(&self, file: &File) -> bool {
        is_above_standard(file)
    }

    fn lock_alone(&self, file: &mut File) -> Result<(), TryLockError> {
        file.try_lock()
    }

    fn lock_shared(&self, file: &mut File) -> Result<(), TryLockError> {
        file.try_lock_shared()
    }

    fn sync_names(&self, folder: &File) -> io::Result<()> {
        folder.sync_all()
    }

    fn read_head(&self, file: &File, buf: &mut [u8]) -> io::Result<usize> {
        file.read_at(buf, 0)
    }

    fn length(&self, file: &mut File) -> io::Result<u64> {
        Ok(file.metadata()?.len())
    }

    fn read_at(&self, file: &mut File, at: u64, buf: &mut [u8]) -> io::Result<usize> {
        file.read_at(buf, at)
    }

    fn write_at(&self, file: &mut File, at: u64, bytes: &[u8]) -> io::Result<usize> {
        file.write_at(bytes, at)
    }

    fn set_len(&self, file: &mut File, len: u64) -> io::Result<()> {
        file.set_len(len)
    }

    fn sync_data(&self, file: &mut File) -> io::Result<()> {
        file.sync_data()
    }
}
