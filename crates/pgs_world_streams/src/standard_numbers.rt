ghost use Rattle.std.specs.Prelude.{◌↔◌, IsTrue, Result, ⊤, pos, ◌<ℤ◌};
ghost use Rattle.std.specs.Fd.{file_raw_fd};
ghost use Rattle.std.specs.declared.fs.File.{File};
ghost use Rattle.std.specs.declared.io.Error.{Error};
ghost use Rattle.pgs_world_streams.specs.Numbers.{IsInput, IsNext, IsTaken};

use std::fs::{self, File};
use std::io;
use std::os::fd::AsRawFd;
use std::rt::Files;

// A folder that every system has. Opened for reading it can be neither read nor written.
const FOLDER: &str = "/";

/// What opens a folder that every system has, for reading alone. Each call is one call of the system, and its answer a fact that other code
/// can't make up.
pub trait OpensFolder {
    /// What an open of the folder gave.
    ghost folder_gives: { Result File Error → Type 0 } = { λ _. ⊤ };

    /// One open of the folder.
    fn open_folder(&self) -> io::Result<File>
        ensures { folder_gives result };
}

/// The call of std, one line: std promises nothing of it.
impl<R: Files<File = File>> OpensFolder for R {
    fn open_folder(&self) -> io::Result<File> {
        fs::open(self, FOLDER)
    }
}

/// The numbers 0, 1 and 2 of the standard streams, kept from other files.
///
/// The system gives a new file the least number that is free. So where a program was started with a stream closed, its first file
/// would be taken for the stream, and what is put to standard output would be written over it.
#[derive(Drop)]
pub struct StandardNumbers {
    first: Option<File>,
    second: Option<File>,
    third: Option<File>,
}

/// Whether a file's number is none of the standard streams'.
pub fn is_above_standard(file: &File) -> bool
    ensures { IsTrue result ↔ (pos 2 <ℤ file_raw_fd file.now) }
{
    file.as_raw_fd() > 2
}

// Opens the folder, and keeps it where it got the number of a stream.
fn take_one<R: OpensFolder>(rt: &R) -> Option<File>
    ensures { IsTaken R.folder_gives result }
{
    match rt.open_folder() {
        Ok(file) if !is_above_standard(&file) => Some(file),
        _ => None,
    }
}

// The same where one was kept before; else no number of a stream is left.
fn take_next<R: OpensFolder>(rt: &R, before: &Option<File>) -> Option<File>
    ensures { IsNext R.folder_gives before.now result }
{
    match before {
        Some(_) => take_one(rt),
        None => None,
    }
}

impl StandardNumbers {
    /// Takes the numbers of the streams that are closed, each by a folder: a read or a write there is an error. They stay taken as long
    /// as this value is kept. Call it before anything else is opened. Where the folder can't be opened they may be left free: so what a
    /// program writes to is tested by `is_above_standard` besides.
    pub fn take<R: OpensFolder>(rt: &R) -> StandardNumbers
        ensures first { IsTaken R.folder_gives result.first }
        ensures second { IsNext R.folder_gives result.first result.second }
        ensures third { IsNext R.folder_gives result.second result.third }
    {
        let first = take_one(rt);
        let second = take_next(rt, &first);
        let third = take_next(rt, &second);
        StandardNumbers {
            first,
            second,
            third,
        }
    }

    /// Whether standard input was closed: the least number that was taken is 0.
    pub fn input_was_closed(&self) -> bool
        ensures { IsTrue result ↔ IsInput self.now.first }
    {
        match &self.first {
            Some(file) => file.as_raw_fd() == 0,
            None => false,
        }
    }
}
