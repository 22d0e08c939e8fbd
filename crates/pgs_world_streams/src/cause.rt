use std::io::{Error, ErrorKind};

// What Linux answers where a number is no open file, or one that isn't open for this: no kind of std's is its own.
const NOT_OPEN: i32 = 9;

/// Why a call on a stream or a file failed, as far as the system tells. docs/FORMATS.md has the texts.
#[derive(Clone, Copy, Debug, PartialEq, Eq)]
pub enum Cause {
    /// It isn't open, or not for this.
    NotOpen,
    /// It is a folder.
    Folder,
    /// The file, or a folder on the way to it, isn't there.
    Absent,
    /// The user hasn't the right.
    Denied,
    /// Its file system takes no writes.
    ReadOnly,
    /// There is no space left on the disk, or in the user's share of it.
    NoSpace,
    /// It would be larger than the system allows.
    TooLarge,
    /// Nobody reads it any more.
    Unread,
    /// It would have to be waited for, and it is open not to wait.
    NotReady,
    /// Any other cause.
    Failed,
}

// The kinds of errors that have a cause of their own.
const CAUSES: [(ErrorKind, Cause); 11] = [
    (ErrorKind::IsADirectory, Cause::Folder),
    (ErrorKind::NotFound, Cause::Absent),
    (ErrorKind::NotADirectory, Cause::Absent),
    (ErrorKind::PermissionDenied, Cause::Denied),
    (ErrorKind::ReadOnlyFilesystem, Cause::ReadOnly),
    (ErrorKind::StorageFull, Cause::NoSpace),
    (ErrorKind::QuotaExceeded, Cause::NoSpace),
    (ErrorKind::FileTooLarge, Cause::TooLarge),
    (ErrorKind::BrokenPipe, Cause::Unread),
    (ErrorKind::WouldBlock, Cause::NotReady),
    (ErrorKind::WriteZero, Cause::NoSpace),
];

impl Cause {
    /// The cause that an error of a call tells.
    pub fn of(error: &Error) -> Cause {
        if error.raw_os_error() == Some(NOT_OPEN) {
            return Cause::NotOpen;
        }
        let kind = error.kind();
        match CAUSES.iter().find(|row| row.0 == kind) {
            Some(row) => row.1,
            None => Cause::Failed,
        }
    }

    /// The text of the cause, behind the name of the stream or the file and a colon.
    pub fn text(self) -> &'static str {
        match self {
            Cause::NotOpen => "is not open",
            Cause::Folder => "is a folder",
            Cause::Absent => "no such file or folder",
            Cause::Denied => "permission denied",
            Cause::ReadOnly => "the file system is read-only",
            Cause::NoSpace => "no space left",
            Cause::TooLarge => "reaches the limit on a file's size",
            Cause::Unread => "nobody reads it",
            Cause::NotReady => "is not ready and does not wait",
            Cause::Failed => "input or output failed",
        }
    }
}
