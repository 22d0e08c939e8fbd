ghost use Rattle.std.specs.Prelude.{◌≡◌};
ghost use Rattle.pgs_world_files.specs.Calls.{is_same};

use std::fs::Metadata;
use std::os::unix::fs::MetadataExt;

/// What the system answers of a file: which one it is, whatever names it has, by its device and its number there; whether it has a name
/// left; whether it is a regular file; and its length in bytes.
#[derive(Clone, Copy)]
pub struct Found {
    pub device: u64,
    pub number: u64,
    pub has_name: bool,
    pub is_regular: bool,
    pub len: u64,
}

impl Found {
    /// The system's answer, field by field.
    pub fn of(metadata: &Metadata) -> Found {
        Found {
            device: metadata.dev(),
            number: metadata.ino(),
            has_name: metadata.nlink() > 0,
            is_regular: metadata.is_file(),
            len: metadata.len(),
        }
    }

    /// Whether another answer is of the same file, and this one has a name.
    pub fn is_same(self, other: Found) -> bool
        ensures { result ≡ is_same self other }
    {
        self.has_name
            && other.has_name
            && self.device == other.device
            && self.number == other.number
    }
}
