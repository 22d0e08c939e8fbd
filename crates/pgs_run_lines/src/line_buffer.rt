ghost use Rattle.std.specs.Prelude.{◌≡◌, ◌≤◌, ◌+◌, ◌++◌, [], length, OnOk, OnErr};
ghost use Rattle.pgs_run_lines.specs.Input.{front_of};
ghost use Rattle.pgs_run_lines.specs.declared.budget.TheConstants.{BUDGET};

use pgs_base::Memory;
use std::alloc::Global;
use std::marker::Model;

/// The front of a line of any length: as many bytes as a limit, and one more. So a line that is too long is
/// known to be so, and takes no more memory.
#[derive(Drop)]
pub struct LineBuffer {
    bytes: Vec<u8>,
    limit: usize,
}

impl Model for LineBuffer {
    ghost use Rattle.std.specs.Prelude.{◌≤◌, ◌+◌, length};
    ghost use Rattle.pgs_run_lines.specs.Buffer.{Kept};
    ghost use Rattle.pgs_run_lines.specs.declared.budget.TheConstants.{BUDGET};

    ghost Value = { Kept };

    ghost view = { λ buffer. record { bytes = buffer.bytes.items; limit = buffer.limit } };

    ghost invariant = { λ buffer. (length buffer.bytes.items ≤ buffer.limit + 1) × (buffer.limit ≤ BUDGET) };
}

impl LineBuffer {
    /// No bytes; takes no memory. The limit is at most `BUDGET`.
    pub fn new(alloc: Global, limit: usize) -> LineBuffer
        requires { limit ≤ BUDGET }
        ensures bytes { result.bytes ≡ [] }
        ensures limit { result.limit ≡ limit }
    {
        LineBuffer {
            bytes: Vec::new(alloc),
            limit,
        }
    }

    /// Puts bytes at the end, as far as there is room. After `Memory` nothing was put.
    pub fn push_all(&mut self, more: &[u8]) -> Result<(), Memory>
        ensures ok { OnOk result (self.new.bytes ≡ front_of self.old.limit (self.old.bytes ++ more.now)) }
        ensures err { OnErr result (self.new.bytes ≡ self.old.bytes) }
        ensures limit { self.new.limit ≡ self.old.limit }
    {
        let room = self.limit + 1 - self.bytes.len();
        let taken = room.min(more.len());
        self.bytes.extend_from_slice(&more[..taken])?;
        Ok(())
    }

    /// Takes out all bytes.
    pub fn clear(&mut self)
        ensures bytes { self.new.bytes ≡ [] }
        ensures limit { self.new.limit ≡ self.old.limit }
    {
        self.bytes.clear();
    }

    /// The bytes, at most one more than the limit.
    pub fn as_slice(&self) -> &[u8]
        ensures bytes { result.now ≡ self.now.bytes }
        ensures short { length self.now.bytes ≤ self.now.limit + 1 }
    {
        self.bytes.as_slice()
    }
}
