ghost use Rattle.pgs_json.specs.Commit.{ReadsCommit};
ghost use Rattle.pgs_json.specs.Line.{Reads};

use crate::commit::read_commit_in;
use crate::commit_fault::CommitFault;
use crate::line::read_txn_in;
use crate::line_fault::LineFault;
use json::Scratch;
use pgs_base::Memory;
use pgs_graph::Txn;
use std::alloc::Global;

/// Reads lines one after another. What it gives of a line doesn't depend on those before it. It keeps what reading writes to, which
/// costs as much to make as a short line costs to read: 16 KiB of places, and as many bytes as the longest line.
pub struct LineReader {
    scratch: Option<Box<Scratch>>,
}

// Dropped here, so that crates above need not prove what it holds.
impl Drop for LineReader {
    fn drop(self) {
        let LineReader { scratch: _ } = self;
    }
}

impl LineReader {
    /// Before the first line; takes no memory.
    pub fn new() -> LineReader {
        LineReader { scratch: None }
    }

    // What reading writes to, made at the first line.
    fn scratch(&mut self, alloc: Global) -> Result<&mut Scratch, Memory> {
        if self.scratch.is_none() {
            self.scratch = Some(Box::new(alloc, Scratch::new(alloc))?);
        }
        match &mut self.scratch {
            Some(scratch) => Ok(scratch),
            None => Err(Memory),
        }
    }

    /// The transaction of a line, as `read_txn` gives it.
    pub fn read_txn(&mut self, alloc: Global, line: &[u8]) -> Result<Txn, LineFault>
        ensures { Reads result line.now }
    {
        match self.scratch(alloc) {
            Ok(scratch) => read_txn_in(alloc, line, scratch),
            Err(_) => Err(LineFault::Memory),
        }
    }

    /// The commit of a line of a feed, as `read_commit` gives it.
    pub fn read_commit(&mut self, alloc: Global, line: &[u8]) -> Result<(u64, Txn), CommitFault>
        ensures { ReadsCommit result line.now }
    {
        match self.scratch(alloc) {
            Ok(scratch) => read_commit_in(alloc, line, scratch),
            Err(_) => Err(CommitFault::Memory),
        }
    }
}
