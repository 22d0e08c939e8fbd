ghost use Rattle.std.specs.Prelude.{◌≡◌, ◌+◌, ◌-◌, ◌^◌, ◌<◌, ◌≤◌, true, false, is_some, OnOk, OnErr};
ghost use Rattle.std.specs.Option.{option_map};
ghost use Rattle.pgs_violation.specs.Staging.{staged};
ghost use Rattle.pgs_follow.specs.declared.fault.FollowFault.TheVariants.{LineTooLong};
ghost use Rattle.pgs_follow.specs.Followed.{nothing_followed, faulted, committed, after_commit, after_line};

use crate::fault::FollowFault;
use pgs_base::{Limits, Memory};
use pgs_graph::{Graph, Txn};
use pgs_json::{CommitFault, LineReader};
use pgs_txn::{StageFault, delta_of};
use std::alloc::Global;
use std::marker::Model;

/// What was followed of whole lines: the graph, the number of its commits, the number of lines read without a fault, and the fault
/// that ended it. Contracts see these, and the limits.
pub struct Progress {
    alloc: Global,
    reader: LineReader,
    limits: Limits,
    graph: Graph,
    commits: u64,
    lines: u64,
    fault: Option<FollowFault>,
}

// Dropped by one function of this crate, so that those above need not prove anew how it is taken apart.
impl Drop for Progress {
    fn drop(self) {
        let Progress {
            alloc: _,
            reader: _,
            limits: _,
            graph: _,
            commits: _,
            lines: _,
            fault: _,
        } = self;
    }
}

impl Model for Progress {
    ghost use Rattle.std.specs.Prelude.{◌≤◌};
    ghost use Rattle.pgs_follow.specs.Standing.{ProgressState};

    ghost Value = { ProgressState };

    ghost view = { λ progress. record {
      limits = progress.limits;
      followed = record { graph = progress.graph; commits = progress.commits; lines = progress.lines; fault = progress.fault };
    } };

    ghost invariant = { λ progress. progress.commits ≤ progress.lines };
}

impl Progress {
    /// No lines yet: the empty graph. It takes no memory.
    pub fn new(alloc: Global, limits: Limits) -> Progress
        ensures followed { result.followed ≡ nothing_followed }
        ensures limits { result.limits ≡ limits }
    {
        Progress {
            alloc,
            reader: LineReader::new(),
            limits,
            graph: Graph::new(alloc),
            commits: 0,
            lines: 0,
            fault: None,
        }
    }

    // Stages the transaction of the next commit.
    fn commit(&mut self, txn: &Txn) -> Result<(), Memory>
        requires { self.old.followed.lines < 2 ^ 64 - 1 }
        ensures ok { OnOk result (self.new.followed ≡ committed self.old.followed (staged self.old.limits self.old.followed.graph txn.now)) }
        ensures counted { self.new.followed.lines ≤ self.old.followed.lines + 1 }
        ensures limits { self.new.limits ≡ self.old.limits }
        ensures err { OnErr result (self.new ≡ self.old) }
    {
        match delta_of(self.alloc, &self.graph, &self.limits, txn) {
            Ok(delta) => {
                self.graph.change(delta)?;
                self.commits += 1;
                self.lines += 1;
                Ok(())
            }
            Err(StageFault::Memory) => Err(Memory),
            Err(StageFault::Refused(cause)) => {
                let commit = self.commits + 1;
                self.fault = Some(FollowFault::BadCommit { commit, cause });
                Ok(())
            }
        }
    }

    // Takes a commit that was read of a line.
    fn take_commit(&mut self, number: u64, txn: &Txn) -> Result<(), Memory>
        requires { self.old.followed.lines < 2 ^ 64 - 1 }
        ensures ok { OnOk result (self.new.followed ≡ after_commit self.old.limits self.old.followed number txn.now) }
        ensures counted { self.new.followed.lines ≤ self.old.followed.lines + 1 }
        ensures limits { self.new.limits ≡ self.old.limits }
        ensures err { OnErr result (self.new ≡ self.old) }
    {
        if number <= self.commits {
            self.lines += 1;
            return Ok(());
        }
        let expected = self.commits + 1;
        if number == expected {
            return self.commit(txn);
        }
        self.fault = Some(FollowFault::Gap {
            expected,
            found: number,
        });
        Ok(())
    }

    /// Takes a line, without its line feed. After `Memory` nothing is changed, and after a fault nothing more is followed. The rule is
    /// `after_line` of `specs/Followed.antt`. It asks that fewer than 2^64 - 1 lines were read.
    pub fn take_line(&mut self, line: &[u8]) -> Result<(), Memory>
        requires { self.old.followed.lines < 2 ^ 64 - 1 }
        ensures ok { OnOk result (self.new.followed ≡ after_line self.old.limits self.old.followed line.now) }
        ensures counted { self.new.followed.lines ≤ self.old.followed.lines + 1 }
        ensures limits { self.new.limits ≡ self.old.limits }
        ensures err { OnErr result (self.new ≡ self.old) }
    {
        if self.fault.is_some() {
            return Ok(());
        }
        match self.reader.read_commit(self.alloc, line) {
            Ok((number, txn)) => self.take_commit(number, &txn),
            Err(CommitFault::Memory) => Err(Memory),
            Err(CommitFault::Unreadable) => {
                let number = self.lines + 1;
                self.fault = Some(FollowFault::BadLine { line: number });
                Ok(())
            }
            Err(CommitFault::LineTooLong) => {
                self.end_too_long();
                Ok(())
            }
        }
    }

    /// Ends it by a line that is too long.
    pub fn end_too_long(&mut self)
        requires { self.old.followed.lines < 2 ^ 64 - 1 }
        ensures followed { self.new.followed ≡ faulted self.old.followed (LineTooLong (self.old.followed.lines + 1)) }
        ensures limits { self.new.limits ≡ self.old.limits }
    {
        let line = self.lines + 1;
        self.fault = Some(FollowFault::LineTooLong { line });
    }

    /// The fault that ended it.
    pub fn fault(&self) -> Option<&FollowFault>
        ensures { option_map (λ fault. fault.now) result ≡ self.now.followed.fault }
    {
        self.fault.as_ref()
    }

    /// Whether a fault ended it.
    pub fn has_fault(&self) -> bool
        ensures { result ≡ is_some self.now.followed.fault }
    {
        self.fault.is_some()
    }

    /// The number of commits.
    pub fn commits(&self) -> u64
        ensures { result ≡ self.now.followed.commits }
    {
        self.commits
    }

    /// The number of lines that were read without a fault.
    pub fn lines(&self) -> u64
        ensures { result ≡ self.now.followed.lines }
    {
        self.lines
    }

    /// The graph after these commits.
    pub fn graph(&self) -> &Graph
        ensures { result.now ≡ self.now.followed.graph }
    {
        &self.graph
    }
}
