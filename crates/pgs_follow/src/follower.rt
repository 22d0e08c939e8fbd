ghost use Rattle.std.specs.Prelude.{◌≡◌, ◌+◌, ◌-◌, ◌^◌, ◌<◌, ◌≤◌, ℕ, List, [], ◌++◌, None, true, false, is_some, length, take, IfOk, OnOk, OnErr};
ghost use Rattle.std.specs.Option.{option_map};
ghost use Rattle.pgs_run_lines.specs.Input.{has_no_feed, lines_of};
ghost use Rattle.pgs_follow.specs.declared.fault.FollowFault.TheVariants.{LineTooLong};
ghost use Rattle.pgs_follow.specs.Followed.{faulted, after_line, with_rest, rest_of};
ghost use Rattle.pgs_follow.specs.Standing.{StandsFor, taken_of, rest_in};

use crate::fault::FollowFault;
use crate::progress::Progress;
use pgs_base::{Limits, Memory};
use pgs_graph::Graph;
use pgs_json::COMMIT_LIMIT;
use pgs_run_lines::line_end;
use std::alloc::Global;
use std::marker::Model;

/// A follower of a feed. It takes the feed's bytes piece by piece and keeps one graph and one unfinished line. Contracts see the limits,
/// what was followed of the ended lines, or the fault that ended it, and the bytes of the unfinished line.
pub struct Follower {
    progress: Progress,
    line: Vec<u8>,
}

// Dropped by one function of this crate, so that those above need not prove anew how it is taken apart.
impl Drop for Follower {
    fn drop(self) {
        let Follower {
            progress: _,
            line: _,
        } = self;
    }
}

impl Model for Follower {
    ghost use Rattle.std.specs.Prelude.{◌≤◌, length};
    ghost use Rattle.pgs_json.specs.declared.commit.TheConstants.{COMMIT_LIMIT};
    ghost use Rattle.pgs_follow.specs.Standing.{FollowerState};

    ghost Value = { FollowerState };

    ghost view = { λ follower. record {
      limits = follower.progress.limits;
      followed = follower.progress.followed;
      line = follower.line.items;
    } };

    ghost invariant = { λ follower. length follower.line.items ≤ COMMIT_LIMIT };
}

impl Follower {
    /// A follower that took no bytes: the empty graph. It takes no memory.
    pub fn new(alloc: Global, limits: Limits) -> Follower
        ensures limits { result.limits ≡ limits }
        ensures nothing { StandsFor [] result }
    {
        Follower {
            progress: Progress::new(alloc, limits),
            line: Vec::new(alloc),
        }
    }

    // Ends the unfinished line, of which some bytes are kept, with these.
    fn end_kept(&mut self, part: &[u8]) -> Result<(), Memory>
        requires lines { self.old.followed.lines < 2 ^ 64 - 1 }
        requires short { length self.old.line + length part.now ≤ COMMIT_LIMIT }
        ensures ok { OnOk result (self.new.followed ≡ after_line self.old.limits self.old.followed (self.old.line ++ part.now)) }
        ensures line { OnOk result (self.new.line ≡ []) }
        ensures counted { self.new.followed.lines ≤ self.old.followed.lines + 1 }
        ensures limits { self.new.limits ≡ self.old.limits }
        ensures err { OnErr result (self.new ≡ self.old) }
    {
        let kept = self.line.len();
        self.line.extend_from_slice(part)?;
        match self.progress.take_line(self.line.as_slice()) {
            Ok(()) => {
                self.line.clear();
                Ok(())
            }
            Err(memory) => {
                self.line.truncate(kept);
                Err(memory)
            }
        }
    }

    // Whether a fault ended it.
    fn has_fault(&self) -> bool
        ensures { result ≡ is_some self.now.followed.fault }
    {
        self.progress.has_fault()
    }

    // How many bytes of the unfinished line are kept; none once there is a fault.
    fn unfinished_len(&self) -> u64
        ensures { result ≡ rest_in self.now }
    {
        match self.progress.fault() {
            Some(_) => 0,
            None => self.line.len() as u64,
        }
    }

    // Ends it by a line that is too long, of which nothing is kept.
    fn end_too_long(&mut self)
        requires { self.old.followed.lines < 2 ^ 64 - 1 }
        ensures followed { self.new.followed ≡ faulted self.old.followed (LineTooLong (self.old.followed.lines + 1)) }
        ensures line { self.new.line ≡ [] }
        ensures limits { self.new.limits ≡ self.old.limits }
    {
        self.progress.end_too_long();
        self.line.clear();
    }

    // Ends the unfinished line with these bytes, with which it is too long.
    fn end_long_line(&mut self, part: &[u8])
        requires lines { self.old.followed.lines < 2 ^ 64 - 1 }
        requires follows { is_some self.old.followed.fault ≡ false }
        requires long { COMMIT_LIMIT < length self.old.line + length part.now }
        ensures followed { self.new.followed ≡ after_line self.old.limits self.old.followed (self.old.line ++ part.now) }
        ensures counted { self.new.followed.lines ≤ self.old.followed.lines + 1 }
        ensures line { self.new.line ≡ [] }
        ensures limits { self.new.limits ≡ self.old.limits }
    {
        self.end_too_long();
    }

    // Ends the unfinished line with these bytes.
    fn end_line(&mut self, part: &[u8]) -> Result<(), Memory>
        requires lines { self.old.followed.lines < 2 ^ 64 - 1 }
        requires follows { is_some self.old.followed.fault ≡ false }
        ensures ok { OnOk result (self.new.followed ≡ after_line self.old.limits self.old.followed (self.old.line ++ part.now)) }
        ensures line { OnOk result (self.new.line ≡ []) }
        ensures counted { self.new.followed.lines ≤ self.old.followed.lines + 1 }
        ensures limits { self.new.limits ≡ self.old.limits }
        ensures err { OnErr result (self.new ≡ self.old) }
    {
        if self.line.is_empty() {
            return self.progress.take_line(part);
        }
        if part.len() > COMMIT_LIMIT - self.line.len() {
            self.end_long_line(part);
            return Ok(());
        }
        self.end_kept(part)
    }

    // Keeps bytes of the unfinished line.
    fn keep(&mut self, part: &[u8]) -> Result<(), Memory>
        requires lines { self.old.followed.lines < 2 ^ 64 - 1 }
        requires follows { is_some self.old.followed.fault ≡ false }
        ensures ok { OnOk result (self.new.followed ≡ with_rest self.old.followed (self.old.line ++ part.now)) }
        ensures line { OnOk result (self.new.followed.fault ≡ None → self.new.line ≡ self.old.line ++ part.now) }
        ensures counted { self.new.followed.lines ≤ self.old.followed.lines + 1 }
        ensures limits { self.new.limits ≡ self.old.limits }
        ensures err { OnErr result (self.new ≡ self.old) }
    {
        if part.len() > COMMIT_LIMIT - self.line.len() {
            self.end_too_long();
            return Ok(());
        }
        self.line.extend_from_slice(part)?;
        Ok(())
    }

    /// Takes a piece of the feed up to and with its first line feed, or the whole where it has none, and gives how many bytes it took:
    /// at least 1 of a piece that isn't empty. The follower then stands for all bytes taken. After `Memory` it is unchanged. After a
    /// fault it takes the whole piece and changes nothing. A call reads at most one line; it asks that fewer than 2^64 - 1 lines were read.
    pub fn push(&mut self, piece: &[u8]) -> Result<usize, Memory>
        requires { self.old.followed.lines < 2 ^ 64 - 1 }
        ensures taken { IfOk result (λ count. count ≡ taken_of self.old piece.now) }
        ensures within { IfOk result (λ count. count ≤ length piece.now) }
        ensures some { IfOk result (λ count. 0 < length piece.now → 0 < count) }
        ensures stands { IfOk result (λ count. (bytes : List ℕ) → StandsFor bytes self.old → StandsFor (bytes ++ take count piece.now) self.new) }
        ensures counted { self.new.followed.lines ≤ self.old.followed.lines + 1 }
        ensures limits { self.new.limits ≡ self.old.limits }
        ensures ended { is_some self.old.followed.fault ≡ true → self.new ≡ self.old }
        ensures unchanged { OnErr result (self.new ≡ self.old) }
    {
        if self.has_fault() {
            return Ok(piece.len());
        }
        match line_end(piece) {
            Some(end) => {
                self.end_line(&piece[..end])?;
                Ok(end + 1)
            }
            None => {
                self.keep(piece)?;
                Ok(piece.len())
            }
        }
    }

    /// The fault that ended it, if one did.
    pub fn fault(&self) -> Option<&FollowFault>
        ensures { option_map (λ fault. fault.now) result ≡ self.now.followed.fault }
    {
        self.progress.fault()
    }

    /// The number of commits of the graph.
    pub fn commits(&self) -> u64
        ensures { result ≡ self.now.followed.commits }
    {
        self.progress.commits()
    }

    /// The number of lines that were read without a fault.
    pub fn lines(&self) -> u64
        ensures { result ≡ self.now.followed.lines }
    {
        self.progress.lines()
    }

    /// The graph after these commits.
    pub fn graph(&self) -> &Graph
        ensures { result.now ≡ self.now.followed.graph }
    {
        self.progress.graph()
    }

    /// The number of bytes after the last line feed; 0 once there is a fault.
    pub fn rest(&self) -> u64
        ensures rest { result ≡ rest_in self.now }
        ensures stands { (bytes : List ℕ) → StandsFor bytes self.now → result ≡ rest_of self.now.limits bytes }
    {
        self.unfinished_len()
    }
}
