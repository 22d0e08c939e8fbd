ghost use Rattle.std.specs.Prelude.{◌≡◌, ◌++◌, [], length, Option, Some, None, is_some, option_map, OnOk, OnErr, IfOk};
ghost use Rattle.std.specs.Option.{option_copied};
ghost use Rattle.std.specs.BTreeMap.{is_at, insert_entry};
ghost use Rattle.std.specs.Map.{remove_entry};
ghost use Rattle.std.specs.Ordering.{nat_cmp};
ghost use Rattle.pgs_sessions.specs.Open.{at_number, fresh, reading, staging, changed_at};

use pgs_base::{Elem, List, Memory};
use pgs_graph::{Op, Txn};
use std::alloc::Global;
use std::collections::{BTreeMap, BTreeSet};
use std::marker::Model;
use std::mem;

/// An open session, as the machine has it: how many commits there were at its Begin, the elements that it read, and what it staged.
pub(crate) struct Open {
    pub began: u64,
    pub read: BTreeSet<Elem>,
    pub staged: Txn,
}

impl Model for Open {
    ghost use Rattle.pgs_sessions_machine.specs.Machine.{Session};

    ghost Value = { Session };

    ghost view = { λ session. record { began = session.began; read = session.read.keys; staged = session.staged.ops } };
}

impl Drop for Open {
    fn drop(self) {
        let Open {
            began: _,
            read: _,
            staged: _,
        } = self;
    }
}

// Puts operations behind others. After `Memory` these are as they were.
fn append(alloc: Global, ops: &mut List<Op>, more: List<Op>) -> Result<(), Memory>
    ensures ok { OnOk result (ops.new ≡ ops.old ++ more) }
    ensures err { OnErr result (ops.new ≡ ops.old) }
{
    let mut items = mem::replace(ops, List::new(alloc)).into_vec();
    let mut more = more.into_vec();
    let appended = items.append(&mut more);
    *ops = List::from_vec(items);
    appended?;
    Ok(())
}

impl Open {
    fn new(alloc: Global, began: u64) -> Open
        ensures { result ≡ fresh began }
    {
        Open {
            began,
            read: BTreeSet::new(alloc),
            staged: Txn {
                ops: List::new(alloc),
            },
        }
    }

    fn read(&mut self, elem: Elem) -> Result<(), Memory>
        ensures ok { OnOk result (self.new ≡ reading elem self.old) }
        ensures err { OnErr result (self.new ≡ self.old) }
    {
        self.read.insert(elem)?;
        Ok(())
    }

    fn stage(&mut self, alloc: Global, txn: Txn) -> Result<u64, Memory>
        ensures ok { OnOk result (self.new ≡ staging txn.ops self.old) }
        ensures count { IfOk result (λ count. count ≡ length self.new.staged) }
        ensures err { OnErr result (self.new ≡ self.old) }
    {
        let mut txn = txn;
        let ops = mem::replace(&mut txn.ops, List::new(alloc));
        append(alloc, &mut self.staged.ops, ops)?;
        Ok(self.staged.ops.len() as u64)
    }
}

/// The open sessions by number.
pub(crate) struct OpenSessions {
    sessions: BTreeMap<u64, Open>,
}

impl Model for OpenSessions {
    ghost use Rattle.std.specs.Prelude.{ℕ, List as Items};
    ghost use Rattle.pgs_sessions_machine.specs.Machine.{Session};

    ghost Value = { Items (ℕ × Session) };

    ghost view = { λ all. all.sessions.entries };
}

impl Drop for OpenSessions {
    fn drop(self) {
        let OpenSessions { sessions: _ } = self;
    }
}

impl OpenSessions {
    /// None is open.
    pub fn new(alloc: Global) -> OpenSessions
        ensures { result ≡ [] }
    {
        OpenSessions {
            sessions: BTreeMap::new(alloc),
        }
    }

    /// How many are open.
    pub fn len(&self) -> usize
        ensures { result ≡ length self.now }
    {
        self.sessions.len()
    }

    /// The session of a number.
    pub fn get(&self, number: u64) -> Option<&Open>
        ensures { option_copied result ≡ at_number self.now number }
    {
        self.sessions.get(&number)
    }

    /// Opens a session after so many commits. After `Memory` all is as it was.
    pub fn begin(&mut self, alloc: Global, number: u64, commits: u64) -> Result<(), Memory>
        ensures ok { OnOk result (self.new ≡ insert_entry nat_cmp self.old number (fresh commits)) }
        ensures err { OnErr result (self.new ≡ self.old) }
    {
        self.sessions.insert(number, Open::new(alloc, commits))?;
        Ok(())
    }

    /// The session of a number reads an element, where it is open. After `Memory` all is as it was.
    pub fn read(&mut self, number: u64, elem: Elem) -> Result<(), Memory>
        ensures ok { OnOk result (self.new ≡ changed_at (reading elem) self.old number) }
        ensures err { OnErr result (self.new ≡ self.old) }
    {
        let Some(session) = self.sessions.get_mut(&number) else {
            return Ok(());
        };
        session.read(elem)?;
        Ok(())
    }

    /// The session of a number stages operations; how many it has then, or `None` exactly where it isn't open. After `Memory` all is
    /// as it was.
    pub fn stage(&mut self, alloc: Global, number: u64, txn: Txn) -> Result<Option<u64>, Memory>
        ensures ok { OnOk result (self.new ≡ changed_at (staging txn.ops) self.old number) }
        ensures count { IfOk result (λ count. count ≡ option_map (λ session. length (staging txn.ops session).staged) (at_number self.old number)) }
        ensures err { OnErr result (self.new ≡ self.old) }
    {
        let Some(session) = self.sessions.get_mut(&number) else {
            return Ok(None);
        };
        let count = session.stage(alloc, txn)?;
        Ok(Some(count))
    }

    /// Closes the session of a number. Answers whether it was open.
    pub fn close(&mut self, number: u64) -> bool
        ensures sessions { self.new ≡ remove_entry (is_at (nat_cmp number)) self.old }
        ensures answer { result ≡ is_some (at_number self.old number) }
    {
        match self.sessions.remove(&number) {
            Some(_) => true,
            None => false,
        }
    }
}
