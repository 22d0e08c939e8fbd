ghost use Rattle.std.specs.Prelude.{◌≡◌, ◌≤◌, ◌+◌, [], length, nat_lt, is_err, IfOk, OnOk, OnErr};
ghost use Rattle.pgs_world.specs.Count.{RoseByOne};
ghost use Rattle.pgs_world.specs.MemFeed.{refuses_next, after_piece};
ghost use Rattle.pgs_world.specs.World.{Adds, AddsFront};

use crate::{Feed, FeedFault};
use pgs_base::{List, Memory};
use std::alloc::Global;
use std::marker::Model;

/// A feed in memory: it tells its bytes, and fails exactly at the puts that are listed and at a piece for which it has no room.
#[derive(Drop)]
pub struct MemFeed {
    bytes: Vec<u8>,
    room: usize,
    fail: List<u64>,
    calls: u64,
    faults: u64,
}

impl Model for MemFeed {
    ghost use Rattle.std.specs.Prelude.{◌≤◌, vec_len, vec_capacity};
    ghost use Rattle.pgs_world.specs.MemFeed.{Feeding};

    ghost Value = { Feeding };

    ghost view = { λ f. record { bytes = f.bytes.items; room = f.room; fail = f.fail; calls = f.calls; faults = f.faults } };

    ghost invariant = { λ f. (vec_len f.bytes ≤ f.room) × (f.room ≤ vec_capacity f.bytes) };
}

impl MemFeed {
    /// A feed with room for so many bytes, for which the memory is taken at once, that fails at the listed puts, counted from 1.
    pub fn new(alloc: Global, room: u64, fail: List<u64>) -> Result<MemFeed, Memory>
        ensures { IfOk result (λ feed. feed ≡ record { bytes = []; room = room; fail = fail; calls = 0; faults = 0 }) }
    {
        let room = room as usize;
        let bytes = Vec::with_capacity(alloc, room)?;
        Ok(MemFeed {
            bytes,
            room,
            fail,
            calls: 0,
            faults: 0,
        })
    }

    // Whether there is no room for a piece.
    fn lacks_room(&self, piece: &[u8]) -> bool
        ensures { result ≡ nat_lt self.now.room (length self.now.bytes + length piece.now) }
    {
        self.room - self.bytes.len() < piece.len()
    }

    // Whether the next put, of this piece, has to fail.
    fn refuses(&self, piece: &[u8]) -> bool
        ensures { result ≡ refuses_next self.now piece.now }
    {
        let next = self.calls.saturating_add(1);
        self.fail.as_slice().contains(&next) || self.lacks_room(piece)
    }
}

impl Feed for MemFeed {
    ghost use Rattle.std.specs.Prelude.{Some};

    ghost taken = { λ f. Some f.bytes };

    ghost faults = { λ f. f.faults };

    /// Fails exactly at the listed puts and at a piece for which there is no room; nothing of it is taken then.
    fn put(&mut self, piece: &[u8]) -> Result<(), FeedFault>
        ensures fails { is_err result ≡ refuses_next self.old piece.now }
        ensures after { self.new ≡ after_piece self.old piece.now }

        // What every feed says.
        ensures whole { OnOk result (Adds (Some self.old.bytes) (Some self.new.bytes) piece.now) }
        ensures front { OnErr result (AddsFront (Some self.old.bytes) (Some self.new.bytes) piece.now) }
        ensures cause { OnErr result (RoseByOne self.old.faults self.new.faults) }
        ensures no_cause { OnOk result (self.new.faults ≡ self.old.faults) }
        ensures faults_stay { self.old.faults ≤ self.new.faults }
    {
        let refuses = self.refuses(piece);
        self.calls = self.calls.saturating_add(1);
        if refuses {
            self.faults = self.faults.saturating_add(1);
            return Err(FeedFault);
        }
        self.bytes.extend_from_slice(piece).unwrap();
        Ok(())
    }

    fn shown(&self) -> Option<&[u8]> {
        Some(self.bytes.as_slice())
    }
}
