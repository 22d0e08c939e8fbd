ghost use Rattle.std.specs.Prelude.{List, ℕ, [], ◌∷◌, ◌≡◌, ◌+◌, ◌-◌, ◌^◌, ◌<◌, false, IfOk, true};
ghost use Rattle.pgs_run_lines.specs.Calls.{stops_of_world};
ghost use Rattle.pgs_answer.specs.Lines.{committed_line, feed_line};
ghost use Rattle.pgs_answer.specs.Refusals.{rejection_text};
ghost use Rattle.pgs_feed.specs.Deliveries.{IsDelivered, kind_of};
ghost use Rattle.pgs_feed.specs.Given.{AreGiven};
ghost use Rattle.pgs_run_lines.specs.Machine.{scene_of};
ghost use Rattle.pgs_violation.specs.Violations.{verdict};
ghost use Rattle.pgs_run_input.specs.Session.{standard, decision_on};
ghost use Rattle.pgs_run_apply.specs.Applying.{applying};
ghost use Rattle.pgs_run_apply.specs.Committing.{IsLineFor};
ghost use Rattle.pgs_run_apply.specs.Outcome.{Takes, refusing, deciding, outcome_of};
ghost use Rattle.pgs_run_apply.specs.Rule.{applies_rule};
ghost use Rattle.pgs_run_apply.specs.Seen.{state_of, state_with};
ghost use Rattle.pgs_run_apply.specs.State.{HoldsStore, status_after};

use crate::asking::ask;
use pgs_answer::{committed_line, feed_line, refused_line, rejection_text};
use pgs_base::{Bytes, Limits, Memory, TEXT_LIMIT};
use pgs_command::Status;
use pgs_feed::Feeds;
use pgs_graph::Txn;
use pgs_run_input::{TextFault, TxnReader};
use pgs_run_lines::{LineTaker, Stop, is_blank, put_piece};
use pgs_store::Store;
use pgs_violation::Rejection;
use pgs_world::World;
use std::alloc::Global;

/// The command `apply`, between two lines: its store, how many lines are numbered so far, whether one was refused, and its feeds.
#[derive(Drop)]
pub struct Applying<L> {
    store: Store,
    reader: TxnReader,
    number: u64,
    refused: bool,
    feeds: L,
}

impl<L: Feeds> Applying<L> {
    /// Before the first line.
    pub fn new(store: Store, feeds: L) -> Applying<L>
        ensures state { state_of result ≡ state_with store 0 (false) }
        ensures feeds { result.feeds ≡ feeds }
    {
        Applying {
            store,
            reader: TxnReader::new(),
            number: 0,
            refused: false,
            feeds,
        }
    }

    /// The feeds.
    pub fn into_feeds(self) -> L
        ensures { result ≡ self.feeds }
    {
        self.feeds
    }

    // The feed line of a transaction, where a feed is to get it.
    fn feed_line_for(&self, alloc: Global, txn: &Txn, commit: u64) -> Result<Option<Bytes>, Memory>
        ensures { IfOk result (λ made. IsLineFor (L.places self.now.feeds) (feed_line txn.now commit) made) }
    {
        if self.feeds.count_fed() == 0 {
            return Ok(None);
        }
        Ok(Some(feed_line(alloc, txn, commit)?))
    }

    // The verdict line and the feed line that a transaction has where it is committed.
    fn lines_of(&self, alloc: Global, txn: &Txn) -> Result<(Bytes, Option<Bytes>), Memory>
        requires { self.now.number < 2 ^ 64 - 1 }
        ensures verdict { IfOk result (λ lines. lines.0 ≡ committed_line (self.now.number + 1) (self.now.store.guard.commits + 1)) }
        ensures feed { IfOk result (λ lines.
            IsLineFor (L.places self.now.feeds) (feed_line txn.now (self.now.store.guard.commits + 1)) lines.1) }
    {
        let commit = self.store.next_commit();
        let verdict = committed_line(alloc, self.number + 1, commit)?;
        let feed = self.feed_line_for(alloc, txn, commit)?;
        Ok((verdict, feed))
    }

    // Counts a refused line, and puts its verdict line.
    fn refuse<W: World>(
        &mut self,
        alloc: Global,
        world: &mut W,
        text: &[u8],
    ) -> Result<(), Stop<Status>>
        requires room { self.old.number < 2 ^ 64 - 1 }
        requires holds { HoldsStore (state_of self.old) (W.view world.old) }
        ensures answer { Takes (kind_of L.places L.delivered) (state_of self.old) (refusing (state_of self.old) text.now) result (state_of self.new)
            (scene_of (W.view world.old) self.old.feeds) (scene_of (W.view world.new) self.new.feeds) }
        ensures last { stops_of_world result ≡ true → W.failed world.new }
    {
        let line = refused_line(alloc, self.number + 1, text)?;
        self.number += 1;
        self.refused = true;
        put_piece(world, line.as_slice())
    }

    // The same of a transaction that is rejected.
    fn reject<W: World>(
        &mut self,
        alloc: Global,
        world: &mut W,
        rejection: &Rejection,
    ) -> Result<(), Stop<Status>>
        requires room { self.old.number < 2 ^ 64 - 1 }
        requires holds { HoldsStore (state_of self.old) (W.view world.old) }
        ensures answer { Takes (kind_of L.places L.delivered) (state_of self.old) (refusing (state_of self.old) (rejection_text rejection.now standard))
            result (state_of self.new)
            (scene_of (W.view world.old) self.old.feeds) (scene_of (W.view world.new) self.new.feeds) }
        ensures last { stops_of_world result ≡ true → W.failed world.new }
    {
        let text = rejection_text(alloc, rejection, &Limits::standard())?;
        self.refuse(alloc, world, text.as_slice())
    }

    // Has the store decide a transaction. Where it is done, feeds are given its line, and then its verdict line is put; both were made
    // before, so that no want of memory comes behind the store.
    fn take_txn<W: World>(
        &mut self,
        alloc: Global,
        world: &mut W,
        txn: &Txn,
    ) -> Result<(), Stop<Status>>
        requires room { self.old.number < 2 ^ 64 - 1 }
        requires holds { HoldsStore (state_of self.old) (W.view world.old) }
        ensures answer { Takes (kind_of L.places L.delivered) (state_of self.old)
            (deciding (state_of self.old) txn.now (decision_on (verdict self.old.store.guard.schema) self.old.store.guard.graph txn.now))
            result (state_of self.new)
            (scene_of (W.view world.old) self.old.feeds) (scene_of (W.view world.new) self.new.feeds) }
        ensures last { stops_of_world result ≡ true → W.failed world.new }
    {
        let (verdict, feed) = self.lines_of(alloc, txn)?;
        match ask(&mut self.store, world, txn) {
            Ok(None) => {
                deliver_made(&*world, &mut self.feeds, feed);
                self.number += 1;
                put_piece(world, verdict.as_slice())
            }
            Ok(Some(rejection)) => self.reject(alloc, world, &rejection),
            Err(stop) => Err(stop),
        }
    }

    // Takes a line. A blank one is skipped.
    fn take_line<W: World>(
        &mut self,
        alloc: Global,
        world: &mut W,
        line: &[u8],
    ) -> Result<(), Stop<Status>>
        requires room { self.old.number < 2 ^ 64 - 1 }
        requires holds { HoldsStore (state_of self.old) (W.view world.old) }
        ensures answer { Takes (kind_of L.places L.delivered) (state_of self.old) (outcome_of (state_of self.old) line.now) result (state_of self.new)
            (scene_of (W.view world.old) self.old.feeds) (scene_of (W.view world.new) self.new.feeds) }
        ensures last { stops_of_world result ≡ true → W.failed world.new }
    {
        if is_blank(line, TEXT_LIMIT) {
            return Ok(());
        }
        match self.reader.read(alloc, line) {
            Ok(txn) => self.take_txn(alloc, world, &txn),
            Err(TextFault::Refused(text)) => self.refuse(alloc, world, text.as_slice()),
            Err(TextFault::Memory) => Err(Stop::Memory),
        }
    }

    // The status after a whole input.
    fn status(&self) -> Status
        ensures { result ≡ status_after self.now.refused }
    {
        if self.refused {
            Status::Refused
        } else {
            Status::Accepted
        }
    }
}

// Gives feeds the line that was made for them, while the world stands so.
fn deliver_made<W: World, L: Feeds>(world: &W, feeds: &mut L, made: Option<Bytes>)
    ensures given { (line : List ℕ) → IsLineFor (L.places feeds.old) line made → AreGiven (line ∷ []) (L.places feeds.old) (L.places feeds.new) }
    ensures delivered { (line : List ℕ) → IsLineFor (L.places feeds.old) line made
        → IsDelivered (kind_of L.places L.delivered) feeds.old (record { line = line; puts = (W.view world.now).puts }) feeds.new }
{
    match made {
        Some(line) => feeds.give(world, line.as_slice()),
        None => {}
    }
}

impl<L: Feeds> LineTaker for Applying<L> {
    type Status = Status;

    ghost machine = { applying };

    ghost rule = { applies_rule (kind_of L.places L.delivered) };

    ghost stands = { state_of };

    ghost kept = { λ taker. taker.feeds };

    fn end_line<W: World>(
        &mut self,
        alloc: Global,
        world: &mut W,
        line: &[u8],
    ) -> Result<(), Stop<Status>> {
        self.take_line(alloc, world, line)
    }

    fn end_input<W: World>(&mut self, alloc: Global, world: &mut W, rest: &[u8]) -> Stop<Status> {
        match self.take_line(alloc, world, rest) {
            Ok(()) => Stop::Ended(self.status()),
            Err(stop) => stop,
        }
    }

    fn end_budget(&self) -> Status {
        Status::InputTooLong
    }
}
