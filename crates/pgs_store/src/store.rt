ghost use Rattle.std.specs.Prelude.{◌≡◌, ◌+◌, ◌-◌, ◌*◌, ◌^◌, ◌<◌, ◌≤◌, length, IsTrue, IfOk};
ghost use Rattle.std.specs.Option.{is_some, option_copied};
ghost use Rattle.pgs_journal.specs.Format.{is_epoch};
ghost use Rattle.pgs_resolve.specs.SchemaOf.{schema, schema_of};
ghost use Rattle.pgs_store.specs.Explained.{types_of, key_values_of};
ghost use Rattle.pgs_store.specs.State.{IsGuarded};
ghost use Rattle.pgs_world.specs.declared.area_limit.TheConstants.{AREA_LIMIT};

use crate::Guard;
use pgs_base::{Elem, List, Memory, Steps, TupleSet};
use pgs_conform::Compiled;
use pgs_journal::Journal;
use pgs_syntax::TypeNo;
use pgs_tables::Tables;
use std::marker::Model;
use std::sync::ledger::Ledger;

/// A guard with a journal: each transaction that it takes is on the disk before it is answered. Contracts see the guard, the journal
/// and whether an earlier call answered `DiskFault`. Its guard's index stands for the graph, as in every guard, whatever the world did.
pub struct Store {
    pub(crate) guard: Guard,
    pub(crate) journal: Journal,
    pub(crate) failed: bool,
}

// Dropped by one function of this crate, so that those above need not prove anew how a store is taken apart.
impl Drop for Store {
    fn drop(self) {
        let Store {
            guard: _,
            journal: _,
            failed: _,
        } = self;
    }
}

impl Model for Store {
    ghost use Rattle.std.specs.Coded.{codes};
    ghost use Rattle.pgs_base.specs.contracts.seed.Seed as seeds;
    ghost use Rattle.pgs_syntax.specs.contracts.resolved.Resolved as schemas;
    ghost use Rattle.pgs_store.specs.Stored.{StoreState, IsBounded};

    ghost Value = { StoreState };

    ghost coded = { Prim.hlevel (codes, schemas.the_row.coded, seeds.the_row.coded) };

    ghost view = { λ store. record { guard = store.guard; journal = store.journal; failed = store.failed } };

    ghost invariant = { λ store. IsBounded store.journal store.guard.commits };
}

impl Store {
    /// How many transactions were committed. The journal ends below 2^40, and so they are fewer than 2^64 - 1.
    pub fn commits(&self) -> u64
        ensures commits { result ≡ self.now.guard.commits }
        ensures bounded { self.now.guard.commits ≤ (self.now.journal.epoch - 1) * AREA_LIMIT + self.now.journal.end }
        ensures end { self.now.journal.end < AREA_LIMIT }
        ensures below { result < 2 ^ 64 - 1 }
    {
        self.guard.commits()
    }

    /// The number of the next commit.
    pub fn next_commit(&self) -> u64
        ensures { result ≡ self.now.guard.commits + 1 }
    {
        self.guard.commits() + 1
    }

    /// The epoch of the store, from 1 to 16,777,215.
    pub fn epoch(&self) -> u64
        ensures epoch { result ≡ self.now.journal.epoch }
        ensures numbered { IsTrue (is_epoch self.now.journal.epoch) }
    {
        self.journal.epoch
    }

    /// The guard of the store, without its journal: what it takes is not kept.
    pub fn into_guard(self) -> Guard
        ensures { result ≡ self.guard }
    {
        let Store {
            guard,
            journal: _,
            failed: _,
        } = self;
        guard
    }

    /// Whether the store is of the second format, which has schemas at later places, so that `evolve` may succeed.
    pub fn takes_schemas(&self) -> bool
        ensures { result ≡ is_some self.now.journal.next }
    {
        self.journal.next.is_some()
    }

    /// The schema's text.
    pub fn schema_text(&self) -> &[u8]
        ensures text { result.now ≡ self.now.guard.text }
        ensures schema { schema_of self.now.guard.text ≡ schema self.now.guard.schema }
    {
        self.guard.schema_text()
    }

    /// The schema, with its types compiled.
    pub fn compiled(&self) -> &Compiled
        ensures { result.now ≡ self.now.guard.schema }
    {
        self.guard.compiled()
    }

    /// The graph of the last commit, which conforms to the schema and is within the limits.
    pub fn graph(&self) -> &Tables
        ensures graph { result.now.graph ≡ self.now.guard.graph }
        ensures guarded { IsGuarded self.now.guard.schema self.now.guard.limits self.now.guard.graph }
    {
        self.guard.graph()
    }

    /// The types of the schema's guard that an element fits, as `Guard::types_of` gives them.
    pub fn types_of(&self, elem: Elem) -> Result<List<TypeNo>, Memory>
        ensures { IfOk result (λ types. types ≡ types_of self.now.guard.schema self.now.guard.graph elem) }
    {
        self.guard.types_of(elem)
    }

    /// The values of an element under the key of a number, from 1, as `Guard::key_values` gives them, by at most two look-ups.
    pub fn key_values<L: Ledger>(
        &self,
        key: u32,
        elem: Elem,
        steps: &mut Steps<L>,
    ) -> Option<&TupleSet>
        requires from_one { 0 < key }
        requires in_range { key ≤ length self.now.guard.schema.guard.keys }
        ensures values { option_copied result ≡ key_values_of self.now.guard.schema self.now.guard.graph key elem }
        ensures no_step_back { steps.old ≤ steps.new }
        ensures ticks { steps.new ≤ steps.old + 2 }
    {
        self.guard.key_values(key, elem, steps)
    }
}
