ghost use Rattle.std.specs.Prelude.{◌≡◌, ◌+◌, ◌^◌, ◌<◌, ◌≤◌, true, length, Ok, IfOk, IfErr, OnOk, OnErr};
ghost use Rattle.std.specs.Option.{option_copied};
ghost use Rattle.pgs_base.specs.declared.seed.Seed.TheVariants.{Fixed};
ghost use Rattle.pgs_base.specs.Graph.{empty_graph, is_graph};
ghost use Rattle.pgs_resolve.specs.SchemaOf.{schema, schema_of};
ghost use Rattle.pgs_schema.specs.Told.{IsRefused};
ghost use Rattle.pgs_violation.specs.Decision.{decide};
ghost use Rattle.pgs_violation.specs.Violations.{verdict};
ghost use Rattle.pgs_store.specs.Costs.{IsWithin};
ghost use Rattle.pgs_store.specs.Explained.{types_of, key_values_of};
ghost use Rattle.pgs_decide.specs.Refused.{IsRejected};
ghost use Rattle.pgs_store.specs.State.{IsGuarded};

use crate::explaining::types_of;
use crate::judging::decision_of;
use crate::{GuardFault, GuardRefusal};
use pgs_base::{Elem, Limits, List, Memory, Seed, Steps, TupleSet};
use pgs_conform::Compiled;
use pgs_decide::change;
use pgs_graph::{GraphRead, Txn};
use pgs_keyindex::KeyIndex;
use pgs_schema::Schema;
use pgs_syntax::TypeNo;
use pgs_tables::Tables;
use std::alloc::Global;
use std::marker::Model;
use std::sync::ledger::Ledger;

/// A graph under a schema and limits, which it never breaks: transactions change it, and each that would break them is rejected.
/// Contracts see the schema's text, the schema, the limits, the graph, how many transactions were accepted, and how its tables and its index
/// hash.
///
/// It keeps an index that stands for the graph in every guard, whatever was called and answered: for each key of the schema it has
/// exactly the elements of the key's scope with exactly their key values (`IsIndexed` in `specs/State.antt`). So a transaction is
/// decided where its change is.
pub struct Guard {
    pub(crate) alloc: Global,
    pub(crate) schema: Schema,
    pub(crate) limits: Limits,
    pub(crate) seed: Seed,
    pub(crate) graph: Tables,
    pub(crate) index: KeyIndex,
    pub(crate) commits: u64,
}

// Dropped by one function of this crate, so that those above need not prove anew how a guard is taken apart.
impl Drop for Guard {
    fn drop(self) {
        let Guard {
            alloc: _,
            schema: _,
            limits: _,
            seed: _,
            graph: _,
            index: _,
            commits: _,
        } = self;
    }
}

impl Model for Guard {
    ghost use Rattle.std.specs.Coded.{codes};
    ghost use Rattle.pgs_base.specs.contracts.seed.Seed as seeds;
    ghost use Rattle.pgs_syntax.specs.contracts.resolved.Resolved as schemas;
    ghost use Rattle.pgs_store.specs.State.{GuardState, IsHashedBy, IsIndexed};

    ghost Value = { GuardState };

    ghost coded = { Prim.hlevel (codes, schemas.the_row.coded, seeds.the_row.coded) };

    ghost view = { λ guard. record {
      text = guard.schema.text;
      schema = guard.schema.resolved;
      limits = guard.limits;
      graph = guard.graph.graph;
      commits = guard.commits;
      seed = guard.seed;
    } };

    ghost invariant = { λ guard. IsIndexed guard.schema.resolved guard.limits guard.graph.graph guard.index × IsHashedBy guard.seed guard.graph.seeds guard.index.seed };
}

impl Guard {
    /// The guard of an empty graph under the schema of a text. Where the text is no schema it is refused as by
    /// `pgs_schema::read_schema`: 19 first, then 10 to 16, 18 and 17. `Memory` where there was none left.
    pub fn new(alloc: Global, text: &[u8], limits: Limits) -> Result<Guard, GuardFault>
        ensures text { IfOk result (λ guard. guard.text ≡ text.now) }
        ensures schema { IfOk result (λ guard. schema_of text.now ≡ schema guard.schema) }
        ensures limits { IfOk result (λ guard. guard.limits ≡ limits) }
        ensures empty { IfOk result (λ guard. guard.graph ≡ empty_graph) }
        ensures commits { IfOk result (λ guard. guard.commits ≡ 0) }
        ensures seed { IfOk result (λ guard. guard.seed ≡ Fixed) }
        ensures refused { IfErr result (IsRefused (schema_of text.now)) }
    {
        Guard::with_seed(alloc, text, limits, Seed::Fixed)
    }

    /// The same, its tables hashed by a seed of one's own.
    pub fn with_seed(
        alloc: Global,
        text: &[u8],
        limits: Limits,
        seed: Seed,
    ) -> Result<Guard, GuardFault>
        ensures text { IfOk result (λ guard. guard.text ≡ text.now) }
        ensures schema { IfOk result (λ guard. schema_of text.now ≡ schema guard.schema) }
        ensures limits { IfOk result (λ guard. guard.limits ≡ limits) }
        ensures empty { IfOk result (λ guard. guard.graph ≡ empty_graph) }
        ensures commits { IfOk result (λ guard. guard.commits ≡ 0) }
        ensures seed { IfOk result (λ guard. guard.seed ≡ seed) }
        ensures refused { IfErr result (IsRefused (schema_of text.now)) }
    {
        let schema = Schema::read(alloc, text)?;
        let index = KeyIndex::with_seed(alloc, &schema.compiled().resolved().guard.keys, seed)?;
        Ok(Guard {
            alloc,
            schema,
            limits,
            seed,
            graph: Tables::with_seed(alloc, seed),
            index,
            commits: 0,
        })
    }

    // What every guard meets. Nothing is done.
    pub(crate) fn facts(&self)
        ensures schema { schema_of self.now.text ≡ schema self.now.schema }
        ensures guarded { IsGuarded self.now.schema self.now.limits self.now.graph }
        ensures graph { is_graph self.now.graph ≡ true }
        ensures ops { self.now.limits.ops < 2 ^ 32 }
    {
        let _most = self.limits.ops;
        let _count = self.graph.count();
        let _text = self.schema.text();
    }

    /// Decides a transaction on the graph, and does it where it is accepted: the commit number, from 1. Where it is rejected or there
    /// is no memory, the guard stays as it was. The rule is `decide` of `pgs_violation`, with the schema's verdict.
    ///
    /// It looks where the change is (`IsWithin` in `specs/Costs.antt`). Let q be the number of the guard's types and keys, t the number
    /// of the transaction's operations and of what they touch together, w such that no pattern of the keys has more edge variables, and
    /// d such that no node within 2w edges of what they touch, over the edges of the graph before and after together, has more edges in
    /// either. Then it takes at most 4096 * (q + 1) * (t + 1) * (d + 2)^(2w + 2) look-ups, at every exit.
    pub fn apply<L: Ledger>(&mut self, txn: &Txn, steps: &mut Steps<L>) -> Result<u64, GuardRefusal>
        requires { self.old.commits < 18446744073709551615 }
        ensures number { IfOk result (λ number. number ≡ self.old.commits + 1) }
        ensures accepted { OnOk result (decide self.old.limits (verdict self.old.schema) self.old.graph txn.now ≡ Ok self.new.graph) }
        ensures rejected { IfErr result (IsRejected (decide self.old.limits (verdict self.old.schema) self.old.graph txn.now)) }
        ensures kept { OnOk result (self.new ≡ record self.old { graph = self.new.graph; commits = self.old.commits + 1 }) }
        ensures unchanged { OnErr result (self.new ≡ self.old) }
        ensures no_step_back { steps.old ≤ steps.new }
        ensures cost { IsWithin self.old txn.now steps.old steps.new }
    {
        let decided = decision_of(
            self.alloc,
            &self.schema,
            &self.limits,
            &self.graph,
            &self.index,
            txn,
            steps,
        )?;
        change(&mut self.graph, &mut self.index, decided)?;
        self.commits += 1;
        Ok(self.commits)
    }

    /// How many transactions were accepted.
    pub fn commits(&self) -> u64
        ensures { result ≡ self.now.commits }
    {
        self.commits
    }

    /// The schema's text.
    pub fn schema_text(&self) -> &[u8]
        ensures text { result.now ≡ self.now.text }
        ensures schema { schema_of self.now.text ≡ schema self.now.schema }
    {
        self.schema.text()
    }

    /// The schema, with its types compiled.
    pub fn compiled(&self) -> &Compiled
        ensures { result.now ≡ self.now.schema }
    {
        self.schema.compiled()
    }

    /// The graph, which conforms to the schema and is within the limits.
    pub fn graph(&self) -> &Tables
        ensures graph { result.now.graph ≡ self.now.graph }
        ensures guarded { IsGuarded self.now.schema self.now.limits self.now.graph }
    {
        &self.graph
    }

    /// The types of the schema's guard that an element fits, abstract ones too, in the guard's order; none where the element isn't in
    /// the graph. The rule is `types_of` in `specs/Explained.antt`.
    pub fn types_of(&self, elem: Elem) -> Result<List<TypeNo>, Memory>
        ensures { IfOk result (λ types. types ≡ types_of self.now.schema self.now.graph elem) }
    {
        types_of(self.alloc, &self.graph, self.schema.compiled(), elem)
    }

    /// The values of an element under the key of a number, from 1, by at most two look-ups in the index. `None` exactly where the
    /// element isn't in the scope of the key. The rule is `key_values_of` in `specs/Explained.antt`.
    pub fn key_values<L: Ledger>(
        &self,
        key: u32,
        elem: Elem,
        steps: &mut Steps<L>,
    ) -> Option<&TupleSet>
        requires from_one { 0 < key }
        requires in_range { key ≤ length self.now.schema.guard.keys }
        ensures values { option_copied result ≡ key_values_of self.now.schema self.now.graph key elem }
        ensures no_step_back { steps.old ≤ steps.new }
        ensures ticks { steps.new ≤ steps.old + 2 }
    {
        self.index.values_of(key, elem, steps)
    }
}
