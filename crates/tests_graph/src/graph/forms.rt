//! The forms of a graph, to which the same transactions are applied.

ghost use Rattle.std.specs.Prelude.{◌≡◌, true};
ghost use Rattle.pgs_graph.specs.Changed.{is_sound};

use super::listing::{Range, is_read};
use super::plain::Plain;
use pgs_base::{Copyable, Limits, Memory, Seed, Steps};
use pgs_graph::{Delta, Graph, GraphRead, Txn};
use pgs_overlay::Overlay;
use pgs_tables::Tables;
use pgs_txn::{StageFault, delta_of, stage};
use pgs_violation::Structural;
use std::alloc::Global;
use std::sync::ledger::Ledger;

/// The answer to a transaction, or that one form answered or was read apart from the others.
#[derive(Clone, Copy, PartialEq)]
pub enum Answer {
    Done,
    Refused(Structural),
    Apart,
}

/// The plain program, the plain graph and the tables.
#[derive(Drop)]
pub struct Forms {
    pub plain: Plain,
    graph: Graph,
    tables: Tables,
    range: Range,
    limits: Limits,
}

/// What is wanted: which numbers are read, and how, where it is looked at.
#[derive(Clone, Copy)]
struct Want<'a> {
    limits: Limits,
    range: Range,
    listing: Option<&'a str>,
}

impl Answer {
    /// The answer, or that a form was read apart.
    fn if_alike(self, alike: bool) -> Answer {
        if alike { self } else { Answer::Apart }
    }
}

fn refused(fault: StageFault) -> Result<Answer, Memory> {
    match fault {
        StageFault::Refused(structural) => Ok(Answer::Refused(structural)),
        StageFault::Memory => Err(Memory),
    }
}

/// Whether a pending change is seen as it is wanted.
fn is_seen<B: GraphRead, L: Ledger>(
    alloc: Global,
    base: &B,
    delta: &Delta,
    want: &Want<'_>,
    steps: &mut Steps<L>,
) -> Result<bool, Memory>
    requires { is_sound (B.meaning base.now) delta.now ≡ true }
{
    let overlay = Overlay::new(alloc, base, delta, steps)?;
    is_read(alloc, &overlay, want.range, want.listing, steps)
}

/// Stages a transaction on the plain graph, sees it through an overlay, and puts it in.
fn change<L: Ledger>(
    alloc: Global,
    graph: &mut Graph,
    txn: &Txn,
    want: &Want<'_>,
    steps: &mut Steps<L>,
) -> Result<Answer, Memory> {
    match delta_of(alloc, graph, &want.limits, txn) {
        Ok(delta) => {
            let alike = is_seen(alloc, graph, &delta, want, steps)?;
            graph.change(delta)?;
            Ok(Answer::Done.if_alike(alike))
        }
        Err(fault) => refused(fault),
    }
}

/// Sees a delta of the tables through an overlay, and puts it in.
fn put_in<L: Ledger>(
    alloc: Global,
    tables: &mut Tables,
    delta: Delta,
    want: &Want<'_>,
    steps: &mut Steps<L>,
) -> Result<Answer, Memory>
    requires { is_sound tables.old.graph delta ≡ true }
{
    let alike = is_seen(alloc, tables, &delta, want, steps)?;
    let prepared = tables.prepare(delta)?;
    tables.commit(prepared);
    Ok(Answer::Done.if_alike(alike))
}

/// The same on the tables.
fn commit<L: Ledger>(
    alloc: Global,
    tables: &mut Tables,
    txn: &Txn,
    want: &Want<'_>,
    steps: &mut Steps<L>,
) -> Result<Answer, Memory> {
    match stage(alloc, tables, &want.limits, txn, steps) {
        Ok(delta) => put_in(alloc, tables, delta, want, steps),
        Err(fault) => refused(fault),
    }
}

impl Forms {
    /// The empty graph, of which these numbers are read, with at most so many operations at once and elements.
    pub fn new(alloc: Global, range: Range, limits: (u32, u64)) -> Result<Forms, Memory> {
        let (ops, elements) = limits;
        let limits = Limits { ops, elements };
        Ok(Forms {
            plain: Plain::new(alloc, range)?,
            graph: Graph::new(alloc),
            tables: Tables::with_seed(alloc, Seed::Fixed),
            range,
            limits,
        })
    }

    /// Applies a transaction to the plain graph and to the tables, and reads both.
    fn apply_to_both<L: Ledger>(
        &mut self,
        alloc: Global,
        txn: &Txn,
        want: &Want<'_>,
        steps: &mut Steps<L>,
    ) -> Result<Answer, Memory> {
        let answer = change(alloc, &mut self.graph, txn, want, steps)?;
        let other = commit(alloc, &mut self.tables, txn, want, steps)?;
        let alike = answer == other
            && is_read(alloc, &self.graph, want.range, want.listing, steps)?
            && is_read(alloc, &self.tables, want.range, want.listing, steps)?;
        Ok(answer.if_alike(alike))
    }

    fn apply_to_all<L: Ledger>(
        &mut self,
        alloc: Global,
        txn: &Txn,
        looks: bool,
        steps: &mut Steps<L>,
    ) -> Result<Answer, Memory> {
        let wanted = match self.plain.apply(alloc, txn, &self.limits)? {
            Some(structural) => Answer::Refused(structural),
            None => Answer::Done,
        };
        let listing = if looks {
            Some(self.plain.listing(alloc)?)
        } else {
            None
        };
        let want = Want {
            limits: self.limits,
            range: self.range,
            listing: match &listing {
                Some(listing) => Some(listing.text()?),
                None => None,
            },
        };
        let answer = self.apply_to_both(alloc, txn, &want, steps)?;
        Ok(answer.if_alike(answer == wanted))
    }

    /// Applies a transaction to all, which are to answer as the plain program. Where it is looked at, all are to be read as that too, and a
    /// copy from before as it was.
    pub fn apply<L: Ledger>(
        &mut self,
        alloc: Global,
        txn: &Txn,
        looks: bool,
        steps: &mut Steps<L>,
    ) -> Result<Answer, Memory> {
        if !looks {
            return self.apply_to_all(alloc, txn, false, steps);
        }
        let old = self.plain.listing(alloc)?;
        let copied = self.graph.copy(alloc)?;
        let answer = self.apply_to_all(alloc, txn, true, steps)?;
        let stays = is_read(alloc, &copied, self.range, Some(old.text()?), steps)?;
        Ok(answer.if_alike(stays))
    }
}
