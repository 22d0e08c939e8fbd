//! The causes of a line that is no transaction, and of a transaction that is rejected.

ghost use Rattle.std.specs.Prelude.{◌≡◌, ◌<◌, true, Err, IfOk};
ghost use Rattle.std.specs.Option.{option_to_list};
ghost use Rattle.pgs_graph.specs.Changed.{changed, is_sound};
ghost use Rattle.pgs_resolve.specs.SchemaOf.{schema, schema_of};
ghost use Rattle.pgs_violation.specs.declared.rejection.Rejection.TheVariants.{Violation as ByViolation};
ghost use Rattle.pgs_violation.specs.Staging.{staged};
ghost use Rattle.pgs_violation.specs.Violations.{verdict};
ghost use Rattle.pgs_violation_causes.specs.Causes.{AreViolationCauses};
ghost use Rattle.pgs_run_input.specs.Session.{decision_on, standard};
ghost use Rattle.pgs_run_check_try.specs.Causes.{AreReadCauses, AreStagedCauses};

use pgs_base::{Bytes, Limits, List, Memory, Steps, TEXT_LIMIT};
use pgs_conform::Compiled;
use pgs_graph::{Delta, Txn};
use pgs_json_causes::line_cause;
use pgs_overlay::Overlay;
use pgs_store::Guard;
use pgs_tables::Tables;
use pgs_txn::{StageFault, delta_of};
use pgs_violation::{Rejection, Violation};
use pgs_violation_causes::violation_causes;
use std::alloc::Global;
use std::marker::Brand;
use std::sync::ledger::{Blank, Ledger};

// One text, or none.
fn listed(alloc: Global, text: Option<Bytes>) -> Result<List<Bytes>, Memory>
    ensures { IfOk result (λ texts. texts ≡ option_to_list text) }
{
    let mut texts = Vec::new(alloc);
    if let Some(text) = text {
        texts.push(text)?;
    }
    Ok(List::from_vec(texts))
}

/// The causes of a line that is no transaction: why it is none; of one that is too long there are none.
pub(crate) fn read_causes(alloc: Global, line: &[u8]) -> Result<List<Bytes>, Memory>
    ensures { IfOk result (AreReadCauses line.now) }
{
    if line.len() > TEXT_LIMIT {
        return Ok(List::new(alloc));
    }
    let cause = line_cause(alloc, line)?;
    listed(alloc, cause)
}

// The causes of a violation of a graph with a change. No one asks for the steps.
fn changed_causes<L: Ledger>(
    alloc: Global,
    graph: &Tables,
    compiled: &Compiled,
    text: &[u8],
    delta: &Delta,
    violation: &Violation,
    blank: Blank,
) -> Result<List<Bytes>, Memory>
    requires name { blank.name ≡ L.name }
    requires parts { blank.parts ≡ L.parts }
    requires some { 0 < blank.parts }
    requires sound { is_sound graph.now.graph delta.now ≡ true }
    requires schema { schema_of text.now ≡ schema compiled.now }
    ensures { IfOk result (AreViolationCauses text.now compiled.now (changed graph.now.graph delta.now) violation.now) }
{
    let mut steps: Steps<L> = Steps::begin(blank);
    let overlay = Overlay::new(alloc, graph, delta, &mut steps)?;
    violation_causes(alloc, &overlay, compiled, text, violation, &mut steps)
}

// The causes of a transaction that is rejected for a violation: those of the graph behind it, which is staged again.
fn causes_behind(
    alloc: Global,
    guard: &Guard,
    txn: &Txn,
    violation: &Violation,
) -> Result<List<Bytes>, Memory>
    requires { decision_on (verdict guard.now.schema) guard.now.graph txn.now ≡ Err (ByViolation violation.now) }
    ensures { IfOk result (AreStagedCauses guard.now.text guard.now.schema (staged standard guard.now.graph txn.now)) }
{
    match delta_of(alloc, guard.graph(), &Limits::standard(), txn) {
        Ok(delta) => changed_causes::<Brand>(
            alloc,
            guard.graph(),
            guard.compiled(),
            guard.schema_text(),
            &delta,
            violation,
            Blank::new(1),
        ),
        Err(StageFault::Memory) => Err(Memory),
        Err(StageFault::Refused(_)) => unreachable!(),
    }
}

/// The causes of a transaction that a guard rejects, of the graph behind the transaction; none where it can't be done.
pub(crate) fn rejection_causes(
    alloc: Global,
    guard: &Guard,
    txn: &Txn,
    rejection: &Rejection,
) -> Result<List<Bytes>, Memory>
    requires { decision_on (verdict guard.now.schema) guard.now.graph txn.now ≡ Err rejection.now }
    ensures { IfOk result (AreStagedCauses guard.now.text guard.now.schema (staged standard guard.now.graph txn.now)) }
{
    match rejection {
        Rejection::Structural(_) => Ok(List::new(alloc)),
        Rejection::Violation(violation) => causes_behind(alloc, guard, txn, violation),
    }
}
