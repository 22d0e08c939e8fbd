ghost use Rattle.std.specs.Prelude.{◌≡◌, ◌≤◌, IfOk};
ghost use Rattle.pgs_resolve.specs.SchemaOf.{schema, schema_of};
ghost use Rattle.pgs_violation_causes.specs.Causes.{AreViolationCauses};

use crate::keys::causes_of_key;
use crate::types::{edge_causes, node_causes};
use pgs_base::{Bytes, List, Memory, Steps};
use pgs_conform::Compiled;
use pgs_graph::GraphRead;
use pgs_violation::Violation;
use std::alloc::Global;
use std::sync::ledger::Ledger;

/// The causes of a violation of a graph under the schema of a text, each a text of one line without a line feed, in the order in which they
/// are told. Of a 25 and a 26 the types of the guard that the element comes nearest to, at most three, the nearest first, as
/// `Person: lacks label Person; age is STRING, not INT`; or that the guard has none that anything fits. Of the others the text of the key;
/// and of a 27, and of a 39 without a value, where its pattern ends. The rule is in `specs/Causes.antt`; `Memory` is free.
pub fn violation_causes<G: GraphRead, L: Ledger>(
    alloc: Global,
    graph: &G,
    compiled: &Compiled,
    text: &[u8],
    violation: &Violation,
    steps: &mut Steps<L>,
) -> Result<List<Bytes>, Memory>
    requires { schema_of text.now ≡ schema compiled.now }
    ensures causes { IfOk result (AreViolationCauses text.now compiled.now (G.meaning graph.now) violation.now) }
    ensures no_step_back { steps.old ≤ steps.new }
{
    match violation {
        Violation::UntypedNode { node } => node_causes(alloc, graph, compiled, *node, steps),
        Violation::UntypedEdge { edge } => edge_causes(alloc, graph, compiled, *edge, steps),
        Violation::Mandatory { .. }
        | Violation::Singleton { .. }
        | Violation::Exclusive { .. }
        | Violation::CountOutside { .. } => {
            causes_of_key(alloc, graph, compiled, text, violation, steps)
        }
    }
}
