ghost use Rattle.std.specs.Prelude.{◌≡◌, true, None, IfOk, OnOk, IfErr};
ghost use Rattle.pgs_syntax.specs.Valid.{is_valid};
ghost use Rattle.pgs_syntax.specs.Width.{first_too_wide};
ghost use Rattle.pgs_shapes.specs.Fault.{IsTold};

use crate::edges::edge_triples;
use crate::fault::CompileFault;
use crate::nodes::node_shapes;
use pgs_base::{List, Memory};
use pgs_conform::Compiled;
use pgs_syntax::Resolved;
use pgs_width::first_too_wide;
use std::alloc::Global;

// The compiled form of a valid schema in which no type is too wide: whether one is has to be known before anything is made.
fn compile_types(alloc: Global, resolved: Resolved) -> Result<Compiled, Memory>
    requires valid { is_valid resolved ≡ true }
    requires narrow { first_too_wide resolved ≡ None }
    ensures { IfOk result (λ compiled. compiled ≡ resolved) }
{
    let nodes = node_shapes(alloc, &resolved)?;
    let edges = edge_triples(alloc, &nodes, &resolved)?;
    Ok(Compiled::new(resolved, List::from_vec(nodes), List::from_vec(edges)))
}

/// The compiled form of a valid schema, which keeps the schema: each type gets the list of its shapes. `TooWide` exactly where a
/// type is too wide, by the rule `first_too_wide` of `pgs_syntax`, with the name of the first such type; nothing is made then. The
/// schema is given up where it is refused. `Memory` where there was none left.
pub fn compile(alloc: Global, resolved: Resolved) -> Result<Compiled, CompileFault>
    requires { is_valid resolved ≡ true }
    ensures kept { IfOk result (λ compiled. compiled ≡ resolved) }
    ensures narrow { OnOk result (first_too_wide resolved ≡ None) }
    ensures refused { IfErr result (IsTold resolved) }
{
    match first_too_wide(alloc, &resolved)? {
        Some(name) => Err(CompileFault::TooWide { name }),
        None => Ok(compile_types(alloc, resolved)?),
    }
}
