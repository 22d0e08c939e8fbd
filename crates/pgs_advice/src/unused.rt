//! What a guard doesn't use.

ghost use Rattle.std.specs.Prelude.{◌≡◌, ◌++◌, map, filter, IfOk, OnOk, if◌then◌else◌, [], ◌∷◌};
ghost use Rattle.pgs_syntax.specs.declared.script.Script.{Script};
ghost use Rattle.pgs_resolve_declared.specs.Tables.{AreOf};
ghost use Rattle.pgs_advice.specs.Unused.{is_outside, unused_graphs};

use pgs_base::{Copyable, Memory};
use pgs_resolve_declared::{Declarations, Names, guard_graphs};
use pgs_syntax::GraphType;
use std::alloc::Global;

// The names of graph types, in order.
fn names_of(alloc: Global, graphs: &[&GraphType]) -> Result<Names, Memory>
    ensures { IfOk result (λ names. names ≡ map (λ graph. graph.now.name) graphs.now) }
{
    let mut names = Names::new(alloc);
    for graph in graphs {
        names.push(alloc, graph.name.copy(alloc)?)?;
    }
    Ok(names)
}

// Puts a graph type last whose name isn't among these.
fn push_outside<'a>(
    names: &Names,
    graph: &'a GraphType,
    unused: &mut Vec<&'a GraphType>,
) -> Result<(), Memory>
    ensures { OnOk result (map (λ graph. graph.now) unused.new.items
        ≡ map (λ graph. graph.now) unused.old.items ++ (if is_outside names.now graph.now then graph.now ∷ [] else [])) }
{
    if !names.contains(&graph.name) {
        unused.push(graph)?;
    }
    Ok(())
}

// Of graph types those whose name isn't among these.
fn outside<'a>(
    alloc: Global,
    names: &Names,
    graphs: &[&'a GraphType],
) -> Result<Vec<&'a GraphType>, Memory>
    ensures { IfOk result (λ unused. map (λ graph. graph.now) unused.items ≡ filter (is_outside names.now) (map (λ graph. graph.now) graphs.now)) }
{
    let mut unused = Vec::new(alloc);
    for graph in graphs {
        push_outside(names, graph, &mut unused)?;
    }
    Ok(unused)
}

/// The graph types of a script, in order, that its guard doesn't import, also through imports, and that aren't the guard itself.
pub fn unused_graphs<'a>(
    alloc: Global,
    declarations: &Declarations<'a>,
) -> Result<Vec<&'a GraphType>, Memory>
    ensures { (script : Script) → AreOf script declarations.now → IfOk result (λ unused. map (λ graph. graph.now) unused.items ≡ unused_graphs script) }
{
    let used = guard_graphs(alloc, declarations)?;
    let names = names_of(alloc, &used)?;
    outside(alloc, &names, &declarations.graphs)
}
