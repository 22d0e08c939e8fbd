ghost use Rattle.std.specs.Prelude.{◌≡◌, ◌≤◌, [], ◌∷◌, ◌++◌, length, map, filter_map, IfOk, OnOk, MatchOption};
ghost use Rattle.std.specs.List.{sum_by};
ghost use Rattle.pgs_syntax.specs.declared.script.Script.{Script};
ghost use Rattle.std.specs.Option.{option_copied, option_to_list};
ghost use Rattle.pgs_resolve_declared.specs.Declarations.{graphs_of, graph_named};
ghost use Rattle.pgs_resolve_declared.specs.Imports.{walked, last_of, walked_graphs};
ghost use Rattle.pgs_resolve_declared.specs.Refused.{imported_by};
ghost use Rattle.pgs_resolve_declared.specs.Tables.{AreOf};

use crate::declarations::{Declarations, at, put};
use crate::names::Names;
use pgs_base::{Copyable, Memory, Name};
use pgs_syntax::GraphType;
use std::alloc::Global;

// A graph type on the way: its name, which is told after its imports; the imports that are left; how deep they are walked.
#[derive(Clone, Copy)]
struct Frame<'a> {
    name: &'a Name,
    rest: &'a [Name],
    depth: usize,
}

/// The names that the graph type of a name imports: none where there is no such graph type. They are no more than all
/// graph types together import.
pub fn imports_of<'a>(declarations: &Declarations<'a>, name: &Name) -> &'a [Name]
    ensures value { (script : Script) → AreOf script declarations.now → result.now ≡ imported_by script name.now }
    ensures within { length result.now ≤ sum_by (λ type. length type.now.imports) declarations.now.graphs.items }
{
    match declarations.graph(name) {
        Some(graph) => graph.imports.as_slice(),
        None => &[],
    }
}

/// The first name and those behind it. `None` exactly where there is none.
pub fn split(names: &[Name]) -> Option<(&Name, &[Name])>
    ensures { MatchOption result (names.now ≡ []) (λ next. names.now ≡ next.0.now ∷ next.1.now) }
{
    match names {
        [] => None,
        [first, rest @ ..] => Some((first, rest)),
    }
}

/// The names that are walked from a graph type on, depth first, each after its imports and once. Imports are walked no
/// deeper than there are graph types.
pub fn walk<'a>(
    alloc: Global,
    declarations: &Declarations<'a>,
    name: &'a Name,
) -> Result<Names, Memory>
    ensures { (script : Script) → AreOf script declarations.now →
        IfOk result (λ names. names ≡ walked script (length declarations.now.graphs.items) [] name.now) }
{
    let mut names = Names::new(alloc);
    let mut stack = Vec::new(alloc);
    let depth = declarations.graphs.len();
    if depth == 0 {
        return Ok(names);
    }
    stack.push(Frame {
        name,
        rest: imports_of(declarations, name),
        depth: depth - 1,
    })?;
    while let Some(frame) = stack.pop() {
        match split(frame.rest) {
            None => names.push(alloc, frame.name.copy(alloc)?)?,
            Some(next) => {
                stack.push(Frame {
                    rest: next.1,
                    ..frame
                })?;
                if frame.depth == 0 || names.contains(next.0) {
                    continue;
                }
                stack.push(Frame {
                    name: next.0,
                    rest: imports_of(declarations, next.0),
                    depth: frame.depth - 1,
                })?;
            }
        }
    }
    Ok(names)
}

/// The last graph type. `None` exactly where there is none.
pub fn last_graph<'a>(declarations: &Declarations<'a>) -> Option<&'a GraphType>
    ensures { (script : Script) → AreOf script declarations.now → option_copied result ≡ last_of (graphs_of script) }
{
    let count = declarations.graphs.len();
    if count == 0 {
        return None;
    }
    at(&declarations.graphs, count - 1)
}

fn push_graph<'a>(
    declarations: &Declarations<'a>,
    name: &Name,
    graphs: &mut Vec<&'a GraphType>,
) -> Result<(), Memory>
    ensures { (script : Script) → AreOf script declarations.now →
        OnOk result (map (λ graph. graph.now) graphs.new.items ≡ map (λ graph. graph.now) graphs.old.items ++ option_to_list (graph_named script name.now)) }
{
    match declarations.graph(name) {
        Some(graph) => put(graphs, graph),
        None => Ok(()),
    }
}

fn push_graphs<'a>(
    declarations: &Declarations<'a>,
    names: &[Name],
    graphs: &mut Vec<&'a GraphType>,
) -> Result<(), Memory>
    ensures { (script : Script) → AreOf script declarations.now →
        OnOk result (map (λ graph. graph.now) graphs.new.items ≡ map (λ graph. graph.now) graphs.old.items ++ filter_map (graph_named script) names.now) }
{
    for name in names {
        push_graph(declarations, name, graphs)?;
    }
    Ok(())
}

/// The graph types whose members and keys count, in order: the last one, after those that it imports.
pub fn guard_graphs<'a>(
    alloc: Global,
    declarations: &Declarations<'a>,
) -> Result<Vec<&'a GraphType>, Memory>
    ensures { (script : Script) → AreOf script declarations.now →
        IfOk result (λ graphs. map (λ graph. graph.now) graphs.items ≡ walked_graphs script) }
{
    match last_graph(declarations) {
        Some(last) => {
            let names = walk(alloc, declarations, &last.name)?;
            let mut graphs = Vec::new(alloc);
            push_graphs(declarations, names.as_slice(), &mut graphs)?;
            Ok(graphs)
        }
        None => Ok(Vec::new(alloc)),
    }
}
