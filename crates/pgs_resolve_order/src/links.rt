ghost use Rattle.std.specs.Prelude.{◌≡◌, ◌++◌, [], map, filter_map, slice_index_or, IfOk, OnOk, List, ℕ};
ghost use Rattle.std.specs.Option.{option_map_or, option_to_list};
ghost use Rattle.pgs_syntax.specs.declared.script.Script.{Script};
ghost use Rattle.pgs_syntax.specs.declared.element_type.NodeType.{NodeType};
ghost use Rattle.pgs_syntax.specs.declared.element_type.EdgeType.{EdgeType};
ghost use Rattle.pgs_syntax.specs.declared.script.GraphType.{GraphType};
ghost use Rattle.pgs_resolve_declared.specs.Declarations.{words_of, nodes_of, edges_of, graphs_of, node_named, edge_named};
ghost use Rattle.pgs_resolve_order.specs.Links.{AreLinks, row_at};
ghost use Rattle.pgs_resolve_declared.specs.Order.{number_in};
ghost use Rattle.pgs_resolve_declared.specs.Refused.{named_by, imported_by};
ghost use Rattle.pgs_resolve_declared.specs.Tables.{AreOf};

use pgs_base::{Copyable, List, Memory, Name};
use pgs_resolve_declared::{Declarations, Names, imports_of, words_of};
use pgs_syntax::Spec;
use std::alloc::Global;

/// The numbers that a number leads to: none where it has no row.
pub fn row_at(rows: &[List<u32>], number: usize) -> &[u32]
    ensures { result.now ≡ row_at rows.now number }
{
    match rows.get(number) {
        Some(row) => row.as_slice(),
        None => &[],
    }
}

// Puts the number of a word last, where it is among the names.
fn push_number(names: &Names, word: &Name, row: &mut Vec<u32>) -> Result<(), Memory>
    ensures { OnOk result (row.new.items ≡ row.old.items ++ option_to_list (number_in names.now word.now)) }
{
    match names.number(word) {
        Some(number) => row.push(number)?,
        None => {}
    }
    Ok(())
}

// Puts the numbers of words last, of those that are among the names.
fn push_numbers(names: &Names, words: &[Name], row: &mut Vec<u32>) -> Result<(), Memory>
    ensures { OnOk result (row.new.items ≡ row.old.items ++ filter_map (number_in names.now) words.now) }
{
    for word in words {
        push_number(names, word, row)?;
    }
    Ok(())
}

fn push_spec(
    alloc: Global,
    names: &Names,
    spec: &Spec<Name>,
    row: &mut Vec<u32>,
) -> Result<(), Memory>
    ensures { OnOk result (row.new.items ≡ row.old.items ++ filter_map (number_in names.now) (words_of spec.now)) }
{
    let words = words_of(alloc, spec)?;
    push_numbers(names, &words, row)
}

fn push_node(
    alloc: Global,
    declarations: &Declarations<'_>,
    names: &Names,
    name: &Name,
    row: &mut Vec<u32>,
) -> Result<(), Memory>
    ensures { (script : Script) → AreOf script declarations.now → OnOk result (row.new.items ≡ row.old.items ++ filter_map (number_in names.now)
        (option_map_or (λ (type : NodeType (List ℕ)). words_of type.spec) (node_named script name.now) [])) }
{
    match declarations.node(name) {
        Some(node) => push_spec(alloc, names, &node.spec, row),
        None => Ok(()),
    }
}

fn push_edge(
    alloc: Global,
    declarations: &Declarations<'_>,
    names: &Names,
    name: &Name,
    row: &mut Vec<u32>,
) -> Result<(), Memory>
    ensures { (script : Script) → AreOf script declarations.now → OnOk result (row.new.items ≡ row.old.items ++ filter_map (number_in names.now)
        (option_map_or (λ (type : EdgeType (List ℕ)). words_of type.source ++ words_of type.middle ++ words_of type.target) (edge_named script name.now) [])) }
{
    match declarations.edge(name) {
        Some(edge) => {
            push_spec(alloc, names, &edge.source, row)?;
            push_spec(alloc, names, &edge.middle, row)?;
            push_spec(alloc, names, &edge.target, row)?;
            Ok(())
        }
        None => Ok(()),
    }
}

// The numbers of the types that a type names.
fn type_row(
    alloc: Global,
    declarations: &Declarations<'_>,
    names: &Names,
    name: &Name,
) -> Result<List<u32>, Memory>
    ensures { (script : Script) → AreOf script declarations.now → IfOk result (λ row. row ≡ filter_map (number_in names.now) (named_by script name.now)) }
{
    let mut row = Vec::new(alloc);
    push_node(alloc, declarations, names, name, &mut row)?;
    push_edge(alloc, declarations, names, name, &mut row)?;
    Ok(List::from_vec(row))
}

// The numbers of the graph types that a graph type imports.
fn graph_row(
    alloc: Global,
    declarations: &Declarations<'_>,
    name: &Name,
) -> Result<List<u32>, Memory>
    ensures { (script : Script) → AreOf script declarations.now →
        IfOk result (λ row. row ≡ filter_map (number_in declarations.now.graph_names) (imported_by script name.now)) }
{
    let mut row = Vec::new(alloc);
    push_numbers(
        &declarations.graph_names,
        imports_of(declarations, name),
        &mut row,
    )?;
    Ok(List::from_vec(row))
}

// Puts copies of names last.
fn push_names(alloc: Global, more: &[Name], names: &mut Names) -> Result<(), Memory>
    ensures { OnOk result (names.new ≡ names.old ++ more.now) }
{
    for name in more {
        names.push(alloc, name.copy(alloc)?)?;
    }
    Ok(())
}

/// The names of all node types, and then of all edge types.
pub fn type_names(alloc: Global, declarations: &Declarations<'_>) -> Result<Names, Memory>
    ensures { IfOk result (λ names. names ≡ declarations.now.node_names ++ declarations.now.edge_names) }
{
    let mut names = Names::new(alloc);
    push_names(alloc, declarations.node_names.as_slice(), &mut names)?;
    push_names(alloc, declarations.edge_names.as_slice(), &mut names)?;
    Ok(names)
}

/// For each of some names the numbers of the types among them that its type names.
pub fn type_rows(
    alloc: Global,
    declarations: &Declarations<'_>,
    names: &Names,
) -> Result<Vec<List<u32>>, Memory>
    ensures { (script : Script) → AreOf script declarations.now →
        IfOk result (λ rows. rows.items ≡ map (λ name. filter_map (number_in names.now) (named_by script name)) names.now) }
{
    let mut rows = Vec::new(alloc);
    for name in names.as_slice() {
        rows.push(type_row(alloc, declarations, names, name)?)?;
    }
    Ok(rows)
}

/// For each graph type the numbers of those that it imports.
pub fn graph_rows(alloc: Global, declarations: &Declarations<'_>) -> Result<Vec<List<u32>>, Memory>
    ensures { (script : Script) → AreOf script declarations.now → IfOk result (λ rows. rows.items ≡
        map (λ name. filter_map (number_in declarations.now.graph_names) (imported_by script name)) declarations.now.graph_names) }
{
    let mut rows = Vec::new(alloc);
    for name in declarations.graph_names.as_slice() {
        rows.push(graph_row(alloc, declarations, name)?)?;
    }
    Ok(rows)
}
