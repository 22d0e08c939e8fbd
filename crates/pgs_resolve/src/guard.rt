ghost use Rattle.std.specs.Prelude.{◌≡◌, ℕ, false, List, [], ◌∷◌, ◌++◌, filter_map, flat_map, if◌then◌else◌, IfOk, OnOk, map};
ghost use Rattle.std.specs.Option.{option_to_list, option_map_or};
ghost use Rattle.pgs_base.specs.Pair.{has_name};
ghost use Rattle.pgs_syntax.specs.declared.script.GraphType.{GraphType};
ghost use Rattle.pgs_syntax.specs.declared.script.Script.{Script};
ghost use Rattle.pgs_resolve_declared.specs.Declarations.{graphs_of};
ghost use Rattle.pgs_resolve_declared.specs.Imports.{last_of};
ghost use Rattle.pgs_resolve.specs.Guard.{name_of, each_once, type_no, guarding};
ghost use Rattle.pgs_resolve.specs.Keyed.{AreKeyed};
ghost use Rattle.pgs_resolve_declared.specs.Tables.{AreOf};

use crate::guard_keys::resolve_keys;
use pgs_base::{Copyable, List, Memory, Name};
use pgs_resolve_declared::{Declarations, Names, Numbering, guard_graphs, last_graph};
use pgs_syntax::{GraphType, Guarding, Member, TypeNo};
use std::alloc::Global;

fn name_of(member: &Member) -> &Name
    ensures { result.now ≡ name_of member.now }
{
    match member {
        Member::Named(name) => name,
        Member::Node(node) => &node.get().name,
        Member::Edge(edge) => &edge.get().name,
    }
}

// The number of the type of a name: of a node type, or of an edge type.
fn type_no(numbering: &Numbering, name: &Name) -> Option<TypeNo>
    ensures { result ≡ type_no numbering.now name.now }
{
    match numbering.nodes.number(name) {
        Some(number) => Some(TypeNo::Node(number)),
        None => match numbering.edges.number(name) {
            Some(number) => Some(TypeNo::Edge(number)),
            None => None,
        },
    }
}

// Puts the name of a member last where it isn't there.
fn list_member(alloc: Global, member: &Member, names: &mut Names) -> Result<(), Memory>
    ensures { OnOk result (names.new ≡ names.old ++ (if has_name (name_of member.now) names.old then [] else name_of member.now ∷ [])) }
{
    let name = name_of(member);
    if !names.contains(name) {
        names.push(alloc, name.copy(alloc)?)?;
    }
    Ok(())
}

// Puts the names of members last that aren't there.
fn list_members(alloc: Global, members: &[Member], names: &mut Names) -> Result<(), Memory>
    ensures { (before : List (List ℕ)) → names.old ≡ each_once before → OnOk result (names.new ≡ each_once (before ++ map name_of members.now)) }
{
    for member in members {
        list_member(alloc, member, names)?;
    }
    Ok(())
}

// The names of the members of graph types, each once, by their first places.
fn member_names(alloc: Global, graphs: &[&GraphType]) -> Result<Names, Memory>
    ensures { IfOk result (λ names. names ≡ each_once (map name_of (flat_map (λ graph. graph.now.members) graphs.now))) }
{
    let mut names = Names::new(alloc);
    for graph in graphs {
        list_members(alloc, graph.members.as_slice(), &mut names)?;
    }
    Ok(names)
}

fn push_number(numbering: &Numbering, name: &Name, types: &mut Vec<TypeNo>) -> Result<(), Memory>
    ensures { OnOk result (types.new.items ≡ types.old.items ++ option_to_list (type_no numbering.now name.now)) }
{
    if let Some(number) = type_no(numbering, name) {
        types.push(number)?;
    }
    Ok(())
}

fn numbers_of(alloc: Global, numbering: &Numbering, names: &[Name]) -> Result<Vec<TypeNo>, Memory>
    ensures { IfOk result (λ types. types.items ≡ filter_map (type_no numbering.now) names.now) }
{
    let mut types = Vec::new(alloc);
    for name in names {
        push_number(numbering, name, &mut types)?;
    }
    Ok(types)
}

// The numbers of the types that graph types list, each once, by their first places.
fn listed_types(
    alloc: Global,
    numbering: &Numbering,
    graphs: &[&GraphType],
) -> Result<Vec<TypeNo>, Memory>
    ensures { IfOk result (λ types. types.items ≡ filter_map (type_no numbering.now)
        (each_once (map name_of (flat_map (λ graph. graph.now.members) graphs.now)))) }
{
    let names = member_names(alloc, graphs)?;
    numbers_of(alloc, numbering, names.as_slice())
}

// The guard's own word STRICT, and false where there is no graph type.
fn is_strict(declarations: &Declarations<'_>) -> bool
    ensures { (script : Script) → AreOf script declarations.now →
        result ≡ option_map_or (λ (type : GraphType). type.strict) (last_of (graphs_of script)) false }
{
    match last_graph(declarations) {
        Some(last) => last.strict,
        None => false,
    }
}

/// What the guard asks: its own word, and the types and keys of the graph types that it imports and of itself.
pub fn guarding(
    alloc: Global,
    declarations: &Declarations<'_>,
    numbering: &Numbering,
) -> Result<Guarding, Memory>
    requires { AreKeyed declarations.now }
    ensures { (script : Script) → AreOf script declarations.now → IfOk result (λ guard. guard ≡ guarding script numbering.now) }
{
    let graphs = guard_graphs(alloc, declarations)?;
    let types = listed_types(alloc, numbering, &graphs)?;
    let keys = resolve_keys(alloc, numbering, &graphs)?;
    Ok(Guarding {
        strict: is_strict(declarations),
        types: List::from_vec(types),
        keys: List::from_vec(keys),
    })
}
