ghost use Rattle.std.specs.Prelude.{◌≡◌, not, filter, flat_map, slice_get};
ghost use Rattle.std.specs.Option.{option_copied};
ghost use Rattle.pgs_syntax.specs.declared.script.Script.{Script};
ghost use Rattle.pgs_resolve_declared.specs.Declarations.{is_graph_type};
ghost use Rattle.pgs_resolve_declared.specs.Refused.{unknown_member, unknown_in, unknowns};
ghost use Rattle.pgs_resolve_declared.specs.Tables.{AreOf};

use crate::declarations::Declarations;
use pgs_base::Name;
use pgs_syntax::{GraphType, Member};

// The name of a member that is listed by a name that no element type has.
fn unknown_member<'m>(declarations: &Declarations<'_>, member: &'m Member) -> Option<&'m Name>
    ensures { (script : Script) → AreOf script declarations.now → option_copied result ≡ slice_get (unknown_member script member.now) 0 }
{
    match member {
        Member::Named(name) => {
            if declarations.is_node(name) || declarations.is_edge(name) {
                None
            } else {
                Some(name)
            }
        }
        Member::Node(_) | Member::Edge(_) => None,
    }
}

// The first import of no graph type's name.
fn unknown_import<'m>(declarations: &Declarations<'_>, imports: &'m [Name]) -> Option<&'m Name>
    ensures { (script : Script) → AreOf script declarations.now →
        option_copied result ≡ slice_get (filter (λ name. not (is_graph_type script name)) imports.now) 0 }
{
    for name in imports {
        if !declarations.is_graph(name) {
            return Some(name);
        }
    }
    None
}

// The first member that is listed by a name that no element type has.
fn unknown_listed<'m>(declarations: &Declarations<'_>, members: &'m [Member]) -> Option<&'m Name>
    ensures { (script : Script) → AreOf script declarations.now → option_copied result ≡ slice_get (flat_map (unknown_member script) members.now) 0 }
{
    for member in members {
        match unknown_member(declarations, member) {
            Some(name) => return Some(name),
            None => {}
        }
    }
    None
}

// The first name in a graph type that isn't declared.
fn unknown_in<'m>(declarations: &Declarations<'_>, graph: &'m GraphType) -> Option<&'m Name>
    ensures { (script : Script) → AreOf script declarations.now → option_copied result ≡ slice_get (unknown_in script graph.now) 0 }
{
    match unknown_import(declarations, graph.imports.as_slice()) {
        Some(name) => Some(name),
        None => unknown_listed(declarations, graph.members.as_slice()),
    }
}

/// The first name in the order of the tree that isn't declared: of a listed member, or of an import.
pub fn first_unknown<'a>(declarations: &Declarations<'a>) -> Option<&'a Name>
    ensures { (script : Script) → AreOf script declarations.now → option_copied result ≡ slice_get (unknowns script) 0 }
{
    for graph in &declarations.graphs {
        match unknown_in(declarations, graph) {
            Some(name) => return Some(name),
            None => {}
        }
    }
    None
}
