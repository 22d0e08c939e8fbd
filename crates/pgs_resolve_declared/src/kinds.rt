ghost use Rattle.std.specs.Prelude.{◌≡◌, ◌++◌, map, filter, flat_map, false, true, slice_get, IfOk, OnOk};
ghost use Rattle.std.specs.Option.{option_copied, option_map_or};
ghost use Rattle.pgs_syntax.specs.declared.script.Script.{Script};
ghost use Rattle.pgs_resolve_declared.specs.Declarations.{words_of};
ghost use Rattle.pgs_resolve_declared.specs.Refused.{uses_as, uses_in_member, uses_in_step, uses_in_path, uses_in_key, uses_in, is_wrong, wrong_kinds};
ghost use Rattle.pgs_resolve_declared.specs.Tables.{AreOf};

use crate::declarations::Declarations;
use crate::pieces::words_of;
use pgs_base::{Copyable, Memory, Name};
use pgs_syntax::{EdgeType, Member, NodeType, RawKey, RawPath, RawStep, Script, Spec, Statement};
use std::alloc::Global;

/// A name where element types of one kind may be named: edge types with `of_edge`, else node types.
#[derive(Drop)]
pub struct Use {
    pub of_edge: bool,
    pub name: Name,
}

// Puts the uses of names last.
fn use_names(
    alloc: Global,
    of_edge: bool,
    names: &[Name],
    uses: &mut Vec<Use>,
) -> Result<(), Memory>
    ensures { OnOk result (uses.new.items ≡ uses.old.items ++ uses_as of_edge names.now) }
{
    for name in names {
        let name = name.copy(alloc)?;
        uses.push(Use { of_edge, name })?;
    }
    Ok(())
}

fn use_spec(
    alloc: Global,
    of_edge: bool,
    spec: &Spec<Name>,
    uses: &mut Vec<Use>,
) -> Result<(), Memory>
    ensures { OnOk result (uses.new.items ≡ uses.old.items ++ uses_as of_edge (words_of spec.now)) }
{
    let words = words_of(alloc, spec)?;
    use_names(alloc, of_edge, &words, uses)
}

fn use_node_type(alloc: Global, node: &NodeType<Name>, uses: &mut Vec<Use>) -> Result<(), Memory>
    ensures { OnOk result (uses.new.items ≡ uses.old.items ++ uses_as false (words_of node.now.spec)) }
{
    use_spec(alloc, false, &node.spec, uses)
}

fn use_edge_type(alloc: Global, edge: &EdgeType<Name>, uses: &mut Vec<Use>) -> Result<(), Memory>
    ensures { OnOk result (uses.new.items ≡ uses.old.items
        ++ (uses_as false (words_of edge.now.source) ++ uses_as true (words_of edge.now.middle) ++ uses_as false (words_of edge.now.target))) }
{
    use_spec(alloc, false, &edge.source, uses)?;
    use_spec(alloc, true, &edge.middle, uses)?;
    use_spec(alloc, false, &edge.target, uses)
}

fn use_member(alloc: Global, member: &Member, uses: &mut Vec<Use>) -> Result<(), Memory>
    ensures { OnOk result (uses.new.items ≡ uses.old.items ++ uses_in_member member.now) }
{
    match member {
        Member::Named(_) => Ok(()),
        Member::Node(node) => use_node_type(alloc, node.get(), uses),
        Member::Edge(edge) => use_edge_type(alloc, edge.get(), uses),
    }
}

fn use_step(alloc: Global, step: &RawStep, uses: &mut Vec<Use>) -> Result<(), Memory>
    ensures { OnOk result (uses.new.items ≡ uses.old.items ++ uses_in_step step.now) }
{
    use_names(alloc, true, step.edge.filter.names.as_slice(), uses)?;
    use_names(alloc, false, step.node.filter.names.as_slice(), uses)
}

fn use_steps(alloc: Global, steps: &[RawStep], uses: &mut Vec<Use>) -> Result<(), Memory>
    ensures { OnOk result (uses.new.items ≡ uses.old.items ++ flat_map uses_in_step steps.now) }
{
    for step in steps {
        use_step(alloc, step, uses)?;
    }
    Ok(())
}

fn use_path(alloc: Global, path: &RawPath, uses: &mut Vec<Use>) -> Result<(), Memory>
    ensures { OnOk result (uses.new.items ≡ uses.old.items ++ uses_in_path path.now) }
{
    use_names(alloc, false, path.start.filter.names.as_slice(), uses)?;
    use_steps(alloc, path.steps.as_slice(), uses)
}

fn use_paths(alloc: Global, paths: &[RawPath], uses: &mut Vec<Use>) -> Result<(), Memory>
    ensures { OnOk result (uses.new.items ≡ uses.old.items ++ flat_map uses_in_path paths.now) }
{
    for path in paths {
        use_path(alloc, path, uses)?;
    }
    Ok(())
}

fn use_key(alloc: Global, key: &RawKey, uses: &mut Vec<Use>) -> Result<(), Memory>
    ensures { OnOk result (uses.new.items ≡ uses.old.items ++ uses_in_key key.now) }
{
    use_paths(alloc, key.scope.as_slice(), uses)?;
    match &key.within {
        Some(paths) => use_paths(alloc, paths.as_slice(), uses),
        None => Ok(()),
    }
}

fn use_members(alloc: Global, members: &[Member], uses: &mut Vec<Use>) -> Result<(), Memory>
    ensures { OnOk result (uses.new.items ≡ uses.old.items ++ flat_map uses_in_member members.now) }
{
    for member in members {
        use_member(alloc, member, uses)?;
    }
    Ok(())
}

fn use_keys(alloc: Global, keys: &[RawKey], uses: &mut Vec<Use>) -> Result<(), Memory>
    ensures { OnOk result (uses.new.items ≡ uses.old.items ++ flat_map uses_in_key keys.now) }
{
    for key in keys {
        use_key(alloc, key, uses)?;
    }
    Ok(())
}

fn use_statement(alloc: Global, statement: &Statement, uses: &mut Vec<Use>) -> Result<(), Memory>
    ensures { OnOk result (uses.new.items ≡ uses.old.items ++ uses_in statement.now) }
{
    match statement {
        Statement::Node(node) => use_node_type(alloc, node.get(), uses),
        Statement::Edge(edge) => use_edge_type(alloc, edge.get(), uses),
        Statement::Graph(graph) => {
            let graph = graph.get();
            use_members(alloc, graph.members.as_slice(), uses)?;
            use_keys(alloc, graph.keys.as_slice(), uses)
        }
    }
}

fn all_uses(alloc: Global, script: &Script) -> Result<Vec<Use>, Memory>
    ensures { IfOk result (λ uses. uses.items ≡ flat_map uses_in script.now.statements) }
{
    let mut uses = Vec::new(alloc);
    for statement in script.statements.as_slice() {
        use_statement(alloc, statement, &mut uses)?;
    }
    Ok(uses)
}

fn is_wrong(declarations: &Declarations<'_>, meant: &Use) -> bool
    ensures { (script : Script) → AreOf script declarations.now → result ≡ is_wrong script meant.now }
{
    if meant.of_edge {
        declarations.is_node(&meant.name)
    } else {
        declarations.is_edge(&meant.name)
    }
}

fn first_wrong_of<'u>(declarations: &Declarations<'_>, uses: &'u [Use]) -> Option<&'u Name>
    ensures { (script : Script) → AreOf script declarations.now →
        option_copied result ≡ slice_get (map (λ meant. meant.name) (filter (is_wrong script) uses.now)) 0 }
{
    for meant in uses {
        if is_wrong(declarations, meant) {
            return Some(&meant.name);
        }
    }
    None
}

/// The first name in the order of the tree that is one of a node type where an edge type may be named, or of an edge
/// type where a node type may be.
pub fn first_wrong(
    alloc: Global,
    declarations: &Declarations<'_>,
    script: &Script,
) -> Result<Option<Name>, Memory>
    requires { AreOf script.now declarations.now }
    ensures { IfOk result (λ name. name ≡ slice_get (wrong_kinds script.now) 0) }
{
    let uses = all_uses(alloc, script)?;
    match first_wrong_of(declarations, &uses) {
        Some(name) => Ok(Some(name.copy(alloc)?)),
        None => Ok(None),
    }
}
