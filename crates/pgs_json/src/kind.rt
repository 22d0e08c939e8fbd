//! Which kind of operation an object is: the member that names it tells.

ghost use Rattle.std.specs.Prelude.{◌≡◌, map};
ghost use Rattle.pgs_json.specs.Kinds.{kind_at, kind_named, kind_in};
ghost use Rattle.pgs_json.specs.Tree.{members_view};

use crate::tree::Member;

/// A kind of operation.
#[derive(Clone, Copy, PartialEq, Eq)]
pub enum Kind {
    AddNode,
    AddEdge,
    RemoveNode,
    DetachNode,
    RemoveEdge,
    SetNode,
    UnsetNode,
    LabelNode,
    UnlabelNode,
    SetEdge,
    UnsetEdge,
    LabelEdge,
    UnlabelEdge,
}

/// The member that names each kind.
const KINDS: [(&str, Kind); 13] = [
    ("add_node", Kind::AddNode),
    ("add_edge", Kind::AddEdge),
    ("set_node", Kind::SetNode),
    ("set_edge", Kind::SetEdge),
    ("unset_node", Kind::UnsetNode),
    ("unset_edge", Kind::UnsetEdge),
    ("label_node", Kind::LabelNode),
    ("label_edge", Kind::LabelEdge),
    ("unlabel_node", Kind::UnlabelNode),
    ("unlabel_edge", Kind::UnlabelEdge),
    ("remove_node", Kind::RemoveNode),
    ("remove_edge", Kind::RemoveEdge),
    ("detach_node", Kind::DetachNode),
];

/// The kind at a name in a table.
fn kind_at(kinds: &[(&str, Kind)], name: &str) -> Option<Kind>
    ensures { result ≡ kind_at (map (λ row. (row.0.now, row.1)) kinds.now) name.now }
{
    match kinds {
        [] => None,
        [(word, kind), others @ ..] => {
            if name == *word {
                Some(*kind)
            } else {
                kind_at(others, name)
            }
        }
    }
}

/// The kind that a member of this name tells.
#[tactic(auto, unfolding(crate::specs::Kinds::kind_named))]
pub fn kind_named(name: &str) -> Option<Kind>
    ensures { result ≡ kind_named name.now }
{
    kind_at(&KINDS, name)
}

/// The kind that the first member with a kind's name tells.
pub fn kind_in(members: &[Member<'_>]) -> Option<Kind>
    ensures { result ≡ kind_in (members_view members.now) }
{
    for (name, _) in members {
        if let Some(kind) = kind_named(name) {
            return Some(kind);
        }
    }
    None
}
