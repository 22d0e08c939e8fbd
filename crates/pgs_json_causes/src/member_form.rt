ghost use Rattle.std.specs.Prelude.{◌≡◌, map};
ghost use Rattle.pgs_json_causes.specs.MemberForms.{is_optional, kind_word, members_of_kind};

use pgs_json::Kind;

/// What a member of an operation has to be.
#[derive(Clone, Copy)]
pub enum MemberForm {
    Id,
    Name,
    Value,
    /// A list of names, which may be left out.
    Labels,
    /// An object of values, which may be left out.
    Props,
}

/// A member of an operation: its name, and what it has to be.
pub type Row = (&'static str, MemberForm);

const ADD_NODE: [Row; 3] = [
    ("add_node", MemberForm::Id),
    ("labels", MemberForm::Labels),
    ("props", MemberForm::Props),
];

const ADD_EDGE: [Row; 5] = [
    ("add_edge", MemberForm::Id),
    ("from", MemberForm::Id),
    ("labels", MemberForm::Labels),
    ("props", MemberForm::Props),
    ("to", MemberForm::Id),
];

const REMOVE_NODE: [Row; 1] = [("remove_node", MemberForm::Id)];

const DETACH_NODE: [Row; 1] = [("detach_node", MemberForm::Id)];

const REMOVE_EDGE: [Row; 1] = [("remove_edge", MemberForm::Id)];

const SET_NODE: [Row; 3] = [
    ("key", MemberForm::Name),
    ("set_node", MemberForm::Id),
    ("value", MemberForm::Value),
];

const UNSET_NODE: [Row; 2] = [("key", MemberForm::Name), ("unset_node", MemberForm::Id)];

const LABEL_NODE: [Row; 2] = [("label", MemberForm::Name), ("label_node", MemberForm::Id)];

const UNLABEL_NODE: [Row; 2] = [
    ("label", MemberForm::Name),
    ("unlabel_node", MemberForm::Id),
];

const SET_EDGE: [Row; 3] = [
    ("key", MemberForm::Name),
    ("set_edge", MemberForm::Id),
    ("value", MemberForm::Value),
];

const UNSET_EDGE: [Row; 2] = [("key", MemberForm::Name), ("unset_edge", MemberForm::Id)];

const LABEL_EDGE: [Row; 2] = [("label", MemberForm::Name), ("label_edge", MemberForm::Id)];

const UNLABEL_EDGE: [Row; 2] = [
    ("label", MemberForm::Name),
    ("unlabel_edge", MemberForm::Id),
];

impl MemberForm {
    /// Whether a member of this form may be left out.
    pub fn is_optional(self) -> bool
        ensures { result ≡ is_optional self }
    {
        matches!(self, MemberForm::Labels | MemberForm::Props)
    }
}

/// The member that names a kind of operation.
pub fn kind_word(kind: Kind) -> &'static str
    ensures { result.now ≡ kind_word kind }
{
    match kind {
        Kind::AddNode => "add_node",
        Kind::AddEdge => "add_edge",
        Kind::RemoveNode => "remove_node",
        Kind::DetachNode => "detach_node",
        Kind::RemoveEdge => "remove_edge",
        Kind::SetNode => "set_node",
        Kind::UnsetNode => "unset_node",
        Kind::LabelNode => "label_node",
        Kind::UnlabelNode => "unlabel_node",
        Kind::SetEdge => "set_edge",
        Kind::UnsetEdge => "unset_edge",
        Kind::LabelEdge => "label_edge",
        Kind::UnlabelEdge => "unlabel_edge",
    }
}

/// The members of an operation of a kind, in the order of their names.
pub fn members_of_kind(kind: Kind) -> &'static [Row]
    ensures { map (λ row. (row.0.now, row.1)) result.now ≡ members_of_kind kind }
{
    match kind {
        Kind::AddNode => &ADD_NODE,
        Kind::AddEdge => &ADD_EDGE,
        Kind::RemoveNode => &REMOVE_NODE,
        Kind::DetachNode => &DETACH_NODE,
        Kind::RemoveEdge => &REMOVE_EDGE,
        Kind::SetNode => &SET_NODE,
        Kind::UnsetNode => &UNSET_NODE,
        Kind::LabelNode => &LABEL_NODE,
        Kind::UnlabelNode => &UNLABEL_NODE,
        Kind::SetEdge => &SET_EDGE,
        Kind::UnsetEdge => &UNSET_EDGE,
        Kind::LabelEdge => &LABEL_EDGE,
        Kind::UnlabelEdge => &UNLABEL_EDGE,
    }
}
