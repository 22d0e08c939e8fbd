//! The grammar of scripts as rules that the next token chooses (docs/GRAMMAR.md, "Statements"). They find places in a text that is refused;
//! what is a script, `pgs_parser` says.

use self::Symbol::{AtMost, Day, Least, Name, Nothing, Number, Once, Text, Then, Word};

/// What a name is where it stands.
#[derive(Clone, Copy, PartialEq, Eq)]
pub(crate) enum Role {
    /// It declares a node type, an edge type, a graph type or a property.
    NodeType,
    EdgeType,
    GraphType,
    Property,
    /// It lists a member or an import.
    Member,
    Import,
    /// It is a label or a type of a node, or of an edge. The rules have the first for both; brackets tell them apart.
    Label,
    EdgeLabel,
    /// It is a variable or a key. All tokens that are no names have this role too.
    Other,
}

/// What may stand at a place.
#[derive(Clone, Copy)]
pub(crate) enum Symbol {
    /// This keyword or sign.
    Word(&'static [u8]),
    /// The keyword of a qualifier, which stands once in a key.
    Once(&'static [u8]),
    Name(Role),
    Number,
    /// The first number of COUNT.
    Least,
    /// The second number of COUNT.
    AtMost,
    Text,
    /// A string that is a day.
    Day,
    /// This part of the grammar.
    Then(Part),
    /// Nothing: the part may be left out.
    Nothing,
}

/// The parts of the grammar. Each is named by what it is, or by what it stands behind.
#[derive(Clone, Copy)]
pub(crate) enum Part {
    Script,
    Created,
    CreatedAbstract,
    DeclaredNode,
    DeclaredEdge,
    NodeType,
    EdgeType,
    Arrow,
    Middle,
    End,
    Labels,
    Unit,
    UnitEnd,
    MoreUnits,
    Optional,
    Open,
    Braces,
    Properties,
    MoreProperties,
    Property,
    Kind,
    Mode,
    Imports,
    MoreImports,
    Members,
    MoreMembers,
    Member,
    Element,
    NodeOrEnd,
    Scope,
    MoreScope,
    Node,
    Edge,
    Variable,
    Names,
    MoreNames,
    Tests,
    Test,
    MoreTests,
    Literal,
    Steps,
    Qualifiers,
    MoreQualifiers,
    Qualifier,
    Expression,
    Key,
    MoreExpressions,
    ExpressionOrKey,
    MorePaths,
    PathOrKey,
}

/// One form of a part: what it begins with, and what follows that.
#[derive(Clone, Copy)]
pub(crate) struct Form(pub Symbol, pub &'static [Symbol]);

// ---- statements

static SCRIPT: [Form; 2] = [
    Form(
        Word(b"CREATE"),
        &[Then(Part::Created), Word(b";"), Then(Part::Script)],
    ),
    Form(Nothing, &[]),
];

static CREATED: [Form; 4] = [
    Form(Word(b"ABSTRACT"), &[Then(Part::CreatedAbstract)]),
    Form(Word(b"NODE"), &[Word(b"TYPE"), Then(Part::DeclaredNode)]),
    Form(Word(b"EDGE"), &[Word(b"TYPE"), Then(Part::DeclaredEdge)]),
    Form(
        Word(b"GRAPH"),
        &[
            Word(b"TYPE"),
            Name(Role::GraphType),
            Then(Part::Mode),
            Then(Part::Imports),
            Word(b"{"),
            Then(Part::Members),
            Word(b"}"),
        ],
    ),
];

static CREATED_ABSTRACT: [Form; 2] = [
    Form(Word(b"NODE"), &[Word(b"TYPE"), Then(Part::NodeType)]),
    Form(Word(b"EDGE"), &[Word(b"TYPE"), Then(Part::EdgeType)]),
];

static DECLARED_NODE: [Form; 2] = [
    Form(Word(b"ABSTRACT"), &[Then(Part::NodeType)]),
    Form(
        Word(b"("),
        &[
            Name(Role::NodeType),
            Then(Part::Labels),
            Then(Part::Open),
            Then(Part::Braces),
            Word(b")"),
        ],
    ),
];

static DECLARED_EDGE: [Form; 2] = [
    Form(Word(b"ABSTRACT"), &[Then(Part::EdgeType)]),
    Form(
        Word(b"("),
        &[
            Then(Part::Labels),
            Then(Part::Open),
            Then(Part::Braces),
            Word(b")"),
            Then(Part::Arrow),
        ],
    ),
];

// ---- element types

static NODE_TYPE: [Form; 1] = [Form(
    Word(b"("),
    &[
        Name(Role::NodeType),
        Then(Part::Labels),
        Then(Part::Open),
        Then(Part::Braces),
        Word(b")"),
    ],
)];

static EDGE_TYPE: [Form; 1] = [Form(
    Word(b"("),
    &[
        Then(Part::Labels),
        Then(Part::Open),
        Then(Part::Braces),
        Word(b")"),
        Then(Part::Arrow),
    ],
)];

static ARROW: [Form; 2] = [
    Form(
        Word(b"-"),
        &[Then(Part::Middle), Word(b"->"), Then(Part::End)],
    ),
    Form(
        Word(b"<-"),
        &[Then(Part::Middle), Word(b"-"), Then(Part::End)],
    ),
];

static MIDDLE: [Form; 1] = [Form(
    Word(b"["),
    &[
        Name(Role::EdgeType),
        Then(Part::Labels),
        Then(Part::Open),
        Then(Part::Braces),
        Word(b"]"),
    ],
)];

static END: [Form; 1] = [Form(
    Word(b"("),
    &[
        Then(Part::Labels),
        Then(Part::Open),
        Then(Part::Braces),
        Word(b")"),
    ],
)];

static LABELS: [Form; 2] = [Form(Word(b":"), &[Then(Part::Unit)]), Form(Nothing, &[])];

static UNIT: [Form; 2] = [
    Form(
        Name(Role::Label),
        &[Then(Part::Optional), Then(Part::MoreUnits)],
    ),
    Form(Word(b"("), &[Then(Part::Unit), Then(Part::UnitEnd)]),
];

static UNIT_END: [Form; 1] = [Form(Word(b")"), &[Then(Part::Optional), Then(Part::MoreUnits)])];

static MORE_UNITS: [Form; 3] = [
    Form(Word(b"&"), &[Then(Part::Unit)]),
    Form(Word(b"|"), &[Then(Part::Unit)]),
    Form(Nothing, &[]),
];

static OPTIONAL: [Form; 2] = [Form(Word(b"?"), &[]), Form(Nothing, &[])];

static OPEN: [Form; 2] = [Form(Word(b"OPEN"), &[]), Form(Nothing, &[])];

static BRACES: [Form; 2] = [
    Form(Word(b"{"), &[Then(Part::Properties)]),
    Form(Nothing, &[]),
];

static PROPERTIES: [Form; 4] = [
    Form(Word(b"}"), &[]),
    Form(Word(b"OPEN"), &[Word(b"}")]),
    Form(
        Word(b"OPTIONAL"),
        &[
            Name(Role::Property),
            Then(Part::Kind),
            Then(Part::MoreProperties),
        ],
    ),
    Form(
        Name(Role::Property),
        &[Then(Part::Kind), Then(Part::MoreProperties)],
    ),
];

static MORE_PROPERTIES: [Form; 2] = [
    Form(Word(b"}"), &[]),
    Form(Word(b","), &[Then(Part::Property)]),
];

static PROPERTY: [Form; 3] = [
    Form(Word(b"OPEN"), &[Word(b"}")]),
    Form(
        Word(b"OPTIONAL"),
        &[
            Name(Role::Property),
            Then(Part::Kind),
            Then(Part::MoreProperties),
        ],
    ),
    Form(
        Name(Role::Property),
        &[Then(Part::Kind), Then(Part::MoreProperties)],
    ),
];

static KIND: [Form; 4] = [
    Form(Word(b"STRING"), &[]),
    Form(Word(b"INT"), &[]),
    Form(Word(b"BOOL"), &[]),
    Form(Word(b"DATE"), &[]),
];

// ---- graph types

static MODE: [Form; 2] = [Form(Word(b"STRICT"), &[]), Form(Word(b"LOOSE"), &[])];

static IMPORTS: [Form; 2] = [
    Form(
        Word(b"IMPORTS"),
        &[Name(Role::Import), Then(Part::MoreImports)],
    ),
    Form(Nothing, &[]),
];

static MORE_IMPORTS: [Form; 2] = [
    Form(Word(b","), &[Name(Role::Import), Then(Part::MoreImports)]),
    Form(Nothing, &[]),
];

static MEMBERS: [Form; 5] = [
    Form(Name(Role::Member), &[Then(Part::MoreMembers)]),
    Form(
        Word(b"ABSTRACT"),
        &[Then(Part::Element), Then(Part::MoreMembers)],
    ),
    Form(
        Word(b"("),
        &[Then(Part::NodeOrEnd), Then(Part::MoreMembers)],
    ),
    Form(Word(b"FOR"), &[Then(Part::Scope)]),
    Form(Nothing, &[]),
];

static MORE_MEMBERS: [Form; 2] = [Form(Word(b","), &[Then(Part::Member)]), Form(Nothing, &[])];

static MEMBER: [Form; 4] = [
    Form(Name(Role::Member), &[Then(Part::MoreMembers)]),
    Form(
        Word(b"ABSTRACT"),
        &[Then(Part::Element), Then(Part::MoreMembers)],
    ),
    Form(
        Word(b"("),
        &[Then(Part::NodeOrEnd), Then(Part::MoreMembers)],
    ),
    Form(Word(b"FOR"), &[Then(Part::Scope)]),
];

static ELEMENT: [Form; 1] = [Form(Word(b"("), &[Then(Part::NodeOrEnd)])];

static NODE_OR_END: [Form; 5] = [
    Form(
        Name(Role::NodeType),
        &[
            Then(Part::Labels),
            Then(Part::Open),
            Then(Part::Braces),
            Word(b")"),
        ],
    ),
    Form(
        Word(b":"),
        &[
            Then(Part::Unit),
            Then(Part::Open),
            Then(Part::Braces),
            Word(b")"),
            Then(Part::Arrow),
        ],
    ),
    Form(
        Word(b"OPEN"),
        &[Then(Part::Braces), Word(b")"), Then(Part::Arrow)],
    ),
    Form(
        Word(b"{"),
        &[Then(Part::Properties), Word(b")"), Then(Part::Arrow)],
    ),
    Form(Word(b")"), &[Then(Part::Arrow)]),
];

// ---- keys, from the token behind FOR on

static SCOPE: [Form; 1] = [Form(
    Word(b"("),
    &[
        Then(Part::Variable),
        Then(Part::Names),
        Then(Part::Tests),
        Word(b")"),
        Then(Part::Steps),
        Then(Part::MoreScope),
        Then(Part::Qualifiers),
        Then(Part::Expression),
    ],
)];

static MORE_SCOPE: [Form; 2] = [
    Form(
        Word(b","),
        &[Then(Part::Node), Then(Part::Steps), Then(Part::MoreScope)],
    ),
    Form(Nothing, &[]),
];

static NODE: [Form; 1] = [Form(
    Word(b"("),
    &[
        Then(Part::Variable),
        Then(Part::Names),
        Then(Part::Tests),
        Word(b")"),
    ],
)];

static EDGE: [Form; 1] = [Form(
    Word(b"["),
    &[
        Then(Part::Variable),
        Then(Part::Names),
        Then(Part::Tests),
        Word(b"]"),
    ],
)];

static VARIABLE: [Form; 2] = [Form(Name(Role::Other), &[]), Form(Nothing, &[])];

static NAMES: [Form; 2] = [
    Form(Word(b":"), &[Name(Role::Label), Then(Part::MoreNames)]),
    Form(Nothing, &[]),
];

static MORE_NAMES: [Form; 2] = [
    Form(Word(b"&"), &[Name(Role::Label), Then(Part::MoreNames)]),
    Form(Nothing, &[]),
];

static TESTS: [Form; 2] = [Form(Word(b"{"), &[Then(Part::Test)]), Form(Nothing, &[])];

static TEST: [Form; 1] = [Form(
    Name(Role::Other),
    &[Word(b":"), Then(Part::Literal), Then(Part::MoreTests)],
)];

static MORE_TESTS: [Form; 2] = [Form(Word(b","), &[Then(Part::Test)]), Form(Word(b"}"), &[])];

static LITERAL: [Form; 5] = [
    Form(Text, &[]),
    Form(Number, &[]),
    Form(Word(b"TRUE"), &[]),
    Form(Word(b"FALSE"), &[]),
    Form(Word(b"DATE"), &[Day]),
];

static STEPS: [Form; 3] = [
    Form(
        Word(b"-"),
        &[
            Then(Part::Edge),
            Word(b"->"),
            Then(Part::Node),
            Then(Part::Steps),
        ],
    ),
    Form(
        Word(b"<-"),
        &[
            Then(Part::Edge),
            Word(b"-"),
            Then(Part::Node),
            Then(Part::Steps),
        ],
    ),
    Form(Nothing, &[]),
];

static QUALIFIERS: [Form; 5] = [
    Form(Word(b"IDENTIFIER"), &[]),
    Form(Once(b"EXCLUSIVE"), &[Then(Part::MoreQualifiers)]),
    Form(Once(b"MANDATORY"), &[Then(Part::MoreQualifiers)]),
    Form(Once(b"SINGLETON"), &[Then(Part::MoreQualifiers)]),
    Form(
        Once(b"COUNT"),
        &[
            Least,
            Word(b".."),
            AtMost,
            Word(b"OF"),
            Then(Part::MoreQualifiers),
        ],
    ),
];

static MORE_QUALIFIERS: [Form; 6] = [
    Form(Word(b","), &[Then(Part::Qualifier)]),
    Form(Once(b"EXCLUSIVE"), &[Then(Part::MoreQualifiers)]),
    Form(Once(b"MANDATORY"), &[Then(Part::MoreQualifiers)]),
    Form(Once(b"SINGLETON"), &[Then(Part::MoreQualifiers)]),
    Form(
        Once(b"COUNT"),
        &[
            Least,
            Word(b".."),
            AtMost,
            Word(b"OF"),
            Then(Part::MoreQualifiers),
        ],
    ),
    Form(Nothing, &[]),
];

static QUALIFIER: [Form; 4] = [
    Form(Once(b"EXCLUSIVE"), &[Then(Part::MoreQualifiers)]),
    Form(Once(b"MANDATORY"), &[Then(Part::MoreQualifiers)]),
    Form(Once(b"SINGLETON"), &[Then(Part::MoreQualifiers)]),
    Form(
        Once(b"COUNT"),
        &[
            Least,
            Word(b".."),
            AtMost,
            Word(b"OF"),
            Then(Part::MoreQualifiers),
        ],
    ),
];

static EXPRESSION: [Form; 1] = [Form(
    Name(Role::Other),
    &[Then(Part::Key), Then(Part::MoreExpressions)],
)];

static KEY: [Form; 2] = [Form(Word(b"."), &[Name(Role::Other)]), Form(Nothing, &[])];

static MORE_EXPRESSIONS: [Form; 3] = [
    Form(Word(b","), &[Then(Part::ExpressionOrKey)]),
    Form(
        Word(b"WITHIN"),
        &[Then(Part::Node), Then(Part::Steps), Then(Part::MorePaths)],
    ),
    Form(Nothing, &[]),
];

static EXPRESSION_OR_KEY: [Form; 2] = [
    Form(
        Name(Role::Other),
        &[Then(Part::Key), Then(Part::MoreExpressions)],
    ),
    Form(Word(b"FOR"), &[Then(Part::Scope)]),
];

static MORE_PATHS: [Form; 2] = [
    Form(Word(b","), &[Then(Part::PathOrKey)]),
    Form(Nothing, &[]),
];

static PATH_OR_KEY: [Form; 2] = [
    Form(
        Word(b"("),
        &[
            Then(Part::Variable),
            Then(Part::Names),
            Then(Part::Tests),
            Word(b")"),
            Then(Part::Steps),
            Then(Part::MorePaths),
        ],
    ),
    Form(Word(b"FOR"), &[Then(Part::Scope)]),
];

/// The forms of a part. No two of them begin with the same token.
pub(crate) fn forms_of(part: Part) -> &'static [Form] {
    match part {
        Part::Script => &SCRIPT,
        Part::Created => &CREATED,
        Part::CreatedAbstract => &CREATED_ABSTRACT,
        Part::DeclaredNode => &DECLARED_NODE,
        Part::DeclaredEdge => &DECLARED_EDGE,
        Part::NodeType => &NODE_TYPE,
        Part::EdgeType => &EDGE_TYPE,
        Part::Arrow => &ARROW,
        Part::Middle => &MIDDLE,
        Part::End => &END,
        Part::Labels => &LABELS,
        Part::Unit => &UNIT,
        Part::UnitEnd => &UNIT_END,
        Part::MoreUnits => &MORE_UNITS,
        Part::Optional => &OPTIONAL,
        Part::Open => &OPEN,
        Part::Braces => &BRACES,
        Part::Properties => &PROPERTIES,
        Part::MoreProperties => &MORE_PROPERTIES,
        Part::Property => &PROPERTY,
        Part::Kind => &KIND,
        Part::Mode => &MODE,
        Part::Imports => &IMPORTS,
        Part::MoreImports => &MORE_IMPORTS,
        Part::Members => &MEMBERS,
        Part::MoreMembers => &MORE_MEMBERS,
        Part::Member => &MEMBER,
        Part::Element => &ELEMENT,
        Part::NodeOrEnd => &NODE_OR_END,
        Part::Scope => &SCOPE,
        Part::MoreScope => &MORE_SCOPE,
        Part::Node => &NODE,
        Part::Edge => &EDGE,
        Part::Variable => &VARIABLE,
        Part::Names => &NAMES,
        Part::MoreNames => &MORE_NAMES,
        Part::Tests => &TESTS,
        Part::Test => &TEST,
        Part::MoreTests => &MORE_TESTS,
        Part::Literal => &LITERAL,
        Part::Steps => &STEPS,
        Part::Qualifiers => &QUALIFIERS,
        Part::MoreQualifiers => &MORE_QUALIFIERS,
        Part::Qualifier => &QUALIFIER,
        Part::Expression => &EXPRESSION,
        Part::Key => &KEY,
        Part::MoreExpressions => &MORE_EXPRESSIONS,
        Part::ExpressionOrKey => &EXPRESSION_OR_KEY,
        Part::MorePaths => &MORE_PATHS,
        Part::PathOrKey => &PATH_OR_KEY,
    }
}
