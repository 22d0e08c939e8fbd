//! The productions of statements, each named as in the grammar.
//!
//! Those of an element are one function with their caller, so that its tree is not moved by each.

ghost use Rattle.std.specs.Prelude.{◌≡◌, ◌+◌, ◌<◌, ◌≤◌, ◌^◌, ◌&&◌, ◌||◌, length, flat_map, codes};
ghost use Rattle.pgs_parser.specs.Progress.{Reads};
ghost use Rattle.pgs_parser.specs.Reader.{next, the_keyword, the_sign};
ghost use Rattle.pgs_parser.specs.Statements.{place_of_member, places_in};
ghost use Rattle.pgs_parser.specs.StatementReaders.{element_type_at, element_at, elements_at, keys_at, no_element, elements_if_at, only_keys_at, further_keys_at, keys_if_at, mode_at, imports_at, members_at, graph_type_at, hidden_at, declared_node_at, declared_edge_at, declared_at, statement_at, statement_of};
ghost use Rattle.pgs_parser.specs.Gives.{Gives};

use crate::parser::Parser;
use crate::unread::Unread;
use pgs_base::{Boxed, List, Name};
use pgs_syntax::{GraphType, Member, RawKey, Statement};

/// How many types a member declares.
fn declared_by(member: &Member) -> u32
    ensures count { result ≡ length (place_of_member member.now) }
    ensures at_most_one { result ≤ 1 }
{
    match member {
        Member::Named(_) => 0,
        Member::Node(_) | Member::Edge(_) => 1,
    }
}

/// How many types members declare.
fn declared_by_all(members: &[Member]) -> u32
    requires { length (flat_map place_of_member members.now) < 2 ^ 32 }
    ensures count { result ≡ length (flat_map place_of_member members.now) }
{
    let mut count = 0;
    for member in members {
        count += declared_by(member);
    }
    count
}

/// How many declarations a statement has.
pub fn declared_in(statement: &Statement) -> u32
    requires { length (places_in statement.now) < 2 ^ 32 }
    ensures { result ≡ length (places_in statement.now) }
{
    match statement {
        Statement::Node(_) | Statement::Edge(_) => 1,
        Statement::Graph(graph) => {
            let graph = graph.get();
            1 + declared_by_all(graph.members.as_slice()) + graph.keys.len() as u32
        }
    }
}

impl Parser<'_> {
    #[inline(always)]
    #[tactic(auto, unfolding(crate::specs::StatementReaders::element_type_at))]
    fn element_type(&mut self, hidden: bool, place: u32) -> Result<Member, Unread>
        ensures { Reads result self.new (element_type_at hidden place self.old) }
    {
        if self.is_second_name() {
            let node = self.node_type(hidden, place)?;
            let node = Boxed::new(self.alloc, node)?;
            Ok(Member::Node(node))
        } else {
            let edge = self.edge_type(hidden, place)?;
            let edge = Boxed::new(self.alloc, edge)?;
            Ok(Member::Edge(edge))
        }
    }

    #[inline(always)]
    #[tactic(auto, unfolding(crate::specs::StatementReaders::element_at))]
    fn element(&mut self, place: u32) -> Result<Member, Unread>
        ensures { Reads result self.new (element_at place self.old) }
    {
        if self.is_at_name() {
            let named = self.name()?;
            return Ok(Member::Named(named));
        }
        let hidden = self.keyword_if(b"ABSTRACT");
        self.element_type(hidden, place)
    }

    /// Elements, whose declarations have the numbers from a place on.
    fn elements(&mut self, place: u32) -> Result<List<Member>, Unread>
        requires { place + length self.old < 2 ^ 32 }
        ensures { Reads result self.new (elements_at place self.old) }
    {
        let first = self.element(place)?;
        let mut next = place + declared_by(&first);
        let mut elements = Vec::new(self.alloc);
        elements.push(first)?;
        while self.passes_comma_unless(b"FOR") {
            let element = self.element(next)?;
            next += declared_by(&element);
            elements.push(element)?;
        }
        Ok(List::from_vec(elements))
    }

    /// Keys, which have the numbers from a place on.
    fn keys(&mut self, place: u32) -> Result<List<RawKey>, Unread>
        requires { place + length self.old < 2 ^ 32 }
        ensures { Reads result self.new (keys_at place self.old) }
    {
        let first = self.key(place)?;
        let mut next = place + 1;
        let mut keys = Vec::new(self.alloc);
        keys.push(first)?;
        while self.passes_sign(b",") {
            let key = self.key(next)?;
            next += 1;
            keys.push(key)?;
        }
        Ok(List::from_vec(keys))
    }

    /// Elements, where some stand.
    #[tactic(auto, unfolding(crate::specs::StatementReaders::elements_if_at))]
    fn elements_if(&mut self, place: u32) -> Result<List<Member>, Unread>
        requires { place + length self.old < 2 ^ 32 }
        ensures { Reads result self.new (elements_if_at place self.old) }
    {
        if self.is_at_keyword(b"FOR") || self.is_at_sign(b"}") {
            Ok(List::new(self.alloc))
        } else {
            self.elements(place)
        }
    }

    /// Keys where no element stands before them.
    fn only_keys(&mut self, place: u32) -> Result<List<RawKey>, Unread>
        requires { place + length self.old < 2 ^ 32 }
        ensures { Reads result self.new (only_keys_at place self.old) }
    {
        if self.is_at_keyword(b"FOR") {
            self.keys(place)
        } else {
            Ok(List::new(self.alloc))
        }
    }

    /// Keys after elements and a comma, where one stands.
    fn further_keys(&mut self, place: u32) -> Result<List<RawKey>, Unread>
        requires { place + length self.old < 2 ^ 32 }
        ensures { Reads result self.new (further_keys_at place self.old) }
    {
        if self.passes_sign(b",") {
            self.keys(place)
        } else {
            Ok(List::new(self.alloc))
        }
    }

    /// The keys after these elements.
    #[tactic(auto, unfolding(crate::specs::StatementReaders::keys_if_at))]
    fn keys_if(&mut self, elements: &[Member], place: u32) -> Result<List<RawKey>, Unread>
        requires { place + length self.old < 2 ^ 32 }
        ensures { Reads result self.new (keys_if_at elements.now place self.old) }
    {
        match elements {
            [] => self.only_keys(place),
            [_, ..] => self.further_keys(place),
        }
    }

    /// The members of a graph type, whose declarations have the numbers from a place on.
    #[tactic(auto, unfolding(crate::specs::StatementReaders::members_at))]
    fn members(&mut self, place: u32) -> Result<(List<Member>, List<RawKey>), Unread>
        requires { place + length self.old < 2 ^ 32 }
        ensures { Reads result self.new (members_at place self.old) }
    {
        let elements = self.elements_if(place)?;
        let after = place + declared_by_all(elements.as_slice());
        let keys = self.keys_if(elements.as_slice(), after)?;
        Ok((elements, keys))
    }

    #[tactic(auto, unfolding(crate::specs::StatementReaders::mode_at))]
    fn mode(&mut self) -> Result<bool, Unread>
        ensures { Reads result self.new (mode_at self.old) }
    {
        if self.passes_keyword(b"STRICT") {
            Ok(true)
        } else {
            self.keyword(b"LOOSE")?;
            Ok(false)
        }
    }

    #[tactic(auto, unfolding(crate::specs::StatementReaders::imports_at))]
    fn imports(&mut self) -> Result<List<Name>, Unread>
        ensures { Reads result self.new (imports_at self.old) }
    {
        if self.passes_keyword(b"IMPORTS") {
            self.some_names(b",")
        } else {
            Ok(List::new(self.alloc))
        }
    }

    /// A graph type, after CREATE GRAPH.
    #[tactic(auto, unfolding(crate::specs::StatementReaders::graph_type_at))]
    fn graph_type(&mut self, place: u32) -> Result<Statement, Unread>
        requires { place + length self.old < 2 ^ 32 }
        ensures { Reads result self.new (graph_type_at place self.old) }
    {
        self.keyword(b"TYPE")?;
        let name = self.name()?;
        let strict = self.mode()?;
        let imports = self.imports()?;
        self.sign(b"{")?;
        let (members, keys) = self.members(place + 1)?;
        self.sign(b"}")?;
        let graph = GraphType {
            name,
            strict,
            place,
            imports,
            members,
            keys,
        };
        let graph = Boxed::new(self.alloc, graph)?;
        Ok(Statement::Graph(graph))
    }

    /// TYPE and maybe ABSTRACT, which must not have stood before.
    #[tactic(auto, unfolding(crate::specs::StatementReaders::hidden_at))]
    fn hidden(&mut self, earlier: bool) -> Result<bool, Unread>
        ensures { Reads result self.new (hidden_at earlier self.old) }
    {
        self.keyword(b"TYPE")?;
        Ok(earlier || self.keyword_if(b"ABSTRACT"))
    }

    /// A node type, after CREATE and NODE.
    #[tactic(auto, unfolding(crate::specs::StatementReaders::declared_node_at))]
    fn declared_node(&mut self, earlier: bool, place: u32) -> Result<Statement, Unread>
        ensures { Reads result self.new (declared_node_at earlier place self.old) }
    {
        let hidden = self.hidden(earlier)?;
        let node = self.node_type(hidden, place)?;
        let node = Boxed::new(self.alloc, node)?;
        Ok(Statement::Node(node))
    }

    /// An edge type, after CREATE and EDGE.
    #[tactic(auto, unfolding(crate::specs::StatementReaders::declared_edge_at))]
    fn declared_edge(&mut self, earlier: bool, place: u32) -> Result<Statement, Unread>
        ensures { Reads result self.new (declared_edge_at earlier place self.old) }
    {
        let hidden = self.hidden(earlier)?;
        let edge = self.edge_type(hidden, place)?;
        let edge = Boxed::new(self.alloc, edge)?;
        Ok(Statement::Edge(edge))
    }

    /// What is declared after CREATE and maybe ABSTRACT.
    #[tactic(auto, unfolding(crate::specs::StatementReaders::declared_at))]
    fn declaration(&mut self, earlier: bool, place: u32) -> Result<Statement, Unread>
        requires { place + length self.old < 2 ^ 32 }
        ensures { Reads result self.new (declared_at earlier place self.old) }
    {
        if self.passes_keyword(b"NODE") {
            return self.declared_node(earlier, place);
        }
        if self.passes_keyword(b"EDGE") {
            return self.declared_edge(earlier, place);
        }
        self.keyword(b"GRAPH")?;
        if earlier {
            Err(Unread::OtherForm)
        } else {
            self.graph_type(place)
        }
    }

    #[tactic(auto, unfolding(crate::specs::StatementReaders::statement_at))]
    fn statement(&mut self, place: u32) -> Result<Statement, Unread>
        requires { place + length self.old < 2 ^ 32 }
        ensures { Reads result self.new (statement_at place self.old) }
    {
        self.keyword(b"CREATE")?;
        let earlier = self.keyword_if(b"ABSTRACT");
        let declared = self.declaration(earlier, place)?;
        self.sign(b";")?;
        Ok(declared)
    }

    /// The statement that all tokens are.
    #[tactic(auto, unfolding(crate::specs::StatementReaders::statement_of))]
    pub fn only_statement(&mut self, place: u32) -> Result<Statement, Unread>
        requires { place + length self.old < 2 ^ 32 }
        ensures { Gives (λ statement. statement) result (statement_of place self.old) }
    {
        let statement = self.statement(place)?;
        if self.is_at_end() {
            Ok(statement)
        } else {
            Err(Unread::OtherForm)
        }
    }
}
