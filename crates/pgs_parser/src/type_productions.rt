//! The productions of element types, each named as in the grammar.

ghost use Rattle.std.specs.Prelude.{◌≡◌, codes, Some};
ghost use Rattle.pgs_parser.specs.Reader.{listed_at, followed, none_declared, sign_at, comma_unless, after, the_sign, name_at, maybe_at};
ghost use Rattle.pgs_parser.specs.Gives.{Gives};
ghost use Rattle.pgs_parser.specs.Progress.{Reads};
ghost use Rattle.pgs_parser.specs.Types.{parts, together};
ghost use Rattle.pgs_parser.specs.TypeReaders.{alternatives, atom_at, unit_at, conj_at, level_at, parenthesised_at, inner_at, labels_at, kind_at, property_at, begins_property, properties_at, open_at, open_after_comma_at, braces_rest_at, body_at, node_type_at, end_at, middle_at, arrow_type_at, edge_type_at};

use crate::lists::begun;
use crate::parser::Parser;
use crate::unread::Unread;
use pgs_base::{Boxed, Kind, List, Name};
use pgs_syntax::{Braces, EdgeType, NodeType, Property, Spec};
use std::alloc::Global;

/// The most parentheses that may be open at once in labels.
const DEEPEST: u32 = 64;

/// Nothing is empty, one part is itself, and several are joined.
fn join_of(mut parts: Vec<Spec<Name>>) -> Spec<Name>
    ensures { result ≡ together parts.items }
{
    if parts.len() > 1 {
        return Spec::And(List::from_vec(parts));
    }
    match parts.pop() {
        Some(part) => part,
        None => Spec::Empty,
    }
}

/// One part is itself, and several are alternatives.
fn alternatives(mut parts: Vec<Spec<Name>>) -> Spec<Name>
    ensures { result ≡ alternatives parts.items }
{
    if parts.len() != 1 {
        return Spec::Or(List::from_vec(parts));
    }
    match parts.pop() {
        Some(part) => part,
        None => Spec::Empty,
    }
}

/// The parts of a body that are written.
fn parts(
    alloc: Global,
    labels: Option<Spec<Name>>,
    is_open: bool,
    braces: Option<Braces>,
) -> Result<Vec<Spec<Name>>, Unread>
    ensures { Gives (λ written. written.items) result (Some (parts labels is_open braces)) }
{
    let mut written = Vec::with_capacity(alloc, 2)?;
    if let Some(labels) = labels {
        written.push(labels)?;
    }
    if is_open {
        written.push(Spec::OpenLabels)?;
    }
    if let Some(braces) = braces {
        written.push(Spec::Braces(braces))?;
    }
    Ok(written)
}

/// What the parts of a body are together. Most bodies have at most one part, for which no list is made.
fn body_of(
    alloc: Global,
    labels: Option<Spec<Name>>,
    is_open: bool,
    braces: Option<Braces>,
) -> Result<Spec<Name>, Unread>
    ensures { Gives (λ spec. spec) result (Some (together (parts labels is_open braces))) }
{
    match (labels, is_open, braces) {
        (None, false, None) => Ok(Spec::Empty),
        (Some(labels), false, None) => Ok(labels),
        (None, true, None) => Ok(Spec::OpenLabels),
        (None, false, Some(braces)) => Ok(Spec::Braces(braces)),
        (labels, is_open, braces) => {
            let written = parts(alloc, labels, is_open, braces)?;
            Ok(join_of(written))
        }
    }
}

// Labels, up to `level`. Several units or conjunctions are read apart, so that where one stands, as between parentheses that
// are open at once, no list is made, and the functions from `parenthesised` to `conj` are one with `level`: a processor foresees
// the returns of few calls.
impl Parser<'_> {
    #[inline(always)]
    #[cycle(labels)]
    #[tactic(auto, unfolding(crate::specs::TypeReaders::parenthesised_at, crate::specs::TypeReaders::inner_at))]
    fn parenthesised(&mut self, further: u32) -> Result<Spec<Name>, Unread>
        ensures { Reads result self.new (parenthesised_at (inner_at further) self.old) }
    {
        self.sign(b"(")?;
        if further == 0 {
            return Err(Unread::OtherForm);
        }
        let labels = self.level(further - 1)?;
        self.sign(b")")?;
        Ok(labels)
    }

    #[inline(always)]
    #[cycle(labels)]
    #[tactic(auto, unfolding(crate::specs::TypeReaders::atom_at))]
    fn atom(&mut self, further: u32) -> Result<Spec<Name>, Unread>
        ensures { Reads result self.new (atom_at (inner_at further) self.old) }
    {
        if self.is_at_name() {
            let name = self.name()?;
            Ok(Spec::Word(name))
        } else {
            self.parenthesised(further)
        }
    }

    #[inline(always)]
    #[cycle(labels)]
    #[tactic(auto, unfolding(crate::specs::TypeReaders::unit_at))]
    fn unit(&mut self, further: u32) -> Result<Spec<Name>, Unread>
        ensures { Reads result self.new (unit_at (inner_at further) self.old) }
    {
        let atom = self.atom(further)?;
        if self.passes_sign(b"?") {
            let optional = Boxed::new(self.alloc, atom)?;
            Ok(Spec::Opt(optional))
        } else {
            Ok(atom)
        }
    }

    /// The first unit and those that follow it.
    #[inline(never)]
    #[cycle(labels)]
    fn units(&mut self, first: Spec<Name>, further: u32) -> Result<List<Spec<Name>>, Unread>
        ensures { Reads result self.new (followed (sign_at "&") (λ place. unit_at (inner_at further)) none_declared 0 (first, self.old)) }
    {
        let mut units = begun(self.alloc, 2, first)?;
        while self.passes_sign(b"&") {
            let unit = self.unit(further)?;
            units.push(unit)?;
        }
        Ok(List::from_vec(units))
    }

    #[inline(always)]
    #[cycle(labels)]
    #[tactic(auto, unfolding(crate::specs::TypeReaders::conj_at))]
    fn conj(&mut self, further: u32) -> Result<Spec<Name>, Unread>
        ensures { Reads result self.new (conj_at (inner_at further) self.old) }
    {
        let first = self.unit(further)?;
        if !self.is_at_sign(b"&") {
            return Ok(first);
        }
        let units = self.units(first, further)?;
        Ok(join_of(units.into_vec()))
    }

    /// The first conjunction and those that follow it.
    #[inline(never)]
    #[cycle(labels)]
    fn conjs(&mut self, first: Spec<Name>, further: u32) -> Result<List<Spec<Name>>, Unread>
        ensures { Reads result self.new (followed (sign_at "|") (λ place. conj_at (inner_at further)) none_declared 0 (first, self.old)) }
    {
        let mut conjs = begun(self.alloc, 2, first)?;
        while self.passes_sign(b"|") {
            let conj = self.conj(further)?;
            conjs.push(conj)?;
        }
        Ok(List::from_vec(conjs))
    }

    /// Labels in which so many parentheses may be open at once.
    #[cycle(labels)]
    #[tactic(auto, unfolding(crate::specs::TypeReaders::level_at))]
    fn level(&mut self, further: u32) -> Result<Spec<Name>, Unread>
        ensures { Reads result self.new (level_at (inner_at further) self.old) }
    {
        let first = self.conj(further)?;
        if !self.is_at_sign(b"|") {
            return Ok(first);
        }
        let conjs = self.conjs(first, further)?;
        Ok(alternatives(conjs.into_vec()))
    }

    #[tactic(auto, unfolding(crate::specs::TypeReaders::labels_at))]
    fn labels(&mut self) -> Result<Spec<Name>, Unread>
        ensures { Reads result self.new (labels_at self.old) }
    {
        self.level(DEEPEST)
    }

    #[tactic(auto, unfolding(crate::specs::TypeReaders::kind_at))]
    fn kind(&mut self) -> Result<Kind, Unread>
        ensures { Reads result self.new (kind_at self.old) }
    {
        if self.passes_keyword(b"STRING") {
            return Ok(Kind::Text);
        }
        if self.passes_keyword(b"INT") {
            return Ok(Kind::Int);
        }
        if self.passes_keyword(b"BOOL") {
            return Ok(Kind::Bool);
        }
        self.keyword(b"DATE")?;
        Ok(Kind::Date)
    }

    #[tactic(auto, unfolding(crate::specs::TypeReaders::property_at))]
    fn property(&mut self) -> Result<Property, Unread>
        ensures { Reads result self.new (property_at self.old) }
    {
        let optional = self.keyword_if(b"OPTIONAL");
        let key = self.name()?;
        let kind = self.kind()?;
        Ok(Property {
            key,
            kind,
            optional,
        })
    }

    /// A property and further ones.
    fn some_properties(&mut self) -> Result<List<Property>, Unread>
        ensures { Reads result self.new (listed_at (comma_unless (codes "OPEN")) property_at self.old) }
    {
        let first = self.property()?;
        let mut properties = begun(self.alloc, 1, first)?;
        while self.passes_comma_unless(b"OPEN") {
            let property = self.property()?;
            properties.push(property)?;
        }
        Ok(List::from_vec(properties))
    }

    #[tactic(auto, unfolding(crate::specs::TypeReaders::properties_at))]
    fn properties(&mut self) -> Result<List<Property>, Unread>
        ensures { Reads result self.new (properties_at self.old) }
    {
        if self.is_at_name() || self.is_at_keyword(b"OPTIONAL") {
            self.some_properties()
        } else {
            Ok(List::new(self.alloc))
        }
    }

    /// Whether OPEN stands after these properties.
    #[tactic(auto, unfolding(crate::specs::TypeReaders::open_at))]
    fn open(&mut self, properties: &[Property]) -> Result<bool, Unread>
        ensures { Reads result self.new (open_at properties.now self.old) }
    {
        match properties {
            [] => Ok(self.keyword_if(b"OPEN")),
            [_, ..] => self.open_after_comma(),
        }
    }

    fn open_after_comma(&mut self) -> Result<bool, Unread>
        ensures { Reads result self.new (open_after_comma_at self.old) }
    {
        if self.passes_sign(b",") {
            self.keyword(b"OPEN")?;
            Ok(true)
        } else {
            Ok(false)
        }
    }

    /// Braces, after the first of them.
    #[tactic(auto, unfolding(crate::specs::TypeReaders::braces_rest_at))]
    fn braces_rest(&mut self) -> Result<Braces, Unread>
        ensures { Reads result self.new (braces_rest_at self.old) }
    {
        let properties = self.properties()?;
        let more = self.open(properties.as_slice())?;
        self.sign(b"}")?;
        Ok(Braces { properties, more })
    }

    /// Labels after a colon, where one stands.
    #[tactic(auto, unfolding(crate::specs::Reader::maybe_at))]
    fn labels_if(&mut self) -> Result<Option<Spec<Name>>, Unread>
        ensures { Reads result self.new (maybe_at (sign_at ":") labels_at self.old) }
    {
        if self.passes_sign(b":") {
            let labels = self.labels()?;
            Ok(Some(labels))
        } else {
            Ok(None)
        }
    }

    /// Braces, where they begin.
    #[tactic(auto, unfolding(crate::specs::Reader::maybe_at))]
    fn braces_if(&mut self) -> Result<Option<Braces>, Unread>
        ensures { Reads result self.new (maybe_at (sign_at "{") braces_rest_at self.old) }
    {
        if self.passes_sign(b"{") {
            let braces = self.braces_rest()?;
            Ok(Some(braces))
        } else {
            Ok(None)
        }
    }

    #[tactic(auto, unfolding(crate::specs::TypeReaders::body_at))]
    fn body(&mut self) -> Result<Spec<Name>, Unread>
        ensures { Reads result self.new (body_at self.old) }
    {
        let labels = self.labels_if()?;
        let is_open = self.keyword_if(b"OPEN");
        let braces = self.braces_if()?;
        body_of(self.alloc, labels, is_open, braces)
    }

    #[inline(always)]
    #[tactic(auto, unfolding(crate::specs::TypeReaders::node_type_at))]
    pub fn node_type(&mut self, hidden: bool, place: u32) -> Result<NodeType<Name>, Unread>
        ensures { Reads result self.new (node_type_at hidden place self.old) }
    {
        self.sign(b"(")?;
        let name = self.name()?;
        let spec = self.body()?;
        self.sign(b")")?;
        Ok(NodeType {
            name,
            hidden,
            place,
            spec,
        })
    }

    #[tactic(auto, unfolding(crate::specs::TypeReaders::end_at))]
    fn end(&mut self) -> Result<Spec<Name>, Unread>
        ensures { Reads result self.new (end_at self.old) }
    {
        self.sign(b"(")?;
        let spec = self.body()?;
        self.sign(b")")?;
        Ok(spec)
    }

    /// The name and the body of an edge type.
    #[tactic(auto, unfolding(crate::specs::TypeReaders::middle_at))]
    fn middle(&mut self) -> Result<(Name, Spec<Name>), Unread>
        ensures { Reads result self.new (middle_at self.old) }
    {
        self.sign(b"[")?;
        let name = self.name()?;
        let spec = self.body()?;
        self.sign(b"]")?;
        Ok((name, spec))
    }

    /// The arrow of an edge type: whether it leads forward, and what stands in it.
    #[tactic(auto, unfolding(crate::specs::TypeReaders::arrow_type_at))]
    fn arrow_type(&mut self) -> Result<(bool, Name, Spec<Name>), Unread>
        ensures { Reads result self.new (arrow_type_at self.old) }
    {
        if self.passes_sign(b"-") {
            let (name, spec) = self.middle()?;
            self.sign(b"->")?;
            Ok((true, name, spec))
        } else {
            self.sign(b"<-")?;
            let (name, spec) = self.middle()?;
            self.sign(b"-")?;
            Ok((false, name, spec))
        }
    }

    #[tactic(auto, unfolding(crate::specs::TypeReaders::edge_type_at))]
    pub fn edge_type(&mut self, hidden: bool, place: u32) -> Result<EdgeType<Name>, Unread>
        ensures { Reads result self.new (edge_type_at hidden place self.old) }
    {
        let left = self.end()?;
        let (forward, name, middle) = self.arrow_type()?;
        let right = self.end()?;
        let (source, target) = if forward {
            (left, right)
        } else {
            (right, left)
        };
        Ok(EdgeType {
            name,
            hidden,
            place,
            source,
            middle,
            target,
        })
    }
}
