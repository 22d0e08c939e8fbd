//! The productions of keys, each named as in the grammar.
//!
//! A list begins with room for one item, since most have one; lists of large items give back the room that they don't need. The
//! productions of a place are one function with their callers: its tree is large, and each call would move it once more.

ghost use Rattle.std.specs.Prelude.{◌≡◌, ◌∷◌, codes, IsTrue, IsSome, ◌↔◌, true};
ghost use Rattle.std.specs.List.{list_any};
ghost use Rattle.pgs_syntax.specs.Valid.{are_distinct};
ghost use Rattle.pgs_parser.specs.Keys.{all_asked, asked_by, bounds_in, is_same_kind};
ghost use Rattle.pgs_parser.specs.Reader.{listed_at, followed, none_declared, each_at, sign_at, keyword_at, comma_unless, after, the_sign, name_at, maybe_at};
ghost use Rattle.pgs_parser.specs.KeyReaders.{literal_at, test_at, tests_rest_at, place_at, node_at, edge_at, arrow_at, step_at, step_begins, path_at, paths_at, bound_of, bound_at, bounds_at, qualifier_at, qualifier_begins, qualifier_list_at, qualifiers_at, expr_at, exprs_at, key_at};
ghost use Rattle.pgs_parser.specs.Progress.{Reads, Moves};

use crate::lists::begun;
use crate::parser::Parser;
use crate::qualifier::Qualifier;
use crate::unread::Unread;
use pgs_base::{List, Name, Value};
use pgs_syntax::{Qualifiers, RawExpr, RawFilter, RawKey, RawPath, RawPlace, RawStep};

impl Parser<'_> {
    #[tactic(auto, unfolding(crate::specs::KeyReaders::literal_at))]
    fn literal(&mut self) -> Result<Value, Unread>
        ensures { Reads result self.new (literal_at self.old) }
    {
        if self.passes_keyword(b"DATE") {
            self.day()
        } else {
            self.value()
        }
    }

    #[tactic(auto, unfolding(crate::specs::KeyReaders::test_at))]
    fn test(&mut self) -> Result<(Name, Value), Unread>
        ensures { Reads result self.new (test_at self.old) }
    {
        let key = self.name()?;
        self.sign(b":")?;
        let value = self.literal()?;
        Ok((key, value))
    }

    /// A name and further ones, with this sign between them.
    pub fn some_names(&mut self, separator: &[u8]) -> Result<List<Name>, Unread>
        ensures { Reads result self.new (listed_at (after (the_sign separator.now)) name_at self.old) }
    {
        let first = self.name()?;
        let mut names = begun(self.alloc, 1, first)?;
        while self.passes_sign(separator) {
            let name = self.name()?;
            names.push(name)?;
        }
        Ok(List::from_vec(names))
    }

    /// A test and further ones.
    fn some_tests(&mut self) -> Result<List<(Name, Value)>, Unread>
        ensures { Reads result self.new (listed_at (sign_at ",") test_at self.old) }
    {
        let first = self.test()?;
        let mut tests = begun(self.alloc, 1, first)?;
        while self.passes_sign(b",") {
            let test = self.test()?;
            tests.push(test)?;
        }
        Ok(List::from_vec(tests))
    }

    /// Tests, after the first brace.
    fn tests_rest(&mut self) -> Result<List<(Name, Value)>, Unread>
        ensures { Reads result self.new (tests_rest_at self.old) }
    {
        let tests = self.some_tests()?;
        self.sign(b"}")?;
        Ok(tests)
    }

    /// A place, whose parts are put in as they are read: moved about, they would cost more than their reading.
    #[inline(always)]
    #[tactic(auto, unfolding(crate::specs::KeyReaders::place_at, crate::specs::KeyReaders::name_if_at, crate::specs::KeyReaders::names_at, crate::specs::KeyReaders::tests_at))]
    fn place(&mut self) -> Result<RawPlace, Unread>
        ensures { Reads result self.new (place_at self.old) }
    {
        let mut place = RawPlace {
            var: None,
            filter: RawFilter {
                names: List::new(self.alloc),
                tests: List::new(self.alloc),
            },
        };
        if self.is_at_name() {
            let var = self.name()?;
            place.var = Some(var);
        }
        if self.passes_sign(b":") {
            place.filter.names = self.some_names(b"&")?;
        }
        if self.passes_sign(b"{") {
            place.filter.tests = self.tests_rest()?;
        }
        Ok(place)
    }

    #[inline(always)]
    #[tactic(auto, unfolding(crate::specs::KeyReaders::node_at))]
    fn node(&mut self) -> Result<RawPlace, Unread>
        ensures { Reads result self.new (node_at self.old) }
    {
        self.sign(b"(")?;
        let place = self.place()?;
        self.sign(b")")?;
        Ok(place)
    }

    /// The place of an edge, in its brackets.
    #[inline(always)]
    #[tactic(auto, unfolding(crate::specs::KeyReaders::edge_at))]
    fn edge(&mut self) -> Result<RawPlace, Unread>
        ensures { Reads result self.new (edge_at self.old) }
    {
        self.sign(b"[")?;
        let place = self.place()?;
        self.sign(b"]")?;
        Ok(place)
    }

    #[tactic(auto, unfolding(crate::specs::KeyReaders::step_at, crate::specs::KeyReaders::arrow_at))]
    fn step(&mut self) -> Result<RawStep, Unread>
        ensures { Reads result self.new (step_at self.old) }
    {
        let forward = self.passes_sign(b"-");
        if !forward {
            self.sign(b"<-")?;
        }
        let edge = self.edge()?;
        if forward {
            self.sign(b"->")?;
        } else {
            self.sign(b"-")?;
        }
        let node = self.node()?;
        Ok(RawStep {
            edge,
            forward,
            node,
        })
    }

    fn is_at_step(&self) -> bool
        ensures { Moves result self.now self.now (step_begins self.now) }
    {
        self.is_at_sign(b"-") || self.is_at_sign(b"<-")
    }

    /// The steps of a path, where there are some.
    fn some_steps(&mut self) -> Result<List<RawStep>, Unread>
        ensures { Reads result self.new (each_at step_begins step_at self.old) }
    {
        let mut steps = Vec::with_capacity(self.alloc, 1)?;
        while self.is_at_step() {
            let step = self.step()?;
            steps.push(step)?;
        }
        steps.shrink_to_fit();
        Ok(List::from_vec(steps))
    }

    #[inline(always)]
    #[tactic(auto, using(crate::proofs::NoStep::no_step), unfolding(crate::specs::KeyReaders::path_at))]
    fn path(&mut self) -> Result<RawPath, Unread>
        ensures { Reads result self.new (path_at self.old) }
    {
        let start = self.node()?;
        let mut path = RawPath {
            start,
            steps: List::new(self.alloc),
        };
        if self.is_at_step() {
            path.steps = self.some_steps()?;
        }
        Ok(path)
    }

    /// A path and further ones, up to a comma before a key.
    fn paths(&mut self) -> Result<List<RawPath>, Unread>
        ensures { Reads result self.new (paths_at self.old) }
    {
        let first = self.path()?;
        let mut paths = begun(self.alloc, 1, first)?;
        while self.passes_comma_unless(b"FOR") {
            let path = self.path()?;
            paths.push(path)?;
        }
        paths.shrink_to_fit();
        Ok(List::from_vec(paths))
    }

    /// A number that may bound a count.
    #[tactic(auto, unfolding(crate::specs::KeyReaders::bound_at))]
    fn bound(&mut self) -> Result<u32, Unread>
        ensures { Reads result self.new (bound_at self.old) }
    {
        let value = self.value()?;
        bound_of(&value).ok_or(Unread::OtherForm)
    }

    /// The bounds of a COUNT, and OF.
    #[tactic(auto, unfolding(crate::specs::KeyReaders::bounds_at))]
    fn bounds(&mut self) -> Result<(u32, u32), Unread>
        ensures { Reads result self.new (bounds_at self.old) }
    {
        let least = self.bound()?;
        self.sign(b"..")?;
        let most = self.bound()?;
        self.keyword(b"OF")?;
        if least <= most {
            Ok((least, most))
        } else {
            Err(Unread::OtherForm)
        }
    }

    #[tactic(auto, unfolding(crate::specs::KeyReaders::qualifier_at))]
    fn qualifier(&mut self) -> Result<Qualifier, Unread>
        ensures { Reads result self.new (qualifier_at self.old) }
    {
        if self.passes_keyword(b"EXCLUSIVE") {
            return Ok(Qualifier::Exclusive);
        }
        if self.passes_keyword(b"MANDATORY") {
            return Ok(Qualifier::Mandatory);
        }
        if self.passes_keyword(b"SINGLETON") {
            return Ok(Qualifier::Singleton);
        }
        self.keyword(b"COUNT")?;
        let (least, most) = self.bounds()?;
        Ok(Qualifier::Count(least, most))
    }

    /// Whether a qualifier has to follow, by a comma or a keyword.
    fn is_before_qualifier(&self) -> bool
        ensures { IsTrue result ↔ IsSome (qualifier_begins self.now) }
    {
        self.is_at_sign(b",") || self.is_at_any_keyword()
    }

    /// Whether a qualifier has to follow, by a comma or a keyword; goes past the comma.
    fn passes_to_qualifier(&mut self) -> bool
        ensures { Moves result self.old self.new (qualifier_begins self.old) }
    {
        self.passes_sign(b",") || self.is_at_any_keyword()
    }

    /// The first qualifier and those that follow it, with or without commas.
    fn written_qualifiers(&mut self, first: Qualifier) -> Result<List<Qualifier>, Unread>
        ensures { Reads result self.new (followed qualifier_begins (λ place. qualifier_at) none_declared 0 (first, self.old)) }
    {
        let mut written = Vec::new(self.alloc);
        written.push(first)?;
        while self.passes_to_qualifier() {
            let qualifier = self.qualifier()?;
            written.push(qualifier)?;
        }
        Ok(List::from_vec(written))
    }

    /// Qualifiers, each kind at most once. For one, no list is made.
    #[tactic(auto, using(crate::proofs::Qualifiers::one_written, crate::proofs::Qualifiers::more_written, crate::proofs::Qualifiers::none_written), unfolding(crate::specs::KeyReaders::qualifier_list_at))]
    fn qualifier_list(&mut self) -> Result<Qualifiers, Unread>
        ensures { Reads result self.new (qualifier_list_at self.old) }
    {
        let first = self.qualifier()?;
        if !self.is_before_qualifier() {
            return Ok(asked_by(&[first]));
        }
        let written = self.written_qualifiers(first)?;
        if each_kind_once(written.as_slice()) {
            Ok(asked_by(written.as_slice()))
        } else {
            Err(Unread::OtherForm)
        }
    }

    #[tactic(auto, unfolding(crate::specs::KeyReaders::qualifiers_at))]
    fn qualifiers(&mut self) -> Result<Qualifiers, Unread>
        ensures { Reads result self.new (qualifiers_at self.old) }
    {
        if self.passes_keyword(b"IDENTIFIER") {
            Ok(Qualifiers {
                mandatory: true,
                singleton: true,
                exclusive: true,
                count: None,
            })
        } else {
            self.qualifier_list()
        }
    }

    /// A property's key after a dot, where one stands.
    #[tactic(auto, unfolding(crate::specs::Reader::maybe_at))]
    fn key_if(&mut self) -> Result<Option<Name>, Unread>
        ensures { Reads result self.new (maybe_at (sign_at ".") name_at self.old) }
    {
        if self.passes_sign(b".") {
            let key = self.name()?;
            Ok(Some(key))
        } else {
            Ok(None)
        }
    }

    #[tactic(auto, unfolding(crate::specs::KeyReaders::expr_at))]
    fn expr(&mut self) -> Result<RawExpr, Unread>
        ensures { Reads result self.new (expr_at self.old) }
    {
        let var = self.name()?;
        let key = self.key_if()?;
        Ok(RawExpr { var, key })
    }

    /// An expression and further ones, up to a comma before a key.
    fn exprs(&mut self) -> Result<List<RawExpr>, Unread>
        ensures { Reads result self.new (exprs_at self.old) }
    {
        let first = self.expr()?;
        let mut exprs = begun(self.alloc, 1, first)?;
        while self.passes_comma_unless(b"FOR") {
            let expr = self.expr()?;
            exprs.push(expr)?;
        }
        Ok(List::from_vec(exprs))
    }

    /// The descriptor after WITHIN, where it stands.
    #[tactic(auto, unfolding(crate::specs::Reader::maybe_at))]
    fn within(&mut self) -> Result<Option<List<RawPath>>, Unread>
        ensures { Reads result self.new (maybe_at (keyword_at "WITHIN") paths_at self.old) }
    {
        if self.passes_keyword(b"WITHIN") {
            let paths = self.paths()?;
            Ok(Some(paths))
        } else {
            Ok(None)
        }
    }

    /// A key, which has this number among the declarations.
    #[tactic(auto, unfolding(crate::specs::KeyReaders::key_at))]
    pub fn key(&mut self, place: u32) -> Result<RawKey, Unread>
        ensures { Reads result self.new (key_at place self.old) }
    {
        self.keyword(b"FOR")?;
        let scope = self.paths()?;
        let qualifiers = self.qualifiers()?;
        let exprs = self.exprs()?;
        let within = self.within()?;
        Ok(RawKey {
            place,
            qualifiers,
            scope,
            exprs,
            within,
        })
    }
}

/// The greatest number that may bound a count.
const GREATEST: i64 = 1_000_000;

/// The bound that a value is.
fn bound_of(value: &Value) -> Option<u32>
    ensures { result ≡ bound_of value.now }
{
    match value {
        Value::Int(number) if *number >= 0 && *number <= GREATEST => Some(*number as u32),
        _ => None,
    }
}

fn is_same_kind(one: Qualifier, other: Qualifier) -> bool
    ensures { result ≡ is_same_kind one other }
{
    match (one, other) {
        (Qualifier::Exclusive, Qualifier::Exclusive) => true,
        (Qualifier::Mandatory, Qualifier::Mandatory) => true,
        (Qualifier::Singleton, Qualifier::Singleton) => true,
        (Qualifier::Count(..), Qualifier::Count(..)) => true,
        _ => false,
    }
}

fn has_kind(kind: Qualifier, written: &[Qualifier]) -> bool
    ensures { result ≡ list_any (is_same_kind kind) written.now }
{
    written.iter().any(|other| is_same_kind(kind, *other))
}

/// Whether no kind stands twice. As there are four kinds, at most four qualifiers are compared with those behind them.
fn each_kind_once(written: &[Qualifier]) -> bool
    ensures { result ≡ are_distinct is_same_kind written.now }
{
    let mut rest = written;
    while let [first, others @ ..] = rest {
        if has_kind(*first, others) {
            return false;
        }
        rest = others;
    }
    true
}

/// The bounds of the first COUNT.
fn bounds_in(written: &[Qualifier]) -> Option<(u32, u32)>
    ensures { result ≡ bounds_in written.now }
{
    let mut rest = written;
    while let [first, others @ ..] = rest {
        if let Qualifier::Count(least, most) = first {
            return Some((*least, *most));
        }
        rest = others;
    }
    None
}

fn asked_by(written: &[Qualifier]) -> Qualifiers
    ensures { result ≡ asked_by written.now }
{
    Qualifiers {
        mandatory: has_kind(Qualifier::Mandatory, written),
        singleton: has_kind(Qualifier::Singleton, written),
        exclusive: has_kind(Qualifier::Exclusive, written),
        count: bounds_in(written),
    }
}
