//! The causes of the violation of a key.

ghost use Rattle.std.specs.Prelude.{◌≡◌, ◌≤◌, [], true, Some, slice_get, unwrap_or, IfOk};
ghost use Rattle.pgs_syntax.specs.Valid.{is_valid_key_of};
ghost use Rattle.pgs_resolve_keys.specs.Patterns.{x_of, places_of, named_in, resolved_key};
ghost use Rattle.pgs_key_causes.specs.Causes.{GuidesTo, visit_text, place_end_texts, expr_end_texts, AreExprTexts, AreEndTexts, AreEndsFrom, key_place, key_text, AreEnds, AreCausesWithEnd, AreKeyCauses};
ghost use Rattle.pgs_key_causes.specs.Walk.{walk};

use crate::exprs::Resolving;
use crate::reading::Readings;
use crate::walk::{is_edge_at, walk};
use crate::written::Written;
use crate::{KeyGuide, Visit};
use pgs_base::{Bytes, Copyable, Elem, List, Memory, Steps};
use pgs_conform::Compiled;
use pgs_graph::GraphRead;
use pgs_pattern_end::{
    PatternEnd, expression_end, no_place_text, no_step_text, no_value_text, place_end,
};
use pgs_resolve_declared::Names;
use pgs_resolve_keys::{named_in, places_of};
use pgs_schema_places::PartTexts;
use pgs_syntax::{Key, RawKey};
use pgs_violation::Violation;
use std::alloc::Global;
use std::sync::ledger::Ledger;

// What is told of the end at a visit.
fn visit_text(
    alloc: Global,
    texts: &[Bytes],
    written: &Written<'_>,
    visit: &Visit,
    elem: Elem,
) -> Result<Bytes, Memory>
    ensures { IfOk result (λ text. text ≡ visit_text texts.now written.now visit.now elem) }
{
    let readings = Readings {
        texts,
        directions: &written.directions,
    };
    let is_edge = is_edge_at(&written.occurrences, visit.place);
    let read = readings.reading(alloc, is_edge, visit)?;
    if visit.place == visit.from {
        no_place_text(alloc, read.as_slice(), elem)
    } else {
        no_step_text(alloc, read.as_slice(), elem)
    }
}

// What is told of the end at a place.
fn place_end_texts(
    alloc: Global,
    texts: &[Bytes],
    written: &Written<'_>,
    visits: &[Visit],
    end: PatternEnd,
) -> Result<Vec<Bytes>, Memory>
    requires { visits.now ≡ walk written.now.occurrences }
    ensures { IfOk result (λ told. told.items ≡ place_end_texts texts.now written.now end) }
{
    let mut told = Vec::new(alloc);
    let (Some(visit), Some(elem)) = (visits.get(end.part), end.from) else {
        return Ok(told);
    };
    told.push(visit_text(alloc, texts, written, visit, elem)?)?;
    Ok(told)
}

// The text of an expression.
fn text_of(texts: &[Bytes], number: usize) -> &[u8]
    ensures { result.now ≡ unwrap_or (slice_get texts.now number) [] }
{
    match texts.get(number) {
        Some(text) => text.as_slice(),
        None => b"",
    }
}

// What is told of the end at an expression.
fn expr_end_texts(alloc: Global, texts: &[Bytes], end: PatternEnd) -> Result<Vec<Bytes>, Memory>
    ensures { IfOk result (λ told. told.items ≡ expr_end_texts texts.now end) }
{
    let mut told = Vec::new(alloc);
    let Some(elem) = end.from else {
        return Ok(told);
    };
    told.push(no_value_text(alloc, text_of(texts, end.part), elem)?)?;
    Ok(told)
}

// Where the expressions of a key end at an element, as texts.
fn expr_texts<G: GraphRead, L: Ledger>(
    alloc: Global,
    graph: &G,
    compiled: &Compiled,
    resolving: &Resolving<'_>,
    resolved: &Key,
    texts: &[Bytes],
    elem: Elem,
    steps: &mut Steps<L>,
) -> Result<Vec<Bytes>, Memory>
    requires x { x_of resolving.now.key.now ≡ Some resolving.now.x.now }
    requires same { resolved.now ≡ resolved_key resolving.now.numbering.now resolving.now.key.now }
    requires valid { is_valid_key_of compiled.now resolved.now ≡ true }
    ensures texts { IfOk result (λ told. AreExprTexts compiled.now (G.meaning graph.now) elem resolved.now texts.now told.items) }
    ensures no_step_back { steps.old ≤ steps.new }
{
    let fronts = resolving.expr_fronts(alloc, resolved)?;
    match expression_end(alloc, graph, compiled, &fronts, elem, steps)? {
        Some(end) => expr_end_texts(alloc, texts, end),
        None => Ok(Vec::new(alloc)),
    }
}

// Where the pattern of a key ends at an element, as texts.
fn end_texts<G: GraphRead, L: Ledger>(
    alloc: Global,
    graph: &G,
    compiled: &Compiled,
    resolving: &Resolving<'_>,
    parts: &PartTexts,
    elem: Elem,
    steps: &mut Steps<L>,
) -> Result<Vec<Bytes>, Memory>
    requires x { x_of resolving.now.key.now ≡ Some resolving.now.x.now }
    requires valid { is_valid_key_of compiled.now (resolved_key resolving.now.numbering.now resolving.now.key.now) ≡ true }
    ensures texts { IfOk result (λ told. AreEndTexts compiled.now (G.meaning graph.now) elem resolving.now.numbering.now resolving.now.key.now parts.now told.items) }
    ensures no_step_back { steps.old ≤ steps.new }
{
    let key = resolving.key(alloc)?;
    let written = Written::new(alloc, resolving.x, resolving.key, &key)?;
    let visits = walk(alloc, &written.occurrences)?;
    let fronts = written.fronts_of(alloc, resolving.numbering, key.qualifiers, &visits)?;
    match place_end(alloc, graph, compiled, &fronts, elem, steps)? {
        Some(end) => place_end_texts(alloc, parts.places.as_slice(), &written, &visits, end),
        None => expr_texts(
            alloc,
            graph,
            compiled,
            resolving,
            &key,
            parts.exprs.as_slice(),
            elem,
            steps,
        ),
    }
}

// The place of the key of a number, which counts from 1.
fn key_place(number: u32) -> Option<usize>
    ensures { result ≡ key_place number }
{
    if number == 0 {
        None
    } else {
        Some(number as usize - 1)
    }
}

// The names of variables in the scope of a key, of which x is the first.
fn scope_names(alloc: Global, key: &RawKey) -> Result<Names, Memory>
    ensures { IfOk result (λ names. names ≡ named_in (places_of key.now.scope)) }
{
    let places = places_of(alloc, key.scope.as_slice())?;
    named_in(alloc, &places)
}

impl KeyGuide<'_> {
    // The text of the key of a number.
    fn key_text(&self, alloc: Global, number: u32) -> Result<Vec<Bytes>, Memory>
        ensures { IfOk result (λ told. told.items ≡ key_text self.now number) }
    {
        let mut told = Vec::new(alloc);
        let Some(place) = key_place(number) else {
            return Ok(told);
        };
        let Some(text) = self.texts.at(place) else {
            return Ok(told);
        };
        told.push(text.copy(alloc)?)?;
        Ok(told)
    }

    // Where the pattern of a written key ends at an element, as texts.
    fn ends_of<G: GraphRead, L: Ledger>(
        &self,
        alloc: Global,
        graph: &G,
        compiled: &Compiled,
        key: &RawKey,
        parts: &PartTexts,
        elem: Elem,
        steps: &mut Steps<L>,
    ) -> Result<Vec<Bytes>, Memory>
        requires { is_valid_key_of compiled.now (resolved_key self.now.numbering key.now) ≡ true }
        ensures texts { IfOk result (λ told. AreEndsFrom compiled.now (G.meaning graph.now) self.now.numbering elem (x_of key.now) key.now parts.now told.items) }
        ensures no_step_back { steps.old ≤ steps.new }
    {
        let names = scope_names(alloc, key)?;
        match names.first() {
            Some(x) => {
                let resolving = Resolving {
                    numbering: &self.numbering,
                    x,
                    key,
                };
                end_texts(alloc, graph, compiled, &resolving, parts, elem, steps)
            }
            None => Ok(Vec::new(alloc)),
        }
    }

    // Where the pattern of the key of a number ends at an element, as texts.
    fn ends<G: GraphRead, L: Ledger>(
        &self,
        alloc: Global,
        graph: &G,
        compiled: &Compiled,
        number: u32,
        elem: Elem,
        steps: &mut Steps<L>,
    ) -> Result<Vec<Bytes>, Memory>
        requires { GuidesTo self.now compiled.now }
        ensures texts { IfOk result (λ told. AreEnds compiled.now (G.meaning graph.now) self.now number elem told.items) }
        ensures no_step_back { steps.old ≤ steps.new }
    {
        // The schema's clause says that its keys are valid.
        let _facts = compiled.resolved();
        let Some(place) = key_place(number) else {
            return Ok(Vec::new(alloc));
        };
        let Some(key) = self.keys.get(place) else {
            return Ok(Vec::new(alloc));
        };
        let Some(parts) = self.parts.at(place) else {
            return Ok(Vec::new(alloc));
        };
        self.ends_of(alloc, graph, compiled, key, parts, elem, steps)
    }

    // The text of the key of a number, and where its pattern ends at an element.
    fn causes_with_end<G: GraphRead, L: Ledger>(
        &self,
        alloc: Global,
        graph: &G,
        compiled: &Compiled,
        number: u32,
        elem: Elem,
        steps: &mut Steps<L>,
    ) -> Result<List<Bytes>, Memory>
        requires { GuidesTo self.now compiled.now }
        ensures causes { IfOk result (AreCausesWithEnd compiled.now (G.meaning graph.now) self.now number elem) }
        ensures no_step_back { steps.old ≤ steps.new }
    {
        let mut ends = self.ends(alloc, graph, compiled, number, elem, steps)?;
        let mut causes = self.key_text(alloc, number)?;
        causes.append(&mut ends)?;
        Ok(List::from_vec(causes))
    }
}

/// The causes of a violation of a key: the text of the key; of a 27, and of a 39 with no value, then where the pattern of its descriptor
/// ends at the element in the graph, in which it is violated. Of a 25 and a 26 there are none. The guide is that of the schema; `Memory`
/// is free.
pub fn key_causes<G: GraphRead, L: Ledger>(
    alloc: Global,
    graph: &G,
    compiled: &Compiled,
    guide: &KeyGuide<'_>,
    violation: &Violation,
    steps: &mut Steps<L>,
) -> Result<List<Bytes>, Memory>
    requires { GuidesTo guide.now compiled.now }
    ensures causes { IfOk result (AreKeyCauses compiled.now (G.meaning graph.now) guide.now violation.now) }
    ensures no_step_back { steps.old ≤ steps.new }
{
    match violation {
        Violation::UntypedNode { .. } | Violation::UntypedEdge { .. } => Ok(List::new(alloc)),
        Violation::Mandatory { key, elem } => {
            guide.causes_with_end(alloc, graph, compiled, *key, *elem, steps)
        }
        Violation::CountOutside {
            key,
            elem,
            count: 0,
            ..
        } => guide.causes_with_end(alloc, graph, compiled, *key, *elem, steps),
        Violation::Singleton { key, .. }
        | Violation::Exclusive { key, .. }
        | Violation::CountOutside { key, .. } => {
            let causes = guide.key_text(alloc, *key)?;
            Ok(List::from_vec(causes))
        }
    }
}
