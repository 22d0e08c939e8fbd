//! The lines of a schema.

ghost use Rattle.std.specs.Prelude.{◌≡◌, ◌<◌, ◌^◌, ◌++◌, [], length, map, flat_map, slice_get, unwrap_or, IfOk, OnOk};
ghost use Rattle.std.specs.List.{list_any, enumerate_from};
ghost use Rattle.pgs_syntax.specs.declared.script.Script.{Script as Tree};
ghost use Rattle.pgs_resolve_declared.specs.Tables.{AreOf};
ghost use Rattle.pgs_advice_lines.specs.Lines.{unused_line, unused_graph_line, unknown_line};
ghost use Rattle.pgs_advice_lines.specs.Telling.{tell, warn, guard_lines, reach_at, reach_lines, void_lines, apart_at, type_name, apart_lines, key_lines, is_forbids, unknown_lines, guards_nothing, nothing_lines, unused_type_lines, unused_graph_lines, advice_lines};

use crate::line::{
    Line, apart_line, forbids_line, guard_line, key_line, never_reached_line, nothing_line,
    unknown_line, unused_graph_line, unused_line, void_line,
};
use pgs_advice::{
    Subtype, Unknown, Words, has_void_exclusive, has_void_singleton, unknown_words, unused_graphs,
    unused_types,
};
use pgs_base::{Bytes, Copyable, List, Memory, Name};
use pgs_key_standing::Reach;
use pgs_lexer::Tokens;
use pgs_resolve_declared::{Declarations, last_graph};
use pgs_schema_places::guard_key_texts;
use pgs_syntax::{GraphType, Guarding, Key, Resolved, Script, TypeNo};
use std::alloc::Global;

/// What was found of the keys of a guard, in its order: what each reaches, and the subtypes that it doesn't speak of.
#[derive(Drop)]
pub struct Findings {
    pub reached: Vec<Reach>,
    pub apart: Vec<List<Subtype>>,
}

/// A line that tells.
pub fn tell(text: Bytes) -> Line
    ensures { result ≡ tell text }
{
    Line { text, warns: false }
}

/// A line that warns.
pub fn warn(text: Bytes) -> Line
    ensures { result ≡ warn text }
{
    Line { text, warns: true }
}

/// Puts the line of the guard last.
pub fn push_guard(
    alloc: Global,
    declarations: &Declarations<'_>,
    guard: &Guarding,
    lines: &mut Vec<Line>,
) -> Result<(), Memory>
    ensures { (script : Tree) → AreOf script declarations.now → OnOk result (lines.new.items ≡ lines.old.items ++ guard_lines script guard.now) }
{
    if let Some(graph) = last_graph(declarations) {
        let types = guard.types.len() as u64;
        let keys = guard.keys.len() as u64;
        lines.push(tell(guard_line(alloc, &graph.name, guard.strict, types, keys)?))?;
    }
    Ok(())
}

// What the key of a place, from 0, reaches.
fn reach_at(reached: &[Reach], place: usize) -> Reach
    ensures { result ≡ reach_at reached.now place }
{
    match reached.get(place) {
        Some(reach) => *reach,
        None => Reach::Value,
    }
}

// Puts the line of what a key reaches last, where there is one.
fn push_reach(alloc: Global, number: u64, reach: Reach, lines: &mut Vec<Line>) -> Result<(), Memory>
    ensures { OnOk result (lines.new.items ≡ lines.old.items ++ reach_lines number reach) }
{
    match reach {
        Reach::NeverScope => lines.push(warn(never_reached_line(alloc, number, b"scope")?))?,
        Reach::NeverValue => lines.push(warn(never_reached_line(alloc, number, b"value")?))?,
        Reach::Forbids => lines.push(tell(forbids_line(alloc, number)?))?,
        Reach::Value => {}
    }
    Ok(())
}

// Puts the lines of a key's qualifiers last that no graph breaks.
fn push_void(alloc: Global, number: u64, key: &Key, lines: &mut Vec<Line>) -> Result<(), Memory>
    ensures { OnOk result (lines.new.items ≡ lines.old.items ++ void_lines number key.now) }
{
    if has_void_singleton(key) {
        lines.push(warn(void_line(alloc, number, b"SINGLETON")?))?;
    }
    if has_void_exclusive(key) {
        lines.push(warn(void_line(alloc, number, b"EXCLUSIVE")?))?;
    }
    Ok(())
}

// The subtypes that the key of a place, from 0, doesn't speak of.
fn apart_at(apart: &[List<Subtype>], place: usize) -> &[Subtype]
    ensures { result.now ≡ apart_at apart.now place }
{
    match apart.get(place) {
        Some(subtypes) => subtypes.as_slice(),
        None => &[],
    }
}

// The name of a type.
fn type_name(resolved: &Resolved, number: TypeNo) -> &[u8]
    ensures { result.now ≡ type_name resolved.now number }
{
    match number {
        TypeNo::Node(place) => match resolved.nodes.at(place as usize) {
            Some(node) => node.name.bytes(),
            None => &[],
        },
        TypeNo::Edge(place) => match resolved.edges.at(place as usize) {
            Some(edge) => edge.name.bytes(),
            None => &[],
        },
    }
}

// Puts the lines of subtypes last that the key of a number doesn't speak of.
fn push_apart(
    alloc: Global,
    resolved: &Resolved,
    number: u64,
    subtypes: &[Subtype],
    lines: &mut Vec<Line>,
) -> Result<(), Memory>
    ensures { OnOk result (lines.new.items ≡ lines.old.items ++ apart_lines resolved.now number subtypes.now) }
{
    for subtype in subtypes {
        let base = type_name(resolved, subtype.base);
        let own = type_name(resolved, subtype.own);
        lines.push(warn(apart_line(alloc, number, base, own)?))?;
    }
    Ok(())
}

// The text of a key by its place, from 0.
fn text_of(texts: &[Bytes], place: usize) -> &[u8]
    ensures { result.now ≡ unwrap_or (slice_get texts.now place) [] }
{
    match texts.get(place) {
        Some(text) => text.as_slice(),
        None => &[],
    }
}

// Puts the lines of a key last, by its place, from 0.
fn push_key(
    alloc: Global,
    resolved: &Resolved,
    texts: &[Bytes],
    findings: &Findings,
    place: usize,
    key: &Key,
    lines: &mut Vec<Line>,
) -> Result<(), Memory>
    requires { place < 2 ^ 63 }
    ensures { OnOk result (lines.new.items
        ≡ lines.old.items ++ key_lines resolved.now texts.now findings.now.reached.items findings.now.apart.items (place, key.now)) }
{
    let number = place as u64 + 1;
    lines.push(tell(key_line(alloc, number, text_of(texts, place))?))?;
    push_reach(alloc, number, reach_at(&findings.reached, place), lines)?;
    push_void(alloc, number, key, lines)?;
    push_apart(
        alloc,
        resolved,
        number,
        apart_at(&findings.apart, place),
        lines,
    )
}

// Puts the lines of keys last.
fn push_keys(
    alloc: Global,
    resolved: &Resolved,
    texts: &[Bytes],
    findings: &Findings,
    keys: &[Key],
    lines: &mut Vec<Line>,
) -> Result<(), Memory>
    ensures { OnOk result (lines.new.items ≡ lines.old.items
        ++ flat_map (key_lines resolved.now texts.now findings.now.reached.items findings.now.apart.items) (enumerate_from 0 keys.now)) }
{
    for (place, key) in keys.iter().enumerate() {
        push_key(alloc, resolved, texts, findings, place, key, lines)?;
    }
    Ok(())
}

// Whether a guard lists types and asks nothing of them.
fn guards_nothing(guard: &Guarding) -> bool
    ensures { result ≡ guards_nothing guard.now }
{
    !guard.strict && !guard.types.is_empty() && guard.keys.is_empty()
}

fn push_nothing(alloc: Global, guard: &Guarding, lines: &mut Vec<Line>) -> Result<(), Memory>
    ensures { OnOk result (lines.new.items ≡ lines.old.items ++ nothing_lines guard.now) }
{
    if guards_nothing(guard) {
        lines.push(warn(nothing_line(alloc)?))?;
    }
    Ok(())
}

// Puts the lines of element types last.
fn push_types(alloc: Global, names: &[Name], lines: &mut Vec<Line>) -> Result<(), Memory>
    ensures { OnOk result (lines.new.items ≡ lines.old.items ++ map (λ name. warn (unused_line name)) names.now) }
{
    for name in names {
        lines.push(warn(unused_line(alloc, name)?))?;
    }
    Ok(())
}

// Puts the lines of the element types last that the guard doesn't use.
fn push_unused_types(
    alloc: Global,
    script: &Script,
    resolved: &Resolved,
    lines: &mut Vec<Line>,
) -> Result<(), Memory>
    ensures { OnOk result (lines.new.items ≡ lines.old.items ++ unused_type_lines script.now resolved.now) }
{
    let names = unused_types(alloc, script, resolved)?;
    push_types(alloc, names.as_slice(), lines)
}

// Puts the lines of graph types last.
fn push_graphs(alloc: Global, graphs: &[&GraphType], lines: &mut Vec<Line>) -> Result<(), Memory>
    ensures { OnOk result (lines.new.items ≡ lines.old.items ++ map (λ graph. warn (unused_graph_line graph.now.name)) graphs.now) }
{
    for graph in graphs {
        lines.push(warn(unused_graph_line(alloc, &graph.name)?))?;
    }
    Ok(())
}

// Puts the lines of the graph types last that the guard doesn't import.
fn push_unused_graphs(
    alloc: Global,
    declarations: &Declarations<'_>,
    lines: &mut Vec<Line>,
) -> Result<(), Memory>
    ensures { (script : Tree) → AreOf script declarations.now → OnOk result (lines.new.items ≡ lines.old.items ++ unused_graph_lines script) }
{
    let graphs = unused_graphs(alloc, declarations)?;
    push_graphs(alloc, &graphs, lines)
}

// Whether a key forbids its scope.
fn is_forbids(reach: Reach) -> bool
    ensures { result ≡ is_forbids reach }
{
    matches!(reach, Reach::Forbids)
}

// Puts the lines of words of the key of a number last.
fn push_words(
    alloc: Global,
    number: u64,
    words: &[Unknown],
    lines: &mut Vec<Line>,
) -> Result<(), Memory>
    ensures { OnOk result (lines.new.items ≡ lines.old.items ++ map (λ word. warn (unknown_line number word)) words.now) }
{
    for word in words {
        lines.push(warn(unknown_line(alloc, number, word)?))?;
    }
    Ok(())
}

// Puts the lines of a key's words last that no type knows.
fn push_unknown(
    alloc: Global,
    words: &Words,
    reached: &[Reach],
    place: usize,
    key: &Key,
    lines: &mut Vec<Line>,
) -> Result<(), Memory>
    requires { place < 2 ^ 63 }
    ensures { OnOk result (lines.new.items ≡ lines.old.items ++ unknown_lines words.now reached.now (place, key.now)) }
{
    let reads = !is_forbids(reach_at(reached, place));
    let found = unknown_words(alloc, words, reads, key)?;
    push_words(alloc, place as u64 + 1, found.as_slice(), lines)
}

// Puts the lines of the words of keys last that no type knows.
fn push_unknowns(
    alloc: Global,
    words: &Words,
    reached: &[Reach],
    keys: &[Key],
    lines: &mut Vec<Line>,
) -> Result<(), Memory>
    ensures { OnOk result (lines.new.items ≡ lines.old.items ++ flat_map (unknown_lines words.now reached.now) (enumerate_from 0 keys.now)) }
{
    for (place, key) in keys.iter().enumerate() {
        push_unknown(alloc, words, reached, place, key, lines)?;
    }
    Ok(())
}

/// Puts the lines last that stand behind those of the types: of the keys, by what was found of each, in order, and of what does
/// nothing. They are those of the tokens, the script and the declarations of the schema's text.
pub fn push_advice(
    alloc: Global,
    tokens: &Tokens<'_>,
    script: &Script,
    declarations: &Declarations<'_>,
    resolved: &Resolved,
    findings: &Findings,
    lines: &mut Vec<Line>,
) -> Result<(), Memory>
    requires { AreOf script.now declarations.now }
    ensures { OnOk result (lines.new.items
        ≡ lines.old.items ++ advice_lines tokens.now script.now resolved.now findings.now.reached.items findings.now.apart.items) }
{
    let guard = &resolved.guard;
    let keys = guard.keys.as_slice();
    let texts = guard_key_texts(alloc, tokens, declarations)?;
    let words = Words::of(alloc, resolved)?;
    push_keys(alloc, resolved, texts.as_slice(), findings, keys, lines)?;
    push_nothing(alloc, guard, lines)?;
    push_unused_types(alloc, script, resolved, lines)?;
    push_unused_graphs(alloc, declarations, lines)?;
    push_unknowns(alloc, &words, &findings.reached, keys, lines)
}

/// The texts of lines, in order.
pub fn pieces_of(alloc: Global, lines: &[Line]) -> Result<Vec<Bytes>, Memory>
    ensures { IfOk result (λ pieces. pieces.items ≡ map (λ line. line.text) lines.now) }
{
    let mut pieces = Vec::new(alloc);
    for line in lines {
        pieces.push(line.text.copy(alloc)?)?;
    }
    Ok(pieces)
}

/// Whether some line warns.
pub fn some_warns(lines: &[Line]) -> bool
    ensures { result ≡ list_any (λ line. line.warns) lines.now }
{
    lines.iter().any(|line| line.warns)
}
