//! The words of a key that no type knows.

ghost use Rattle.std.specs.Prelude.{◌≡◌, IfOk, OnOk};
ghost use Rattle.std.specs.List.{list_any, fold};
ghost use Rattle.std.specs.Option.{option_to_list};
ghost use Rattle.pgs_base.specs.Pair.{same_name};
ghost use Rattle.pgs_syntax.specs.Valid.{is_edge_var};
ghost use Rattle.pgs_advice.specs.Unknown.{unknown_label, unknown_key, unknown_in, unknown_read, is_same, with_word, with_pattern, with_reads, unknown_words};

use crate::words::Words;
use pgs_base::{Copyable, List, Memory, Name};
use pgs_syntax::{Atom, Expr, Key, Pattern};
use std::alloc::Global;

/// A word of a key that no type knows: a label, or the key of a property.
#[derive(Drop)]
pub enum Unknown {
    Label(Name),
    Key(Name),
}

fn is_edge_var(edge_vars: &[bool], var: u32) -> bool
    ensures { result ≡ is_edge_var edge_vars.now var }
{
    match edge_vars.get(var as usize) {
        Some(is_edge) => *is_edge,
        None => false,
    }
}

// A label of a variable that isn't known.
fn unknown_label(
    alloc: Global,
    words: &Words,
    edge_vars: &[bool],
    var: u32,
    label: &Name,
) -> Result<Option<Unknown>, Memory>
    ensures { IfOk result (λ word. word ≡ unknown_label words.now edge_vars.now var label.now) }
{
    let known = words.at(is_edge_var(edge_vars, var));
    if known.knows_label(label) {
        return Ok(None);
    }
    Ok(Some(Unknown::Label(label.copy(alloc)?)))
}

// A key of a variable that isn't known.
fn unknown_key(
    alloc: Global,
    words: &Words,
    edge_vars: &[bool],
    var: u32,
    key: &Name,
) -> Result<Option<Unknown>, Memory>
    ensures { IfOk result (λ word. word ≡ unknown_key words.now edge_vars.now var key.now) }
{
    let known = words.at(is_edge_var(edge_vars, var));
    if known.knows_key(key) {
        return Ok(None);
    }
    Ok(Some(Unknown::Key(key.copy(alloc)?)))
}

fn unknown_in(
    alloc: Global,
    words: &Words,
    edge_vars: &[bool],
    atom: &Atom,
) -> Result<Option<Unknown>, Memory>
    ensures { IfOk result (λ word. word ≡ unknown_in words.now edge_vars.now atom.now) }
{
    match atom {
        Atom::HasLabel { var, label } => unknown_label(alloc, words, edge_vars, *var, label),
        Atom::Equals { var, key, .. } => unknown_key(alloc, words, edge_vars, *var, key),
        _ => Ok(None),
    }
}

fn unknown_read(
    alloc: Global,
    words: &Words,
    edge_vars: &[bool],
    expr: &Expr,
) -> Result<Option<Unknown>, Memory>
    ensures { IfOk result (λ word. word ≡ unknown_read words.now edge_vars.now expr.now) }
{
    match expr {
        Expr::Property { var, key } => unknown_key(alloc, words, edge_vars, *var, key),
        Expr::Element(_) => Ok(None),
    }
}

fn same_name(a: &Name, b: &Name) -> bool
    ensures { result ≡ same_name a.now b.now }
{
    a.cmp(b).is_eq()
}

fn is_same(word: &Unknown, other: &Unknown) -> bool
    ensures { result ≡ is_same word.now other.now }
{
    match (word, other) {
        (Unknown::Label(a), Unknown::Label(b)) => same_name(a, b),
        (Unknown::Key(a), Unknown::Key(b)) => same_name(a, b),
        _ => false,
    }
}

fn is_among(word: &Unknown, found: &[Unknown]) -> bool
    ensures { result ≡ list_any (is_same word.now) found.now }
{
    found.iter().any(|other| is_same(word, other))
}

// Puts a word last, where there is one that isn't there.
fn push_word(word: Option<Unknown>, found: &mut Vec<Unknown>) -> Result<(), Memory>
    ensures { OnOk result (found.new.items ≡ fold with_word found.old.items (option_to_list word)) }
{
    let Some(word) = word else {
        return Ok(());
    };
    if !is_among(&word, found.as_slice()) {
        found.push(word)?;
    }
    Ok(())
}

// Puts the words of a pattern last that aren't known.
fn push_pattern(
    alloc: Global,
    words: &Words,
    pattern: &Pattern,
    found: &mut Vec<Unknown>,
) -> Result<(), Memory>
    ensures { OnOk result (found.new.items ≡ with_pattern words.now found.old.items pattern.now) }
{
    let edge_vars = pattern.edge_vars.as_slice();
    for atom in pattern.atoms.as_slice() {
        let word = unknown_in(alloc, words, edge_vars, atom)?;
        push_word(word, found)?;
    }
    Ok(())
}

// Puts the keys last that expressions read and that aren't known.
fn push_reads(
    alloc: Global,
    words: &Words,
    edge_vars: &[bool],
    exprs: &[Expr],
    found: &mut Vec<Unknown>,
) -> Result<(), Memory>
    ensures { OnOk result (found.new.items ≡ with_reads words.now found.old.items edge_vars.now exprs.now) }
{
    for expr in exprs {
        let word = unknown_read(alloc, words, edge_vars, expr)?;
        push_word(word, found)?;
    }
    Ok(())
}

/// The words of a key that no type knows, each once: labels and keys of its scope, then of its descriptor, place by place and at each
/// place labels before keys, and then, where `reads` asks for them, keys that its expressions read. A word counts at a node place where
/// the script declares a node type, and is known there by node types and ends of edge types; at an edge place by the middles of edge
/// types (docs/DEFINITIONS.md, "What a schema says in silence").
pub fn unknown_words(
    alloc: Global,
    words: &Words,
    reads: bool,
    key: &Key,
) -> Result<List<Unknown>, Memory>
    ensures { IfOk result (λ found. found ≡ unknown_words words.now reads key.now) }
{
    let mut found = Vec::new(alloc);
    push_pattern(alloc, words, &key.scope, &mut found)?;
    push_pattern(alloc, words, &key.descriptor, &mut found)?;
    if reads {
        let edge_vars = key.descriptor.edge_vars.as_slice();
        push_reads(alloc, words, edge_vars, key.exprs.as_slice(), &mut found)?;
    }
    Ok(List::from_vec(found))
}
