//! The names that stand in a schema text: what is told of it is strange to them.

ghost use Rattle.std.specs.Prelude.{◌≡◌, ◌-◌, ◌<◌, ◌++◌, take, length, slice_get, IfOk, OnOk};
ghost use Rattle.pgs_run_contain.specs.Names.{bare, name_in, name_at, names_of, names_in};

use pgs_base::{List, Memory, Name, TEXT_LIMIT};
use pgs_lexer::{LexFault, Tokens, lex};
use std::alloc::Global;

// All bytes but the last.
fn but_last(bytes: &[u8]) -> &[u8]
    ensures { result.now ≡ take (length bytes.now - 1) bytes.now }
{
    &bytes[..bytes.len().saturating_sub(1)]
}

// The bytes of a token without backquotes.
fn bare(bytes: &[u8]) -> &[u8]
    ensures { result.now ≡ bare bytes.now }
{
    match bytes {
        [b'`', quoted @ ..] => but_last(quoted),
        _ => bytes,
    }
}

// Puts a token last, where it is a name.
fn push_name(alloc: Global, bytes: &[u8], names: &mut Vec<Name>) -> Result<(), Memory>
    ensures { OnOk result (names.new.items ≡ names.old.items ++ name_in bytes.now) }
{
    if let Some(name) = Name::new(alloc, bare(bytes))? {
        names.push(name)?;
    }
    Ok(())
}

// Puts the token at a place last, where it is a name.
fn push_name_at(
    alloc: Global,
    tokens: &Tokens<'_>,
    place: usize,
    names: &mut Vec<Name>,
) -> Result<(), Memory>
    ensures { OnOk result (names.new.items ≡ names.old.items ++ name_at (slice_get tokens.now place)) }
{
    match tokens.at(place) {
        Some(token) => push_name(alloc, token.slice, names),
        None => Ok(()),
    }
}

// Puts the tokens that are names last.
fn push_names_of(alloc: Global, tokens: &Tokens<'_>, names: &mut Vec<Name>) -> Result<(), Memory>
    ensures { OnOk result (names.new.items ≡ names.old.items ++ names_of tokens.now) }
{
    for place in 0..tokens.len() {
        push_name_at(alloc, tokens, place, names)?;
    }
    Ok(())
}

// Puts the names that stand in a text last.
fn push_names_in(alloc: Global, text: &[u8], names: &mut Vec<Name>) -> Result<(), Memory>
    ensures { OnOk result (names.new.items ≡ names.old.items ++ names_in text.now) }
{
    if text.len() > TEXT_LIMIT {
        return Ok(());
    }
    match lex(alloc, text) {
        Ok(tokens) => push_names_of(alloc, &tokens, names),
        Err(LexFault::Memory) => Err(Memory),
        Err(LexFault::Lex { line: _ }) => Ok(()),
    }
}

/// The names that stand in two texts. `Memory` where there was none left.
pub fn names_in_both(alloc: Global, first: &[u8], second: &[u8]) -> Result<List<Name>, Memory>
    ensures { IfOk result (λ names. names ≡ names_in first.now ++ names_in second.now) }
{
    let mut names = Vec::new(alloc);
    push_names_in(alloc, first, &mut names)?;
    push_names_in(alloc, second, &mut names)?;
    Ok(List::from_vec(names))
}

/// Names, and those that stand in a text behind them. `Memory` where there was none left.
pub(crate) fn with_names_in(
    alloc: Global,
    names: List<Name>,
    text: &[u8],
) -> Result<List<Name>, Memory>
    ensures { IfOk result (λ all. all ≡ names ++ names_in text.now) }
{
    let mut all = names.into_vec();
    push_names_in(alloc, text, &mut all)?;
    Ok(List::from_vec(all))
}
