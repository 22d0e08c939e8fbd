//! Names among the tokens of a script.

use crate::grammar::Role;
use pgs_base::Memory;
use pgs_lexer::{TokenKind, Tokens};
use std::alloc::Global;

// A name without its backquotes.
fn name_in(token: &[u8]) -> &[u8] {
    match token {
        [b'`', inside @ .., b'`'] => inside,
        _ => token,
    }
}

/// Whether the token at a place is this name, in backquotes or not.
pub(crate) fn is_name(tokens: &Tokens<'_>, place: usize, name: &[u8]) -> bool {
    match tokens.at(place) {
        Some(token) => token.kind == TokenKind::Name && name_in(token.slice) == name,
        None => false,
    }
}

/// Whether these bytes are the token at a place.
pub(crate) fn is_word(tokens: &Tokens<'_>, place: usize, word: &[u8]) -> bool {
    match tokens.at(place) {
        Some(token) => token.slice == word,
        None => false,
    }
}

/// Where a name first stands in one of these roles.
pub(crate) fn first_as(
    tokens: &Tokens<'_>,
    roles: &[Role],
    name: &[u8],
    wanted: &[Role],
) -> Option<usize> {
    for (place, role) in roles.iter().enumerate() {
        if wanted.contains(role) && is_name(tokens, place, name) {
            return Some(place);
        }
    }
    None
}

// Where the graph type is declared that the name at a place imports.
fn imported_place(tokens: &Tokens<'_>, roles: &[Role], place: usize) -> Option<usize> {
    let token = tokens.at(place)?;
    first_as(tokens, roles, name_in(token.slice), &[Role::GraphType])
}

// Puts the graph types last that one imports, where they aren't there yet.
fn push_imports(
    tokens: &Tokens<'_>,
    roles: &[Role],
    graph: usize,
    reached: &mut Vec<usize>,
) -> Result<(), Memory> {
    for place in graph..tokens.len() {
        if is_word(tokens, place, b"{") {
            return Ok(());
        }
        let imported = match roles.get(place) {
            Some(Role::Import) => imported_place(tokens, roles, place),
            _ => None,
        };
        match imported {
            Some(imported) if !reached.contains(&imported) => reached.push(imported)?,
            _ => {}
        }
    }
    Ok(())
}

// Puts the graph types last that those import which are there, one after another.
fn push_later_imports(
    tokens: &Tokens<'_>,
    roles: &[Role],
    reached: &mut Vec<usize>,
) -> Result<(), Memory> {
    for number in 0..tokens.len() {
        let Some(next) = reached.get(number).copied() else {
            return Ok(());
        };
        push_imports(tokens, roles, next, reached)?;
    }
    Ok(())
}

/// Whether a graph type, by the place of its name, imports itself, also through others.
pub(crate) fn imports_itself(
    alloc: Global,
    tokens: &Tokens<'_>,
    roles: &[Role],
    graph: usize,
) -> Result<bool, Memory> {
    let mut reached = Vec::new(alloc);
    push_imports(tokens, roles, graph, &mut reached)?;
    push_later_imports(tokens, roles, &mut reached)?;
    Ok(reached.contains(&graph))
}
