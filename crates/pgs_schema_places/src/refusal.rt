//! Of which token of a text its refusal speaks.

use crate::grammar::Role;
use crate::names::{first_as, imports_itself, is_name, is_word};
use crate::reading::Reading;
use pgs_base::Memory;
use pgs_lexer::Tokens;
use std::alloc::Global;

/// Why a text is no schema, where that is about a place of it (docs/FORMATS.md has each number).
#[derive(Clone, Copy)]
pub enum Refusal<'a> {
    /// 10: a byte on this line, from 1, begins no item.
    NoItem(u64),
    /// 11: some statement is none.
    NoStatement,
    /// 13: this name is declared twice.
    Twice(&'a [u8]),
    /// 14: this name is listed, and isn't declared.
    NotDeclared(&'a [u8]),
    /// 15: this name is of a type of the other kind.
    WrongKind(&'a [u8]),
    /// 16: this name is on a cycle.
    OnCycle(&'a [u8]),
    /// 17: the type of this name is too wide.
    TooWide(&'a [u8]),
    /// 18: the key of this number, from 1 in the order of the script, has a fault.
    BadKey(u64),
}

const TYPES: [Role; 2] = [Role::NodeType, Role::EdgeType];

// The roles in which a name is declared together with one in this role.
fn declared_with(role: Role) -> &'static [Role] {
    match role {
        Role::NodeType | Role::EdgeType => &TYPES,
        Role::GraphType => &[Role::GraphType],
        _ => &[],
    }
}

// Whether a name stands in one of these roles before a place.
fn is_declared_before(
    tokens: &Tokens<'_>,
    roles: &[Role],
    name: &[u8],
    place: usize,
    wanted: &[Role],
) -> bool {
    match first_as(tokens, roles, name, wanted) {
        Some(first) => first < place,
        None => false,
    }
}

// Whether a property of this name stands before a place in the same braces.
fn is_in_braces_before(tokens: &Tokens<'_>, roles: &[Role], name: &[u8], place: usize) -> bool {
    for earlier in (0..place).rev() {
        if is_word(tokens, earlier, b"{") {
            return false;
        }
        if roles.get(earlier) == Some(&Role::Property) && is_name(tokens, earlier, name) {
            return true;
        }
    }
    false
}

// Where a name is first declared a second time.
fn second_place(tokens: &Tokens<'_>, roles: &[Role], name: &[u8]) -> Option<usize> {
    for (place, role) in roles.iter().enumerate() {
        let is_second = match role {
            Role::Property => is_in_braces_before(tokens, roles, name, place),
            _ => is_declared_before(tokens, roles, name, place, declared_with(*role)),
        };
        if is_second && is_name(tokens, place, name) {
            return Some(place);
        }
    }
    None
}

// Where a name is first listed that isn't declared as what is listed there.
fn undeclared_place(tokens: &Tokens<'_>, roles: &[Role], name: &[u8]) -> Option<usize> {
    let is_type = first_as(tokens, roles, name, &TYPES).is_some();
    let is_graph = first_as(tokens, roles, name, &[Role::GraphType]).is_some();
    match (is_type, is_graph) {
        (true, _) => first_as(tokens, roles, name, &[Role::Import]),
        (false, true) => first_as(tokens, roles, name, &[Role::Member]),
        (false, false) => first_as(tokens, roles, name, &[Role::Member, Role::Import]),
    }
}

// Where a type is first named as one of the other kind.
fn wrong_place(tokens: &Tokens<'_>, roles: &[Role], name: &[u8]) -> Option<usize> {
    let wrong = match first_as(tokens, roles, name, &[Role::NodeType]) {
        Some(_) => Role::EdgeLabel,
        None => Role::Label,
    };
    first_as(tokens, roles, name, &[wrong])
}

// Where a name is declared that is on a cycle: as a graph type that imports itself, or else as an element type.
fn cycle_place(
    alloc: Global,
    tokens: &Tokens<'_>,
    roles: &[Role],
    name: &[u8],
) -> Result<Option<usize>, Memory> {
    match first_as(tokens, roles, name, &[Role::GraphType]) {
        Some(graph) if imports_itself(alloc, tokens, roles, graph)? => Ok(Some(graph)),
        _ => Ok(first_as(tokens, roles, name, &TYPES)),
    }
}

// Where the key of a number begins.
fn key_place(tokens: &Tokens<'_>, number: u64) -> Option<usize> {
    let mut count: u64 = 0;
    for place in 0..tokens.len() {
        if is_word(tokens, place, b"FOR") {
            count = count.saturating_add(1);
            if count == number {
                return Some(place);
            }
        }
    }
    None
}

/// The place of the token of which a refusal speaks: as many tokens as there are where that is the end of the text, and `None` where it isn't
/// found.
pub(crate) fn token_place(
    alloc: Global,
    tokens: &Tokens<'_>,
    reading: &Reading,
    refusal: &Refusal<'_>,
) -> Result<Option<usize>, Memory> {
    let roles = reading.roles();
    let place = match refusal {
        Refusal::NoItem(_) => None,
        Refusal::NoStatement => reading.failed_place(tokens),
        Refusal::Twice(name) => second_place(tokens, roles, name),
        Refusal::NotDeclared(name) => undeclared_place(tokens, roles, name),
        Refusal::WrongKind(name) => wrong_place(tokens, roles, name),
        Refusal::OnCycle(name) => cycle_place(alloc, tokens, roles, name)?,
        Refusal::TooWide(name) => first_as(tokens, roles, name, &TYPES),
        Refusal::BadKey(number) => key_place(tokens, *number),
    };
    Ok(place)
}
