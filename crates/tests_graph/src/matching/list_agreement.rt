//! Whether a list of violations is that of the plain program, which walks along it: from each place where violations of one kind are to
//! begin to the place behind them, or to none where others stand there.

use super::listing::{Row, Rows, pair};
use pgs_base::{Elem, Tuple, TupleSet};
use pgs_conform::{Compiled, edge_typed, node_typed};
use pgs_syntax::Qualifiers;
use pgs_violation::Violation;

/// An element of a scope with its key values.
#[derive(Drop)]
pub struct Valued {
    pub elem: Elem,
    pub tuples: TupleSet,
}

fn is_typed(compiled: &Compiled, row: &Row<'_>) -> bool {
    let own = pair(row.own);
    match row.elem {
        Elem::Node(_) => node_typed(compiled, &own),
        Elem::Edge(_) => edge_typed(compiled, &pair(row.at_source), &own, &pair(row.at_target)),
    }
}

fn is_untyped(found: &Violation, untyped: Elem) -> bool {
    match found {
        Violation::UntypedNode { node } => Elem::Node(*node) == untyped,
        Violation::UntypedEdge { edge } => Elem::Edge(*edge) == untyped,
        _ => false,
    }
}

/// The place behind the violations of elements that fit no type.
pub fn after_untyped(compiled: &Compiled, rows: &Rows<'_>, list: &[Violation]) -> Option<usize> {
    let mut place = 0usize;
    for row in rows.rows.as_slice() {
        if compiled.resolved().guard.strict && !is_typed(compiled, row) {
            if !is_untyped(list.get(place)?, row.elem) {
                return None;
            }
            place = place.checked_add(1)?;
        }
    }
    Some(place)
}

// The least key value that two elements share.
fn shared<'a>(row: &'a Valued, other: &Valued) -> Option<&'a Tuple> {
    for tuple in row.tuples.as_slice() {
        if other.tuples.contains(tuple) {
            return Some(tuple);
        }
    }
    None
}

// The first of the elements that shares a key value with one, and the least that they share.
fn sharer<'a>(row: &'a Valued, later: &[Valued]) -> Option<(Elem, &'a Tuple)> {
    for other in later {
        if let Some(tuple) = shared(row, other) {
            return Some((other.elem, tuple));
        }
    }
    None
}

// The key and the element, the first where there are two, that a violation names.
fn subject(found: &Violation) -> Option<(u32, Elem)> {
    match found {
        Violation::UntypedNode { .. } | Violation::UntypedEdge { .. } => None,
        Violation::Mandatory { key, elem }
        | Violation::Singleton { key, elem, .. }
        | Violation::Exclusive {
            key,
            first: elem,
            ..
        }
        | Violation::CountOutside { key, elem, .. } => Some((*key, *elem)),
    }
}

// What a key demands of the elements of its scope.
#[derive(Clone, Copy)]
enum Demand {
    Mandatory,
    Singleton,
    Exclusive,
    Count(u32, u32),
}

impl Demand {
    // Whether an element before others doesn't meet the demand.
    fn is_unmet(self, row: &Valued, later: &[Valued]) -> bool {
        let count = row.tuples.len();
        match self {
            Demand::Mandatory => count == 0,
            Demand::Singleton => count > 1,
            Demand::Exclusive => sharer(row, later).is_some(),
            Demand::Count(least, most) => count < least as usize || count > most as usize,
        }
    }

    // Whether a violation says of a key and an element that doesn't meet the demand why it doesn't.
    fn is_told(self, found: &Violation, number: u32, row: &Valued, later: &[Valued]) -> bool {
        if subject(found) != Some((number, row.elem)) {
            return false;
        }
        match (self, found) {
            (Demand::Mandatory, Violation::Mandatory { .. }) => true,
            (Demand::Singleton, Violation::Singleton { first, second, .. }) => {
                row.tuples.at(0) == Some(first) && row.tuples.at(1) == Some(second)
            }
            (Demand::Exclusive, Violation::Exclusive { second, tuple, .. }) => {
                sharer(row, later) == Some((*second, tuple))
            }
            (
                Demand::Count(at_least, at_most),
                Violation::CountOutside {
                    count,
                    least,
                    most,
                    ..
                },
            ) => { *count == row.tuples.len() as u64 && (*least, *most) == (at_least, at_most) }
            _ => false,
        }
    }

    // The place behind the violations of the demand.
    fn after(self, number: u32, rows: &[Valued], list: &[Violation], from: usize) -> Option<usize> {
        let mut place = from;
        for nth in 0..rows.len() {
            let (row, later) = (&rows[nth], &rows[nth + 1..]);
            if self.is_unmet(row, later) {
                if !self.is_told(list.get(place)?, number, row, later) {
                    return None;
                }
                place = place.checked_add(1)?;
            }
        }
        Some(place)
    }
}

/// The place behind the violations of a key of this number, by its elements with their key values.
pub fn after_key(
    number: u32,
    asked: Qualifiers,
    rows: &[Valued],
    list: &[Violation],
    from: usize,
) -> Option<usize> {
    let mut place = from;
    if asked.mandatory {
        place = Demand::Mandatory.after(number, rows, list, place)?;
    }
    if asked.singleton {
        place = Demand::Singleton.after(number, rows, list, place)?;
    }
    if asked.exclusive {
        place = Demand::Exclusive.after(number, rows, list, place)?;
    }
    if let Some((least, most)) = asked.count {
        place = Demand::Count(least, most).after(number, rows, list, place)?;
    }
    Some(place)
}
