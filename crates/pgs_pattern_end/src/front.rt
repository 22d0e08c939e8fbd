use pgs_base::Elem;
use pgs_match::PlannedKey;

/// A part of a pattern that is taken in a walk from x: a place, or an expression.
///
/// Of a place, the scope of `upto` are the places up to it. Of an expression, the descriptor of `upto` is the pattern, and its
/// expressions are those up to this one. The descriptor of `before` is what comes before the part, and its first expression is the
/// variable at which the walk comes to it.
#[derive(Drop)]
pub struct Front {
    pub upto: PlannedKey,
    pub before: PlannedKey,
}

/// The first part, from 0, that no match meets, and the least element there in a match of those before.
#[derive(Clone, Copy)]
pub struct PatternEnd {
    pub part: usize,
    pub from: Option<Elem>,
}
