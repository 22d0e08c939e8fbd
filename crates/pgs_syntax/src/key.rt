use crate::{Expr, Pattern};
use pgs_base::List;

/// What a key asks: MANDATORY, that each element of the scope has a key value; SINGLETON, that it has at most one;
/// EXCLUSIVE, that no two elements of the scope share one. IDENTIFIER is these three. COUNT asks that the number of different key
/// values of each element of the scope is at least `count`'s first number and at most its second.
#[derive(Clone, Copy, PartialEq, Eq)]
pub struct Qualifiers {
    pub mandatory: bool,
    pub singleton: bool,
    pub exclusive: bool,
    pub count: Option<(u32, u32)>,
}

/// A key: `FOR scope qualifiers exprs WITHIN descriptor`. Variable 0 is the element in both patterns.
#[derive(Drop)]
pub struct Key {
    pub qualifiers: Qualifiers,
    pub scope: Pattern,
    pub descriptor: Pattern,
    pub exprs: List<Expr>,
}
