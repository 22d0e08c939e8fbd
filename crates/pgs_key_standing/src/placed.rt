use pgs_base::List;
use pgs_syntax::{Atom, Expr};

/// A pattern whose variables are places, which are numbered from 0: which of them are edges (the others are nodes), what is asked of
/// the elements at them, and what is to be present there.
#[derive(Drop)]
pub struct Placed {
    pub kinds: List<bool>,
    pub atoms: List<Atom>,
    pub exprs: List<Expr>,
}
