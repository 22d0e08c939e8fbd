use crate::{Structural, Violation};

/// Why a transaction is rejected.
#[derive(Debug, PartialEq, Eq, Drop)]
pub enum Rejection {
    Structural(Structural),
    Violation(Violation),
}
