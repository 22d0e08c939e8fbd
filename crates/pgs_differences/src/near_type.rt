use crate::Difference;
use pgs_base::List;
use pgs_syntax::TypeNo;

/// A type that an element doesn't fit, with the differences of what the element carries and the type's shape that is nearest: of a
/// node its `own` alone, of an edge also those at its ends.
#[derive(Drop)]
pub struct NearType {
    pub type_no: TypeNo,
    pub source: List<Difference>,
    pub own: List<Difference>,
    pub target: List<Difference>,
}
