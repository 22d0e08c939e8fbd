use pgs_base::{Kind, Name};
use pgs_conform::Options;

/// Why a pair isn't in a shape. The rule is `IsDifference` of `specs/Differences.antt`.
#[derive(Drop)]
pub enum Difference {
    /// The pair lacks a label that the shape asks for.
    LacksLabel(Name),
    /// The pair has a label that the shape doesn't admit.
    FurtherLabel(Name),
    /// The pair lacks a key that may not be absent, and these may stand there.
    LacksKey(Name, Options),
    /// The value at a key is of this kind, and these may stand there.
    OtherKind(Name, Kind, Options),
    /// The pair has a key that the shape doesn't admit.
    FurtherKey(Name),
}
