ghost use Rattle.std.specs.Prelude.{◌≡◌};

/// How much one transaction and one graph may hold.
#[derive(Clone, Copy, PartialEq, Eq)]
pub struct Limits {
    /// The most operations of a transaction.
    pub ops: u32,
    /// The most nodes and edges of a graph, together.
    pub elements: u64,
}

impl Limits {
    /// The limits of the program: 10,000 operations and 1,000,000 elements.
    pub fn standard() -> Limits
        ensures ops { result.ops ≡ 10000 }
        ensures elements { result.elements ≡ 1000000 }
    {
        Limits {
            ops: 10_000,
            elements: 1_000_000,
        }
    }
}
