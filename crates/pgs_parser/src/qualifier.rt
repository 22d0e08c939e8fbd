/// What the keys of a schema ask, as it is written.
#[derive(Clone, Copy, PartialEq, Eq)]
pub enum Qualifier {
    Exclusive,
    Mandatory,
    Singleton,
    /// The least and the greatest number of key values.
    Count(u32, u32),
}
