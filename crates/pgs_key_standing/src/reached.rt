/// What a key of a guard reaches in graphs all of whose elements can stand.
#[derive(Clone, Copy, Debug, PartialEq, Eq)]
pub enum Reach {
    /// In none has its scope an element.
    NeverScope,
    /// In some has its scope an element, and in none has an element of the scope a key value.
    NeverValue,
    /// So it is, and the key asks for a key value of each element of its scope: it forbids its scope.
    Forbids,
    /// In some has an element of its scope a key value.
    Value,
}
