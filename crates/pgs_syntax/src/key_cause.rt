/// Why a key has no meaning. For one key they are tested in this order.
#[derive(Clone, Copy, Debug, PartialEq, Eq)]
pub enum KeyCause {
    /// The scope names no variable, or a written descriptor doesn't name the scope's first one.
    NoX,
    /// A variable stands at a node place and at an edge place.
    TwoKinds,
    /// Another variable than the scope's first one is named in scope and descriptor.
    Shared,
    /// The variables of the scope, or of the descriptor, aren't all linked through edge places and their ends.
    Disconnected,
    /// An expression names a variable that isn't in the descriptor.
    UnknownVariable,
    /// Scope or descriptor has over 4 paths or over 8 edge places, there are over 16 expressions, or the key is the
    /// 257th of the script or a later one.
    TooLarge,
}
