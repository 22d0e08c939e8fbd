use pgs_base::Name;
use pgs_syntax::Braces;

/// What stands at a place of a declaration in which no name is left: a label, OPEN, braces or nothing as written, or what is put
/// together there.
#[derive(Drop)]
pub enum Form {
    /// Nothing written.
    Empty,
    /// A label.
    Label(Name),
    /// OPEN beside the labels.
    OpenLabels,
    /// Properties between braces.
    Braces(Braces),
    /// `A & B`, over its parts.
    And,
    /// `A | B`, over its parts.
    Or,
    /// `A?`, over its part.
    Opt,
    /// The first part, and the parts behind it.
    Parts,
    /// What an edge type says of its ends, and its middle.
    Edge,
    /// What an edge type says of its source, and of its target.
    Ends,
}
