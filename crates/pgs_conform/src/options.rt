ghost use Rattle.std.specs.Prelude.{◌≡◌};
ghost use Rattle.pgs_conform.specs.Shapes.{admits_kind};

use pgs_base::Kind;

/// What may stand at a key: nothing, or a value of a kind.
#[derive(Clone, Copy, PartialEq, Eq)]
pub struct Options {
    pub absent: bool,
    pub text: bool,
    pub int: bool,
    pub boolean: bool,
    pub date: bool,
}

impl Options {
    /// Whether a value of a kind may stand at the key.
    pub fn admits(self, kind: Kind) -> bool
        ensures { result ≡ admits_kind self kind }
    {
        match kind {
            Kind::Text => self.text,
            Kind::Int => self.int,
            Kind::Bool => self.boolean,
            Kind::Date => self.date,
        }
    }
}
