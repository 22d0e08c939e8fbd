use crate::kept_text::KeptText;
use pgs_base::{List, Name};
use pgs_conform::Compiled;

/// How the reading of both texts ends.
#[derive(Drop)]
pub enum Ending {
    /// Both are schemas, and these names stand in their texts.
    Fit {
        first: Compiled,
        second: Compiled,
        names: List<Name>,
    },
    /// One of them is refused, and its line is put.
    Refused {
        text: KeptText,
    },
    /// The input was cut.
    Cut,
}
