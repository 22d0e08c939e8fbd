//! The commands over a saved store: the store of the two areas, opened, or the one line of what they are refused for; and the two commands
//! that only tell of it, `Dump` as a text, and `Explaining` of one element.
//!
//! The one rule: `told_of_areas` (`specs/Refusing.antt`) says what is told where a command needs a saved store. Refusals of the areas
//! come first (30, 32, 33), then those of the stored schema text (10 to 19), then that of a record (34). A command asks `open_store`
//! first, and where no store is opened ends by `end_unopened`. One that only tells is a `StoreReader`, which `run_reader` runs.
#![tactic(auto)]

mod dump;
mod ending;
mod explaining;
mod opening;
mod reader;

pub use dump::Dump;
pub use ending::end_unopened;
pub use explaining::Explaining;
pub use opening::{Unopened, open_store};
pub use reader::{StoreReader, run_reader};
