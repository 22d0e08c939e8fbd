//! What a script declares: its types by kind with their names, what it imports, and the first name that is declared twice, unknown
//! or used for the wrong kind.
//!
//! The one rule: each call gives what its definition says of the script. The definitions stand in `specs/Declarations.antt`,
//! `specs/Imports.antt` and `specs/Refused.antt`, the order of names in `specs/Order.antt`.
#![tactic(auto)]

mod declarations;
mod duplicates;
mod imports;
mod kinds;
mod names;
mod order;
mod pieces;
mod unknown;

pub use declarations::Declarations;
pub use duplicates::first_duplicate;
pub use imports::{guard_graphs, imports_of, last_graph, split};
pub use kinds::first_wrong;
pub use names::{Names, next_number};
pub use order::Numbering;
pub use pieces::words_of;
pub use unknown::first_unknown;
