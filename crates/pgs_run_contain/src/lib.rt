//! The command `contain`: is each type of one schema contained in another? Its input is the first schema text, a line `---` and the
//! second schema text.
//!
//! The one rule: `contain_spec` (`specs/Spec.antt`) says what it tells of an input within a budget, by the answers to the types. Of these
//! it is only said that each is right: what is outside is any pair or triple that is, and whose further labels and keys stand in neither text
//! (`specs/Answers.antt`). The reading of both texts is one machine over lines (`specs/Comparing.antt`), which `pgs_run_lines` runs; it ends
//! with both schemas and the names of their texts, and then each type that isn't abstract has its line, put as soon as it is made. Another
//! command over two texts goes on behind `read_texts` (`specs/Behind.antt`).
#![tactic(auto)]

mod answer;
mod comparing;
mod ending;
mod judging;
mod kept_text;
mod names;
mod phase;
mod run;
mod texts;
mod types;

pub use answer::txn_of;
pub use ending::Ending;
pub use kept_text::KeptText;
pub use names::names_in_both;
pub use run::run_contain;
pub use texts::read_texts;
pub use types::{listed_name, put_all_types};
