//! The words of every other crate: names, values, element numbers, and lists and ordered rows of them.
//!
//! Every type here with private fields is seen by contracts as one value: a name and a text as
//! their bytes, a `List` as a list, `Labels` and `Props` as lists with strictly ascending names, `Steps` as a number.
//! The plain graph that all definitions speak of stands in `specs/Graph.antt`.
//! Nothing here knows schemas, files or text formats.
#![tactic(auto)]

mod boxed;
mod copying;
mod day;
mod element;
mod labels;
mod limits;
mod list;
mod memory;
mod name;
mod ordered;
mod part;
mod props;
mod row;
mod rows;
mod seed;
mod steps;
mod text;
mod text_limit;
mod tuple;
mod tuple_set;
mod value;
mod words;

pub use boxed::Boxed;
pub use copying::Copyable;
pub use day::Day;
pub use element::{EdgeId, Elem, NodeId};
pub use labels::Labels;
pub use limits::Limits;
pub use list::{Bytes, List};
pub use memory::Memory;
pub use name::Name;
pub use ordered::Ordered;
pub use part::Part;
pub use props::Props;
pub use row::{EdgeRow, NodeRow, edges_facts, nodes_facts, pair_facts};
pub use rows::Rows;
pub use seed::Seed;
pub use steps::Steps;
pub use text::Text;
pub use text_limit::TEXT_LIMIT;
pub use tuple::Tuple;
pub use tuple_set::TupleSet;
pub use value::{Kind, Value};
pub use words::Words;
