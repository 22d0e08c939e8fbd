//! The compiler of types: from a resolved schema to its compiled form, in which each type has a list of shapes.
//!
//! Whether a type is too wide is asked first, of `pgs_width`, so nothing is made of a schema that is refused. Then each node type
//! in order, since it names types before itself alone, and then each edge type, whose middle names edge types before it and whose
//! ends name node types. A join is a product of lists, by `pgs_product`; a union puts lists together; `?` adds the empty shape.
//! That each list denotes what its type asks is what `Compiled::new` of `pgs_conform` wants.
#![tactic(auto)]

mod braces;
mod compiling;
mod edges;
mod fault;
mod leaf;
mod middle;
mod nodes;
mod specification;

pub use compiling::compile;
pub use fault::CompileFault;
