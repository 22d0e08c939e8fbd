//! The compiled form of types: the walk over a shape.

mod walks;
