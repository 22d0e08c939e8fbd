ghost use Rattle.pgs_base.specs.Seed.{hasher_by};

use std::collections::hash_map::RandomState;
use std::hash::{BuildHasher, DefaultHasher};

/// How the tables of a graph hash their numbers. No answer depends on it: a table's entries stand in the order in which they came.
///
/// Numbers come from strangers, and numbers that collide under known keys make a table slow. A program takes random keys from its
/// runtime; `Fixed` is for what runs without one.
#[derive(Clone, Copy)]
pub enum Seed {
    /// The keys of the standard library's default hasher.
    Fixed,
    /// Keys that were drawn when the program started.
    Random(RandomState),
}

impl BuildHasher for Seed {
    type Hasher = DefaultHasher;

    ghost build_hasher = { hasher_by };

    fn build_hasher(&self) -> DefaultHasher {
        match self {
            Seed::Fixed => DefaultHasher::new(),
            Seed::Random(state) => state.build_hasher(),
        }
    }
}
