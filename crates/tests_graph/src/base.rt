//! Values, and the outside as worlds and sources in memory.

mod sources;
mod stops;
mod values;
mod worlds;
