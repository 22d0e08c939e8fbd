//! Whole runs of commands that are stopped, that get no memory, and over areas of which each byte was changed.

mod cases;
mod damage;
mod memory;
mod over;
mod stops;
