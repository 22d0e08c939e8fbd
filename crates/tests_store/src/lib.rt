//! Tests of what is on the disk and of the calls and commands that keep it there: payloads and areas, guards and stores, whole runs that are
//! stopped or that fail, and feeds. What is plainly a run of a command stands in the rows of `tests_rows` (`disk_`, `store_` and `hostile_`);
//! here stand the loops over all stops with each leaving, all failing calls and all changed bytes, and what no command shows.
//! What these calls answer is proved where it stands. That they ever answer `Ok` no contract says, and these tests show it.
#![tactic(auto)]

#[cfg(test)]
mod disk;
#[cfg(test)]
mod feeds;
#[cfg(test)]
mod images;
#[cfg(test)]
mod runs;
#[cfg(test)]
mod stops;
#[cfg(test)]
mod store;
