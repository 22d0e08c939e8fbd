//! Tests of the public calls below the store: values and worlds, lists of edges, graphs in all their forms, changed by transactions; what
//! fits a type, which keys an element has, what a change may alter; and texts that no run prints. Rows are texts and tables that were worked
//! out by hand; what is drawn stands beside a plain program of its definition.
//!
//! What the calls give is proved where they stand. That they ever succeed no contract says, and these tests show it.
//! Nothing but tests stands here.
#![tactic(auto)]

#[cfg(test)]
mod base;
#[cfg(test)]
mod causes;
#[cfg(test)]
mod check;
#[cfg(test)]
mod conform;
#[cfg(test)]
mod edges;
#[cfg(test)]
mod graph;
#[cfg(test)]
mod matching;
#[cfg(test)]
mod shapes;
#[cfg(test)]
mod texts;
#[cfg(test)]
mod told;
