// The prebuilt complete graph, entry by entry: a row from a table, and the nearest virtual vertex in one.
#![tactic(auto)]

pub mod boundaries;
pub mod nearest;
pub mod rows;
