// The six kinds, layer by layer: counts and vertices. Their edges are written in the crate codes_edges.
#![tactic(auto)]

pub mod counts;
pub mod vertices;
