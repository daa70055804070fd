// `sanity_check`: the verdict on the edges and the neighbour lists of a graph.
#![tactic(auto)]

pub mod sanity;

pub use sanity::sanity_check;
pub use sanity_verdicts::Finding;
