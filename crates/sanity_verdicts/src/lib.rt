// What `sanity_check` can find.
#![tactic(auto)]

pub mod lists;

use columns::{EdgeIndex, VertexIndex};

// A finding of `sanity_check`: verdicts 1 to 4 of document 01 with their numbers.
#[derive(Clone, Copy, Debug, PartialEq, Eq)]
pub enum Finding {
    Empty,
    DuplicateEdge(EdgeIndex, EdgeIndex),
    NoEdges(VertexIndex),
    EdgeTwice(EdgeIndex, VertexIndex),
}
