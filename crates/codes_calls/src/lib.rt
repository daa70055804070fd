// The calls that build codes.
#![tactic(auto)]

pub mod create;
pub mod weighted;

pub use codes_questions::{edge_num, vertex_num};
pub use create::create_code;
pub use weighted::{new, new_diagonal};

// How many vertices and edges a built code has.
#[derive(Clone, Copy, Debug, PartialEq, Eq)]
pub struct CodeCounts {
    pub vertices: u32,
    pub edges: u32,
}
