// The weights of a new code: the largest, questions 8 to 10, and what each edge gets.
#![tactic(auto)]

pub mod questions;
pub mod weigh;

use columns::Weight;

// What an edge gets.
#[derive(Clone, Copy)]
pub struct Weighed {
    pub p: f64,
    pub half: Weight,
}
