// The weight of an edge by its probability, and its half weight among others: document 01's section "Weights", bit for bit.
#![tactic(auto)]

pub mod logarithm;
pub mod rounding;
