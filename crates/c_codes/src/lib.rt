// For C and Rust: slices as pointer and length, answers as structs of numbers.
#![tactic(auto)]

mod access;
mod codes;
mod counts;
mod filling;
pub mod reports;
mod sanity;
mod weighing;
pub mod weighted;
