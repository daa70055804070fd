// For C and Rust: slices as pointer and length, answers as structs of numbers.
#![tactic(auto)]

mod errors;
mod ordering;
