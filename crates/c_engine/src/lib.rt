// For C and Rust: slices as pointer and length, answers as structs of numbers.
#![tactic(auto)]

mod engine;
pub mod paths;
pub mod prebuilt;
pub mod prebuilt_reports;
pub mod query_reports;
mod tables;
