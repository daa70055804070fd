// Document 01's number and values of an answer, said once for every call, in specs/; and the values that calls of several crates hand back.
#![tactic(auto)]

// How many defects and how many erasures a syndrome has.
#[derive(Clone, Copy, Debug, PartialEq, Eq)]
pub struct SyndromeLengths {
    pub defects: u32,
    pub erasures: u32,
}
