// Neighbour lists and question 7 of document 01.
#![tactic(auto)]

pub mod lists;
pub mod sound;
