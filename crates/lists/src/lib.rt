// Tests of every number of a list.
#![tactic(auto)]

pub mod numbers;
pub mod words;
