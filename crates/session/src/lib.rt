// A session of the program on standard input, but for the input and output themselves: what the bytes read so far come to, and what a chunk does.
#![tactic(auto)]

pub mod input;
pub mod turn;
