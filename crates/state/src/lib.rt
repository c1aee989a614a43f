// The state in lent memory: each function is a definition of the rules' State, over the parts that hold it.
#![tactic(auto)]

pub mod handles;
pub mod parts;
pub mod release;
pub mod tokens;
