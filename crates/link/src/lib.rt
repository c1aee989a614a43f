// Requests 16 and 17: two tokens are linked, and the partner of a linked token is given.
#![tactic(auto)]

pub mod link;
pub mod linked;
