// SIDs and the SID table in lent memory: packed SIDs read and written, the test of the table's words, a SID looked up and entered.
#![tactic(auto)]

pub mod enter;
pub mod find;
pub mod layout;
pub mod number;
pub mod packed;
pub mod row;
pub mod valid;
pub mod write;
