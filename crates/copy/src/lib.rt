// Requests 9 and 10: a duplicate of a token, and a restricted copy. What request 15 shares with 10 is public.
#![tactic(auto)]

pub mod asked;
mod denied_groups;
pub mod duplicate;
mod numbers;
pub mod restrict;
pub mod restricted_row;
pub mod restricting;
pub mod rows;
