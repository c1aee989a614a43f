// What requests begin and end with: the handle that they name and its token, a new token, and how they end.
#![tactic(auto)]

pub mod issue;
pub mod located;
pub mod lookup;
pub mod outcome;
