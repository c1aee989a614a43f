// The control words in lent memory: the next numbers, a row for each station, and one for each linked pair. Each function is a definition of
// the rules' State, for every state that the words hold.
#![tactic(auto)]

pub mod counters;
pub mod initial;
pub mod layout;
pub mod pairs;
pub mod references;
pub mod sids;
pub mod stations;
