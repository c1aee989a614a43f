// Requests 7 and 8: a token's scope and defaults are changed in its rows.
#![tactic(auto)]

mod default_dacl;
mod default_fields;
pub mod defaults;
pub mod scope;
