// A request's body: its layout, its fields, and the entries that stand in it.
#![tactic(auto)]

pub mod entry;
pub mod fields;
pub mod layout;
pub mod sid_form;
