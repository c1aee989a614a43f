// What a token and a handle may do: words of bits, the mask of a handle, the privileges of a token.
#![tactic(auto)]

pub mod mask;
pub mod privileges;
pub mod words;
