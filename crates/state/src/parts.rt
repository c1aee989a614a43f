// The lent parts that requests read and change: all but the pending bytes. The handles are read alone: a request changes one of them at most,
// and tells which.
use control::layout::CONTROL_WORDS;
use handle::HANDLE_WORDS;
use token::layout::{DACLS, TOKENS};

#[derive(Drop)]
pub struct Parts<'a> {
    pub handles: &'a [u64; HANDLE_WORDS],
    pub tokens: &'a mut [u64; TOKENS],
    pub dacls: &'a mut [u8; DACLS],
    pub control: &'a mut [u64; CONTROL_WORDS],
}
