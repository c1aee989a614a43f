// The places of the SID table's words: how many SIDs it has, then the places of their rows by rising rows, then the rows in the order of the
// numbers. What is behind the last is zero.
pub const MAX_SIDS: usize = 256;

pub const PLACES: usize = 1;

pub const ROWS: usize = PLACES + MAX_SIDS;

pub const SIDS: usize = ROWS + MAX_SIDS * ROW_WORDS;

// A row: the eight bytes before the sub-authorities, then two of these a word.
pub const ROW_WORDS: usize = 9;

pub const MAX_SUBS: u64 = 15;

// The first word of S-1-5-7 and of S-1-5-18.
pub const NT_HEADER: u64 = 0x0500_0000_0000_0101;
