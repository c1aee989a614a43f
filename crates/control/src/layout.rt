// The places of the control words: sections one after the other. What is new goes to the end, a section behind the last and a word behind
// the others of its row.
pub use sid::layout::SIDS;

pub const STATIONS: usize = 8;

// The next numbers.
pub const NEXT_TOKEN: usize = 0;

pub const NEXT_HANDLE: usize = 1;

pub const COUNTER_WORDS: usize = 2;

// A station's row: its primary token, how many bytes are pending, whether the stream is broken, the token that it acts for and the level in force.
pub const PRIMARY_WORD: usize = 0;

pub const COUNT_WORD: usize = 1;

pub const BROKEN_WORD: usize = 2;

pub const CLIENT_WORD: usize = 3;

pub const LEVEL_WORD: usize = 4;

pub const STATION_WORDS: usize = 5;

// A linked pair's row: its session, its elevated token and its filtered one. A free place is zero.
pub const PAIRS: usize = 4;

pub const SESSION_WORD: usize = 0;

pub const ELEVATED_WORD: usize = 1;

pub const FILTERED_WORD: usize = 2;

pub const PAIR_WORDS: usize = 3;

// Where the sections begin and end.
pub const STATIONS_AT: usize = COUNTER_WORDS;

pub const STATIONS_END: usize = STATIONS_AT + STATIONS * STATION_WORDS;

pub const PAIRS_AT: usize = STATIONS_END;

pub const PAIRS_END: usize = PAIRS_AT + PAIRS * PAIR_WORDS;

pub const SIDS_AT: usize = PAIRS_END;

pub const SIDS_END: usize = SIDS_AT + SIDS;

pub const CONTROL_WORDS: usize = SIDS_END;

// The largest numbers of their types, which are given to no token and to no handle.
pub const MAX_TOKEN: u64 = 0xFFFF_FFFF_FFFF_FFFF;

pub const MAX_HANDLE: u64 = 0xFFFF_FFFF;
