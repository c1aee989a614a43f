// The sizes of tokens' parts and rows in lent memory, and the places of a token's words.
pub const TOKEN_SLOTS: usize = 16;

pub const MAX_GROUPS: usize = 64;

pub const MAX_RESTRICTING: usize = 16;

pub const MAX_DACL: usize = 256;

// A token's row: its head, its groups, its restricting SIDs; beside it the row of its DACL.
pub const HEAD_WORDS: usize = 21;

pub const GROUPS_END: usize = HEAD_WORDS + MAX_GROUPS;

pub const TOKEN_WORDS: usize = GROUPS_END + MAX_RESTRICTING;

// The words of all slots' rows, and the bytes of their DACLs.
pub const TOKENS: usize = TOKEN_SLOTS * TOKEN_WORDS;

pub const DACLS: usize = TOKEN_SLOTS * MAX_DACL;

// A token's head.
pub const NUMBER: usize = 0;

pub const MODIFIED: usize = 1;

pub const SESSION: usize = 2;

pub const USER: usize = 3;

pub const KIND: usize = 4;

pub const LEVEL: usize = 5;

pub const ELEVATION: usize = 6;

pub const WRITE_RESTRICTED: usize = 7;

pub const USER_DENY_ONLY: usize = 8;

pub const OWNER: usize = 9;

pub const PRIMARY_GROUP: usize = 10;

pub const SCOPE: usize = 11;

pub const INTEGRITY: usize = 12;

pub const PRESENT: usize = 13;

pub const ENABLED: usize = 14;

pub const BY_DEFAULT: usize = 15;

pub const USED: usize = 16;

pub const GROUP_COUNT: usize = 17;

pub const RESTRICTING_COUNT: usize = 18;

pub const DACL_COUNT: usize = 19;

pub const ROOT: usize = 20;

// The elevations of a linked pair's tokens: numbers, as `row::set_elevation` promises what it does for each.
pub const FULL: u64 = 2;

pub const LIMITED: u64 = 3;
