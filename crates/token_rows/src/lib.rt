// The tokens' rows (document 01: 'Memory is in order when ..' free places are zero, lists are within their limits and zero past their
// counts, and every field is within its range).
#![tactic(auto)]

ghost use Rattle.std.specs.Prelude.{◌≡◌, ◌*◌, map};
ghost use Rattle.table.specs.Rows.{test_rows};
ghost use Rattle.rules.specs.Basic.{all};
ghost use Rattle.rules.specs.Token.{max_dacl};
ghost use Rattle.rules.specs.State.{token_slots};
ghost use Rattle.rules.specs.AdjustDefaults.{valid_owner};
ghost use Rattle.rules.specs.Memory.{unpack, token_words};
ghost use Rattle.token_rows.specs.Tests.{group_test, carried_to, head_test, Counted, lists_test, live_test, token_test};

use lists::words::{narrow_words, zero_bytes, zero_words};
use privilege::privileges::Privileges;
use table::WORD_32;
use token::layout::*;
use token::{Group, Identity};

pub const PRIMARY: u64 = Identity::PRIMARY as u64;

pub const IMPERSONATION: u64 = Identity::IMPERSONATION as u64;

// The attributes that a group may have; they stand above the SID in its word.
const ATTRIBUTES: u64 = 0xC000001F;

// LOGON_ID's two bits, ENABLED and DENY_ONLY; and what, added to them, carries: to LOGON_ID's upper bit where LOGON_ID is there by half, and
// to the bit above DENY_ONLY where ENABLED is there too.
const PAIRS: u64 = 0xC000001400000000;

const CARRY: u64 = 0x4000000C00000000;

const BY_HALF: u64 = 0x8000000000000000;

const BOTH: u64 = 0x2000000000;

fn carried(w: u64) -> u64
    ensures { result ≡ carried_to w }
{
    (w & PAIRS).wrapping_add(CARRY)
}

// No group has a bit of no attribute, LOGON_ID by half, or both ENABLED and DENY_ONLY.
fn groups_valid(s: &[u64]) -> bool
    ensures { result ≡ all group_test s.now }
{
    let mut any: u64 = 0;
    let mut carry: u64 = 0;
    for w in s {
        any |= *w;
        carry |= carried(*w);
    }
    let attributes = any / WORD_32;
    ((attributes & ATTRIBUTES) == attributes) & (carry / BY_HALF % 2 == 0) & (carry / BOTH % 2 == 0)
}

// The owner index names the user or an OWNER group.
fn owner_valid(groups: &[u64], owner: u64) -> bool
    ensures { result ≡ valid_owner (map unpack groups.now) owner }
{
    owner == 0
        || groups
            .get((owner - 1) as usize)
            .is_some_and(|w| Group::from(*w).is_owner())
}

// The fields but the integrity, the owner, the primary group and the counts.
fn head_valid(w: &[u64; TOKEN_WORDS]) -> bool
    ensures { result ≡ head_test w.now }
{
    let present = w[PRESENT];
    (w[USER] < WORD_32)
        & ((PRIMARY <= w[KIND]) & (w[KIND] <= IMPERSONATION))
        & (w[LEVEL] <= 3)
        & ((w[KIND] != PRIMARY) | (w[LEVEL] == 0))
        & ((1 <= w[ELEVATION]) & (w[ELEVATION] <= 3))
        & (w[WRITE_RESTRICTED] < 2)
        & (w[USER_DENY_ONLY] < 2)
        & (w[SCOPE] < WORD_32)
        & (w[ROOT] <= w[NUMBER])
        & (((w[BY_DEFAULT] & present) == w[BY_DEFAULT])
            & ((w[ENABLED] & present) == w[ENABLED])
            & ((present & Privileges::EXISTING) == present)
            & ((w[USED] & Privileges::EXISTING) == w[USED]))
}

// The lists end where their counts say, and restricting SIDs are below 2^32.
fn lists_valid(words: &[u64; TOKEN_WORDS], dacl: &[u8; MAX_DACL]) -> bool
    requires { Counted words.now dacl.now }
    ensures { result ≡ lists_test words.now dacl.now }
{
    let groups_end = HEAD_WORDS + words[GROUP_COUNT] as usize;
    let restricting_end = GROUPS_END + words[RESTRICTING_COUNT] as usize;
    let dacl_end = words[DACL_COUNT] as usize;
    zero_words(&words[groups_end..GROUPS_END])
        & narrow_words(&words[GROUPS_END..restricting_end])
        & zero_words(&words[restricting_end..TOKEN_WORDS])
        & zero_bytes(&dacl[dacl_end..MAX_DACL])
}

// A row with a token whose counts are within their limits.
fn live_valid(words: &[u64; TOKEN_WORDS], dacl: &[u8; MAX_DACL]) -> bool
    requires { Counted words.now dacl.now }
    ensures { result ≡ live_test words.now dacl.now }
{
    let owner = words[OWNER];
    let primary_group = words[PRIMARY_GROUP];
    let groups = words[GROUP_COUNT];
    let groups_end = HEAD_WORDS + groups as usize;
    head_valid(words)
        & token::valid_integrity(words[INTEGRITY])
        & groups_valid(&words[HEAD_WORDS..groups_end])
        & owner_valid(&words[HEAD_WORDS..groups_end], owner)
        & (primary_group <= groups)
        & lists_valid(words, dacl)
}

// A row is what its slot is written as, and the token in it, if any, is valid.
fn token_valid(words: &[u64; TOKEN_WORDS], dacl: &[u8; MAX_DACL]) -> bool
    ensures { result ≡ token_test words.now dacl.now }
{
    if words[NUMBER] == 0 {
        return zero_words(words) & zero_bytes(dacl);
    }
    if (MAX_GROUPS as u64) < words[GROUP_COUNT] {
        return false;
    }
    if (MAX_RESTRICTING as u64) < words[RESTRICTING_COUNT] {
        return false;
    }
    if (MAX_DACL as u64) < words[DACL_COUNT] {
        return false;
    }
    live_valid(words, dacl)
}

pub fn tokens_valid(tokens: &[u64; TOKENS], dacls: &[u8; DACLS]) -> bool
    ensures { result ≡ test_rows token_test token_words max_dacl token_slots tokens.now dacls.now }
{
    let (rows, _) = tokens.as_chunks::<TOKEN_WORDS>();
    let (dacl_rows, _) = dacls.as_chunks::<MAX_DACL>();
    let mut ok = true;
    for (words, dacl) in rows.iter().zip(dacl_rows) {
        ok &= token_valid(words, dacl);
    }
    ok
}
