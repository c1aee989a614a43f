// The SIDs that tokens keep are in the SID table (document 02, W5: every number that a token keeps is in the table).
#![tactic(auto)]

ghost use Rattle.std.specs.Prelude.{◌≡◌, [], ◌*◌, ◌^◌, ◌≤◌, ◌<◌};
ghost use Rattle.rules.specs.Basic.{all};
ghost use Rattle.listed.specs.Tests.{at_most, last_of, stray_of, given_test, word_test, row_test, TokensListed};

use table::WORD_32;
use token::layout::*;

const ANONYMOUS: u64 = 7;

const SYSTEM: u64 = 18;

// The lowest number that is given, and how much the last is over the count.
const FIRST: u64 = 32;

const OVER: u64 = 29;

// The highest bit. A number above the last makes a sum with what is below it reach it, one below the lowest leaves it in a difference.
const TOP: u64 = 0x8000_0000_0000_0000;

const BELOW_TOP: u64 = TOP - 1;

const OVER_TOP: u64 = TOP + FIRST - 1;

// The last number of a table of `count` SIDs; what a token keeps is below 2^32.
fn last_of(count: u64) -> u64
    ensures { (result ≡ last_of count) × (result < 2 ^ 63) }
{
    OVER + count.min(WORD_32)
}

// Its highest bit is set where a word's lower half is below the lowest number that is given or above the last.
fn stray(w: u64, last: u64) -> u64
    requires { last < 2 ^ 63 }
    ensures { result ≡ stray_of last w }
{
    let n = w % WORD_32;
    (n + (BELOW_TOP - last)) | (OVER_TOP - n)
}

// Each word's lower half is a number from the lowest that is given to the last. No loop is left early, and what is bad is gathered by `|`:
// the compiler makes vectors of it.
fn all_given(s: &[u64], last: u64) -> bool
    requires { last < 2 ^ 63 }
    ensures { result ≡ all (given_test last) s.now }
{
    s.iter().fold(0, |bad, w| bad | stray(*w, last)) / TOP % 2 == 0
}

// A word's lower half is a number of the table.
fn is_listed(w: u64, last: u64) -> bool
    ensures { result ≡ word_test last w }
{
    let n = w % WORD_32;
    (n == ANONYMOUS) | (n == SYSTEM) | ((FIRST <= n) & (n <= last))
}

fn each_listed(s: &[u64], last: u64) -> bool
    ensures { result ≡ all (word_test last) s.now }
{
    let mut ok = true;
    for w in s {
        ok &= is_listed(*w, last);
    }
    ok
}

// 7 and 18 are seldom a group's or a restricting SID's: they are looked for only where another number than those from 32 on is there.
fn all_listed(s: &[u64], last: u64) -> bool
    requires { last < 2 ^ 63 }
    ensures { result ≡ all (word_test last) s.now }
{
    all_given(s, last) || each_listed(s, last)
}

// A list's count, of no more than its row has.
fn at_most(count: u64, most: usize) -> usize
    ensures { (result ≡ at_most most count) × (result ≤ most) }
{
    count.min(most as u64) as usize
}

// The user's, the groups' and the restricting SIDs; a free slot has none.
fn row_listed(words: &[u64; TOKEN_WORDS], last: u64) -> bool
    requires { last < 2 ^ 63 }
    ensures { result ≡ row_test last words.now [] }
{
    if words[NUMBER] == 0 {
        return true;
    }
    let groups = at_most(words[GROUP_COUNT], MAX_GROUPS);
    let restricting = at_most(words[RESTRICTING_COUNT], MAX_RESTRICTING);
    let groups_end = HEAD_WORDS + groups;
    let restricting_end = GROUPS_END + restricting;
    is_listed(words[USER], last)
        & all_listed(&words[HEAD_WORDS..groups_end], last)
        & all_listed(&words[GROUPS_END..restricting_end], last)
}

// `count` is the number of the table's SIDs.
pub fn tokens_listed(tokens: &[u64; TOKENS], count: u64) -> bool
    ensures { TokensListed tokens.now count result }
{
    let last = last_of(count);
    let (rows, _) = tokens.as_chunks::<TOKEN_WORDS>();
    let mut ok = true;
    for row in rows {
        ok &= row_listed(row, last);
    }
    ok
}
