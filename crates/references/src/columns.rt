// The numbers of tokens, in the order of their slots, and of stations' and pairs' tokens. Those of free slots are left out, so that loops over the list are short.
ghost use Rattle.std.specs.Prelude.{◌≡◌, ℕ, ◌+◌, ◌≤◌, ◌<◌, List, length};
ghost use Rattle.rules.specs.State.{token_slots, station_count, pair_slots};
ghost use Rattle.rules.specs.Memory.{token_words, pair_words, stations_in, pairs_in};
ghost use Rattle.lists.specs.Tests.{reference_slots};
ghost use Rattle.references.specs.Tests.{column_by, first_word, other_word, token_in, client_in, pair_column, nonzero, Front, Joined, Added};

use crate::REFERENCES;
use crate::rows::{pair_rows, station_rows, token_rows};
use control::layout::{CLIENT_WORD, CONTROL_WORDS, ELEVATED_WORD, PRIMARY_WORD, STATION_WORDS};
use token::layout::{KIND, NUMBER, TOKEN_SLOTS, TOKEN_WORDS, TOKENS};
use token_rows::PRIMARY;

// The first `count` of `numbers`. An array and its count: a push behind a test takes two to four times as long as the write in any case.
#[derive(Clone, Copy)]
pub struct Given {
    pub count: usize,
    pub numbers: [u64; TOKEN_SLOTS],
}

pub fn first_word(row: &[u64; TOKEN_WORDS]) -> u64
    ensures { result ≡ first_word row.now }
{
    row[NUMBER]
}

// The number of a token that is not primary, else 0.
pub fn other_word(row: &[u64; TOKEN_WORDS]) -> u64
    ensures { result ≡ other_word row.now }
{
    if row[KIND] % 256 == PRIMARY {
        0
    } else {
        row[NUMBER]
    }
}

// A station's primary token.
pub fn token_in(row: &[u64; STATION_WORDS]) -> u64
    ensures { result ≡ token_in row.now }
{
    row[PRIMARY_WORD]
}

// The token that a station acts for; its primary one again where there is none, so that every station has one.
pub fn client_in(row: &[u64; STATION_WORDS]) -> u64
    ensures { result ≡ client_in row.now }
{
    if row[CLIENT_WORD] == 0 {
        row[PRIMARY_WORD]
    } else {
        row[CLIENT_WORD]
    }
}

// What `word` gives of the tokens' rows, but for 0. A row's word is written in any case, and counted or not: no branch is mispredicted.
pub fn numbers<F: Fn(&[u64; TOKEN_WORDS]) -> u64>(tokens: &[u64; TOKENS], word: F) -> Given
    ghost f: { List ℕ → ℕ }
    requires callable { (row : _) → F.pre word row }
    requires tied { (row : _) (x : ℕ) → F.post word row x → x ≡ f row.now }
    ensures { Front token_slots (nonzero (column_by f token_words token_slots tokens.now)) result.count result.numbers }
{
    let mut numbers = [0; TOKEN_SLOTS];
    let mut count = 0;
    for row in token_rows(tokens) {
        let x = word(row);
        numbers[count] = x;
        count += usize::from(x != 0);
    }
    Given { count, numbers }
}

// A word of every live pair's row, behind the first n of `out`; how many stand there then.
pub fn add_pairs(out: &mut [u64], n: usize, word: usize, control: &[u64; CONTROL_WORDS]) -> usize
    requires { (n + pair_slots ≤ length out.old) × (word < pair_words) }
    ensures { Joined (pair_column word (pairs_in control.now)) n out.old out.new result }
{
    let mut m = n;
    for row in pair_rows(control) {
        out[m] = row[word];
        m += usize::from(row[ELEVATED_WORD] != 0);
    }
    m
}

// What `token` gives of the stations' rows, behind the first n of `referred`.
pub fn add_stations<F: Fn(&[u64; STATION_WORDS]) -> u64>(
    referred: &mut [u64; REFERENCES],
    n: usize,
    control: &[u64; CONTROL_WORDS],
    token: F,
)
    ghost f: { List ℕ → ℕ }
    requires room { n + station_count ≤ reference_slots }
    requires callable { (row : _) → F.pre token row }
    requires tied { (row : _) (x : ℕ) → F.post token row x → x ≡ f row.now }
    ensures { Added f n (stations_in control.now) referred.old referred.new }
{
    for (i, row) in station_rows(control).iter().enumerate() {
        referred[n + i] = token(row);
    }
}
