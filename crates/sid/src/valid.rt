// The test of the SID table's words: its rows are SIDs', and their order rises, so they are different.
ghost use Rattle.std.specs.Prelude.{◌≡◌, true, ◌*◌, ◌≤◌, ◌<◌, length};
ghost use Rattle.rules.specs.Basic.{all, is_below};
ghost use Rattle.rules.specs.SidTable.{max_sids};
ghost use Rattle.rules.specs.SidRows.{row_words, rising, row_at, sid_words_valid};
ghost use Rattle.sid.specs.Tests.{all_below, is_row_at, starts_test, words_test};

use crate::layout::*;
use crate::row::{is_row, less, row};
use lists::words::zero_words;

// Every word is below n; a fold, which leaves no loop early, so that the compiler makes vectors of it.
fn all_below(s: &[u64], n: u64) -> bool
    ensures { result ≡ all (is_below n) s.now }
{
    s.iter().fold(true, |ok, x| ok & (*x < n))
}

// The first n rows are SIDs'.
fn rows_valid(rows: &[u64], n: usize) -> bool
    requires { (length rows.now ≡ max_sids * row_words) × (n ≤ max_sids) }
    ensures { result ≡ all_below (is_row_at rows.now) n }
{
    let mut ok = true;
    for i in 0..n {
        ok = ok & is_row(row(rows, i));
    }
    ok
}

// Each place's row is before the next one's.
fn rises(places: &[u64], rows: &[u64]) -> bool
    requires { (length rows.now ≡ max_sids * row_words) × (0 < length places.now) × (all (is_below max_sids) places.now ≡ true) }
    ensures { result ≡ rising (row_at rows.now) places.now }
{
    let mut ok = true;
    let mut at = places[0] as usize;
    for next in &places[1..] {
        let next = *next as usize;
        ok = ok & less(row(rows, at), row(rows, next));
        at = next;
    }
    ok
}

// The first two are S-1-5-7 and S-1-5-18.
fn starts(rows: &[u64]) -> bool
    requires { length rows.now ≡ max_sids * row_words }
    ensures { result ≡ starts_test rows.now }
{
    (rows[0] == NT_HEADER) & (rows[1] == 7) & (rows[9] == NT_HEADER) & (rows[10] == 18)
}

// The count and the places, then what these stand for.
fn passes(sids: &[u64; SIDS]) -> bool
    ensures { result ≡ words_test sids.now }
{
    let count = sids[0];
    if count < 2 {
        return false;
    }
    if (MAX_SIDS as u64) < count {
        return false;
    }
    let n = count as usize;
    let places_end = PLACES + n;
    let rows_end = ROWS + n * ROW_WORDS;
    if !all_below(&sids[PLACES..places_end], count) {
        return false;
    }
    rows_valid(&sids[ROWS..SIDS], n)
        & rises(&sids[PLACES..places_end], &sids[ROWS..SIDS])
        & zero_words(&sids[places_end..ROWS])
        & zero_words(&sids[rows_end..SIDS])
        & starts(&sids[ROWS..SIDS])
}

// Refusal 13's test of the words: they are what the table that they stand for is written as, and that table is valid.
pub fn table_valid(sids: &[u64]) -> bool
    ensures { result ≡ sid_words_valid sids.now }
{
    let Some(sids) = sids.as_array::<SIDS>() else {
        return false;
    };
    passes(sids)
}
