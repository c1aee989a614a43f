// A SID's row: nine words.
ghost use Rattle.std.specs.Prelude.{◌≡◌, ◌*◌, ◌<◌, length};
ghost use Rattle.rules.specs.SidRows.{is_row, less, row_at, row_words};
ghost use Rattle.rules.specs.SidTable.{max_sids};
ghost use Rattle.sid.specs.Tests.{past_of};

use crate::layout::{MAX_SUBS, ROW_WORDS};
use lists::words::zero_words;
use table::WORD_32;

// The part of a word that is past the last sub-authority: its upper half after an odd number of them, else all of it.
fn past(word: u64, n: u64) -> u64
    ensures { result ≡ past_of word n }
{
    if n % 2 == 1 { word / WORD_32 } else { word }
}

// A revision of 1, at most 15 sub-authorities, and zeros behind them.
pub fn is_row(row: &[u64; ROW_WORDS]) -> bool
    ensures { result ≡ is_row row.now }
{
    let header = row[0];
    let n = header / 256 % 256;
    if header % 256 != 1 {
        return false;
    }
    if MAX_SUBS < n {
        return false;
    }
    let edge = (n / 2) as usize + 1;
    let behind = edge + 1;
    (past(row[edge], n) == 0) & zero_words(&row[behind..ROW_WORDS])
}

// Row i of rows.
pub(crate) fn row(rows: &[u64], i: usize) -> &[u64; ROW_WORDS]
    requires { (length rows.now ≡ max_sids * row_words) × (i < max_sids) }
    ensures { result.now ≡ row_at rows.now i }
{
    let (rows, _) = rows.as_chunks::<ROW_WORDS>();
    &rows[i]
}

// The order of rows: the first word that differs is the smaller one.
pub fn less(a: &[u64; ROW_WORDS], b: &[u64; ROW_WORDS]) -> bool
    ensures { result ≡ less a.now b.now }
{
    a < b
}
