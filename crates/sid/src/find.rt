// A SID's row looked up by halving, and a new one's place put in order.
ghost use Rattle.std.specs.Prelude.{◌≡◌, ◌≤◌, ◌<◌, length};
ghost use Rattle.rules.specs.SidRows.{rank, row_at};
ghost use Rattle.sid.specs.Finding.{Sought, FoundAt, shifted};

use crate::layout::ROW_WORDS;
use crate::row::{less, row};

// How many places have rows before x. A loop, since partition_point asks its test of every word, and only those below 256 have rows.
pub fn rank(places: &[u64], rows: &[u64], x: &[u64; ROW_WORDS]) -> usize
    requires { Sought places.now rows.now x.now }
    ensures { (result ≡ rank (row_at rows.now) x.now places.now) × (result ≤ length places.now) }
{
    let mut low: usize = 0;
    let mut n: usize = places.len();
    while 0 < n {
        let half = n / 2;
        let middle = low + half;
        if less(row(rows, places[middle] as usize), x) {
            low = middle + 1;
            n = n - half - 1;
        } else {
            n = half;
        }
    }
    low
}

// The place of the row x, if it is one of `places`.
pub fn find(places: &[u64], rows: &[u64], x: &[u64; ROW_WORDS]) -> Option<usize>
    requires { Sought places.now rows.now x.now }
    ensures { FoundAt places.now rows.now x.now result }
{
    let k = rank(places, rows, x);
    if places.len() <= k {
        return None;
    }
    let i = places[k] as usize;
    if less(x, row(rows, i)) {
        return None;
    }
    Some(i)
}

// The places from k on move up by one, and k gets a new one. `rotate_right` is compiled as a call of memmove, which a host need not have
// (include/obriska.h).
pub fn shift(places: &mut [u64], n: usize, k: usize, new: u64)
    requires { (k ≤ n) × (n < length places.old) }
    ensures { places.new ≡ shifted n k new places.old }
{
    let end = n + 1;
    let mut next = new;
    for i in k..end {
        let moved = places[i];
        places[i] = next;
        next = moved;
    }
}
