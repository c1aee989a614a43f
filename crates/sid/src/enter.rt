// A SID entered in the table.
ghost use Rattle.std.specs.Prelude.{◌≡◌, true, ◌≤◌, ◌<◌};
ghost use Rattle.rules.specs.SidTable.{max_sids};
ghost use Rattle.rules.specs.SidRows.{sid_words_valid};
ghost use Rattle.sid.specs.Finding.{added, EnteredAs, Rowed};

use crate::find::{find, rank, shift};
use crate::layout::*;
use table::slices::copy;

// x behind the last of n rows, where k are before it.
fn add(sids: &mut [u64; SIDS], x: &[u64; ROW_WORDS], n: usize, k: usize)
    requires { (k ≤ n) × (n < max_sids) }
    ensures { sids.new ≡ added n k x.now sids.old }
{
    shift(&mut sids[PLACES..ROWS], n, k, n as u64);
    let at = ROWS + n * ROW_WORDS;
    let end = at + ROW_WORDS;
    copy(x, &mut sids[at..end]);
    sids[0] = n as u64 + 1;
}

// The place of the SID whose row is x, which is entered if it is new and there is room.
pub fn enter(sids: &mut [u64; SIDS], x: &[u64; ROW_WORDS]) -> Option<usize>
    requires { (sid_words_valid sids.old ≡ true) × Rowed x.now }
    ensures { EnteredAs x.now sids.old sids.new result }
{
    let n = sids[0] as usize;
    let end = PLACES + n;
    let table = &*sids;
    if let Some(i) = find(&table[PLACES..end], &table[ROWS..SIDS], x) {
        return Some(i);
    }
    if MAX_SIDS <= n {
        return None;
    }
    let k = rank(&table[PLACES..end], &table[ROWS..SIDS], x);
    add(sids, x, n, k);
    Some(n)
}
