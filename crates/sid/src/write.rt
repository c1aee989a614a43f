// The writer of packed SIDs.
ghost use Rattle.std.specs.Prelude.{◌≡◌, ◌<◌, get_or};
ghost use Rattle.rules.specs.SidRows.{halves};
ghost use Rattle.sid.specs.Reading.{Wrote};

use crate::layout::ROW_WORDS;
use crate::row::is_row;
use table::WORD_32;
use table::slices::copy;

// Half i of a row's words.
fn half(row: &[u64; ROW_WORDS], i: usize) -> u32
    requires { i < 18 }
    ensures { result ≡ get_or (halves row.now) i 0 }
{
    let w = row[i / 2];
    if i % 2 == 0 {
        (w % WORD_32) as u32
    } else {
        (w / WORD_32) as u32
    }
}

// The packed SID of a row, at the start of out; its size. None, and nothing written, where there is no SID or no room.
pub fn write(row: &[u64], out: &mut [u8]) -> Option<usize>
    ensures { Wrote row.now out.old out.new result }
{
    let row = row.as_array::<ROW_WORDS>()?;
    if !is_row(row) {
        return None;
    }
    let fours = (row[0] / 256 % 256) as usize + 2;
    let size = 4 * fours;
    if out.len() < size {
        return None;
    }
    for i in 0..fours {
        let at = 4 * i;
        let end = at + 4;
        copy(&half(row, i).to_le_bytes(), &mut out[at..end]);
    }
    Some(size)
}
