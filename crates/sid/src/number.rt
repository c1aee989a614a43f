// Numbers in the SID table: 7 and 18 from the start, then 32 and up in the order of the rows.
ghost use Rattle.std.specs.Prelude.{◌≡◌, ◌≤◌};
ghost use Rattle.rules.specs.SidTable.{max_sids, number_at};
ghost use Rattle.sid.specs.Numbers.{NumberIn, place_in, WroteNumber};

use crate::layout::*;
use crate::row::row;
use crate::write::write;

const ANONYMOUS: u64 = 7;

const SYSTEM: u64 = 18;

// The lowest number that is given, and how much it and those behind it are over their places.
const FIRST: u64 = 32;

const OVER: u64 = 30;

// The number of a place.
pub fn number_at(place: usize) -> u64
    requires { place ≤ max_sids }
    ensures { result ≡ number_at place }
{
    if place == 0 {
        return ANONYMOUS;
    }
    if place == 1 {
        return SYSTEM;
    }
    OVER + place as u64
}

// n is a number in a table of so many SIDs.
pub fn is_number(n: u64, count: u64) -> bool
    requires { count ≤ max_sids }
    ensures { NumberIn n count result }
{
    (n == ANONYMOUS) | (n == SYSTEM) | ((FIRST <= n) & (n < OVER + count))
}

// Where a number stands.
fn place_of(n: u64) -> Option<usize>
    ensures { result ≡ place_in n }
{
    if n == ANONYMOUS {
        return Some(0);
    }
    if n == SYSTEM {
        return Some(1);
    }
    if n < FIRST {
        return None;
    }
    Some((n - OVER) as usize)
}

// The packed SID of a number in the table, at the start of out; its size. None, and nothing written, where the words have another size or
// count, the number is none of theirs, its row is no SID's, or there is no room. Nothing else of the words is tested.
pub fn write_number(sids: &[u64], number: u32, out: &mut [u8]) -> Option<usize>
    ensures { WroteNumber sids.now number out.old out.new result }
{
    let sids = sids.as_array::<SIDS>()?;
    let count = sids[0];
    if (MAX_SIDS as u64) < count {
        return None;
    }
    let place = place_of(number as u64)?;
    if count as usize <= place {
        return None;
    }
    write(row(&sids[ROWS..SIDS], place), out)
}
