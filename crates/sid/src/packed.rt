// The reader of packed SIDs: revision 1, the number of sub-authorities, six authority bytes, then four bytes each, low byte first.
ghost use Rattle.std.specs.Prelude.{◌≡◌, true, ◌+◌, ◌*◌, ◌≤◌, ◌<◌, length, take, drop, get_or};
ghost use Rattle.rules.specs.Basic.{word32};
ghost use Rattle.rules.specs.Sid.{from_bytes, is_packed, sid_in};
ghost use Rattle.rules.specs.SidRows.{sid_row};
ghost use Rattle.sid.specs.Reading.{packed_size};

use crate::layout::{MAX_SUBS, ROW_WORDS};
use table::WORD_32;

// The bytes before the sub-authorities.
const HEADER: usize = 8;

// The size of the packed SID that the bytes begin with.
fn size_of(bytes: &[u8]) -> Option<usize>
    ensures { result ≡ packed_size bytes.now }
{
    if bytes.len() < HEADER {
        return None;
    }
    if bytes[0] != 1 {
        return None;
    }
    let n = bytes[1] as usize;
    if MAX_SUBS < n as u64 {
        return None;
    }
    let size = HEADER + 4 * n;
    if bytes.len() < size {
        return None;
    }
    Some(size)
}

// The size of the packed SID at a place, where one is.
pub fn size_at(s: &[u8], at: usize) -> Option<usize>
    ensures { result ≡ packed_size (drop at s.now) }
{
    size_of(s.get(at..)?)
}

// Four bytes, low byte first.
fn four(s: &[u8], at: usize) -> u32
    requires { at + 4 ≤ length s.now }
    ensures { result ≡ from_bytes (take 4 (drop at s.now)) }
{
    u32::from_le_bytes([s[at], s[at + 1], s[at + 2], s[at + 3]])
}

// Sub-authority i of the n of a packed SID; 0 from n on.
fn sub_at(s: &[u8], at: usize, n: usize, i: usize) -> u32
    requires { (is_packed (drop at s.now) ≡ true) × (n ≡ get_or s.now (at + 1) 0) × (i < 16) }
    ensures { result ≡ get_or (sid_in (drop at s.now)).subs i 0 }
{
    if i < n {
        four(s, at + HEADER + 4 * i)
    } else {
        0
    }
}

// A word of two numbers.
fn pair(low: u32, high: u32) -> u64
    ensures { result ≡ low + high * word32 }
{
    low as u64 + high as u64 * WORD_32
}

// The row of the packed SID at a place.
pub fn load(s: &[u8], at: usize) -> [u64; ROW_WORDS]
    requires { is_packed (drop at s.now) ≡ true }
    ensures { result ≡ sid_row (sid_in (drop at s.now)) }
{
    let mut row = [0u64; ROW_WORDS];
    row[0] = pair(four(s, at), four(s, at + 4));
    let n = s[at + 1] as usize;
    for i in 1..ROW_WORDS {
        let k = 2 * i - 2;
        row[i] = pair(sub_at(s, at, n, k), sub_at(s, at, n, k + 1));
    }
    row
}
