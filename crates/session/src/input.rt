// The input: station, length and bytes of a chunk, over and over. Bytes that are not there yet change nothing that was said of those before them.
ghost use Rattle.std.specs.Prelude.{◌≡◌, length, drop, ◌+◌, ◌-◌, ◌≤◌, leb};
ghost use Rattle.std.specs.List.{list_all};
ghost use Rattle.session.specs.Program.{max_chunk, number_bytes, is_cut, no_number, with_number, of_length, next};
ghost use Rattle.session.specs.Input.{Says, Kept, max_waiting};

use number::{Number, U32, number_at};

// The longest chunk.
const MAX_CHUNK: u64 = 4096;

// The most bytes of a station's number or of a length.
const NUMBER_BYTES: usize = 5;

// What the bytes so far come to: a chunk of a station that is there whole, more to be read first, or the end. Two answers without a chunk: an Option has
// one.
#[derive(Clone, Copy)]
pub enum Next {
    Chunk {
        station: u32,
        at: usize,
        size: usize,
    },
    More,
    Stop,
}

// How many bytes stand from a place on.
fn left(s: &[u8], from: usize) -> usize
    ensures { result ≡ length s.now - from }
{
    s.len().saturating_sub(from)
}

// Each byte from a place on says that its number goes on.
fn go_on(s: &[u8], from: usize) -> bool
    ensures { result ≡ list_all (leb 128) (drop from s.now) }
{
    s.iter().skip(from).all(|b| 128 <= *b)
}

// The bytes from a place on may be the first of a number.
#[tactic(auto, using(crate::proofs::Reading::too_long, crate::proofs::Reading::begun))]
fn is_cut(s: &[u8], from: usize) -> bool
    ensures { result ≡ is_cut (drop from s.now) }
{
    left(s, from) < NUMBER_BYTES && go_on(s, from)
}

// No number stands at a place.
fn unread(s: &[u8], from: usize) -> Next
    ensures { Says s.now from number_bytes (no_number (drop from s.now)) result }
{
    if is_cut(s, from) {
        Next::More
    } else {
        Next::Stop
    }
}

// A chunk's length and bytes, after its station.
fn sized(s: &[u8], station: u32, from: usize) -> Next
    ensures { Says s.now from (number_bytes + max_chunk) (with_number (drop from s.now) (of_length station)) result }
{
    let Some(Number { value: size, next }) = number_at(s, from, U32) else {
        return unread(s, from);
    };
    if MAX_CHUNK < size {
        return Next::Stop;
    }
    let n = size as usize;
    if left(s, next) < n {
        return Next::More;
    }
    Next::Chunk {
        station,
        at: next,
        size: n,
    }
}

// The next chunk of the bytes from a place on.
pub fn next_chunk(s: &[u8], from: usize) -> Next
    ensures { Says s.now from max_waiting (next (drop from s.now)) result }
{
    match number_at(s, from, U32) {
        None => unread(s, from),
        Some(station) => sized(s, station.value as u32, station.next),
    }
}

// The bytes from a place up to an end move to the front of the buffer, where more can be read after them. How many they are.
pub fn keep(buffer: &mut [u8], from: usize, end: usize) -> usize
    requires { (from ≤ end) × (end ≤ length buffer.old) }
    ensures { Kept from end buffer.old buffer.new result }
{
    let n = end - from;
    buffer.copy_within(from..end, 0);
    n
}
