// Numbers on the line: seven bits a byte, low bits first, the top bit set where more follow; the shortest form only.
#![tactic(auto)]

ghost use Rattle.std.specs.Prelude.{◌≡◌, true, ◌+◌, ◌/◌, ◌≤◌, ◌<◌, min, length, bit_or};
ghost use Rattle.std.specs.List.{fold};
ghost use Rattle.rules.specs.Number.{max64, encode};
ghost use Rattle.number.specs.Over.{over};
ghost use Rattle.number.specs.Meaning.{NumberAt, LongerAt, Joined, Passed};

mod frame;
mod reader;

pub use frame::{answer, sizes};
pub use reader::{Reader, bytes_at, number_at};

// The largest values of the fields' widths.
pub const U16: u64 = 0xFFFF;

pub const U32: u64 = 0xFFFFFFFF;

pub const U64: u64 = 0xFFFFFFFFFFFFFFFF;

// What stands at a place: a value, and the place after it.
#[derive(Clone, Copy, PartialEq, Eq)]
pub struct Number {
    pub value: u64,
    pub next: usize,
}

// How many bytes a number takes.
pub fn size(n: u64) -> usize
    ensures { (result ≡ length (encode n)) × (1 ≤ result) × (result ≤ 10) }
{
    if n < 128 { 1 } else { size(n / 128) + 1 }
}

// Writes a number at the start of out, as far as there is room.
pub fn write(n: u64, out: &mut [u8]) -> usize
    ensures { (result ≡ min (length (encode n)) (length out.old)) × (out.new ≡ over (encode n) out.old) }
{
    if out.len() == 0 {
        return 0;
    }
    if n < 128 {
        out[0] = n as u8;
        1
    } else {
        out[0] = (n % 128 + 128) as u8;
        write(n / 128, &mut out[1..]) + 1
    }
}

// A byte with its top bit set, before the rest of its number.
fn joined(b: u64, rest: Number, limit: u64) -> Option<Number>
    requires { (128 ≤ b) × (b < 256) × (rest.value ≤ max64 / 128) }
    ensures { Joined b rest.value rest.next limit result }
{
    let value = b - 128 + 128 * rest.value;
    if (rest.value == 0) | (limit < value) {
        return None;
    }
    Some(Number { value, ..rest })
}

// A byte with its top bit set, before what stands at a place.
fn longer(s: &[u8], from: usize, limit: u64, b: u64) -> Option<Number>
    requires { (128 ≤ b) × (b < 256) }
    ensures { LongerAt s.now from limit b result }
{
    if limit < 128 {
        return None;
    }
    let d = u64::from(*s.get(from)?);
    let next = from + 1;
    if d < 128 {
        return joined(b, Number { value: d, next }, limit);
    }
    // The call is lent a copy: s then stays in registers.
    let same = s;
    let rest = longer(same, next, limit / 128, d)?;
    joined(b, rest, limit)
}

// The number at a place, in a field whose largest value is the limit. Almost every number is one byte: it is answered first, in the caller's own code.
#[tactic(auto, using(crate::proofs::Reading::readings))]
fn read(s: &[u8], at: usize, limit: u64) -> Option<Number>
    ensures { NumberAt s.now at limit result }
{
    let value = u64::from(*s.get(at)?);
    let next = at + 1;
    if value < 128 {
        if limit < value {
            return None;
        }
        return Some(Number { value, next });
    }
    // The call is lent a copy: s then stays in registers, and a one-byte number costs no store.
    let same = s;
    longer(same, next, limit, value)
}

// The bits of all bytes: none is above them. Each is looked at, with no early exit, so that the compiler takes many at once.
fn bits(s: &[u8]) -> u8
    ensures { result ≡ fold bit_or 0 s.now }
{
    s.iter().fold(0, |all, b| all | *b)
}

// Whether count bytes from a place on are there and are numbers of the limit: none has its top bit set, and the field takes all such.
fn short(s: &[u8], from: usize, count: u64, limit: u64) -> bool
    ensures { result ≡ true → Passed s.now from count limit (Some (from + count)) }
{
    if limit < 127 {
        return false;
    }
    let Some(rest) = s.get(from..) else {
        return false;
    };
    if (rest.len() as u64) < count {
        return false;
    }
    bits(&rest[..count as usize]) < 128
}

// The place after count numbers of a limit. A list of short ones is tested at once.
pub fn skip(s: &[u8], from: usize, count: u64, limit: u64) -> Option<usize>
    ensures { Passed s.now from count limit result }
{
    if short(s, from, count, limit) {
        return Some(from + count as usize);
    }
    let mut at = from;
    for _ in 0..count {
        at = number_at(s, at, limit)?.next;
    }
    Some(at)
}
