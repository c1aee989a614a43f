// Numbers read as requests read them, for the benchmark of the reader (tests/numbers): the results are mixtures of what was read.
#![tactic(auto)]

use number::{Number, Reader, U32, U64};

// What stands for a body that is not so many numbers: C has no Option.
const NOTHING: u64 = 0xFFFFFFFFFFFFFFFF;

// So many fields of a limit, one after the other, and nothing after them.
fn fields(s: &[u8], count: u64, limit: u64) -> Option<u64> {
    let mut rest = Reader::new(s, 0);
    let mut mixed = 0;
    for _ in 0..count {
        mixed ^= rest.number(limit)?;
    }
    rest.is_ended().then_some(mixed)
}

// So many entries: pairs of u32 numbers.
fn entries(s: &[u8], count: u64) -> Option<u64> {
    let mut mixed = 0;
    let mut at = 0;
    for _ in 0..count {
        let key = number::number_at(s, at, U32)?;
        let Number { value, next } = number::number_at(s, key.next, U32)?;
        mixed ^= key.value ^ value;
        at = next;
    }
    Some(mixed)
}

#[unsafe(no_mangle)]
pub extern "C" fn bench_fields(s: &[u8], count: u64) -> u64 {
    fields(s, count, U32).unwrap_or(NOTHING)
}

#[unsafe(no_mangle)]
pub extern "C" fn bench_words(s: &[u8], count: u64) -> u64 {
    fields(s, count, U64).unwrap_or(NOTHING)
}

// A list that a layout passes over: where it ends.
#[unsafe(no_mangle)]
pub extern "C" fn bench_skip(s: &[u8], count: u64, limit: u64) -> u64 {
    number::skip(s, 0, count, limit).map_or(NOTHING, |end| end as u64)
}

// A list of entries.
#[unsafe(no_mangle)]
pub extern "C" fn bench_entries(s: &[u8], count: u64) -> u64 {
    entries(s, count).unwrap_or(NOTHING)
}
