// The entries of requests 5 and 6, as they stand in a body.
ghost use Rattle.std.specs.Prelude.{◌≡◌, drop};
ghost use Rattle.rules.specs.Request.{times, entry};
ghost use Rattle.body.specs.Entries.{PairAt, is_just};

use number::{U32, number_at};

// An entry, and the place after it.
#[derive(Clone, Copy)]
pub struct Entry {
    pub key: u64,
    pub value: u64,
    pub next: usize,
}

#[tactic(auto, using(crate::proofs::Pairs::no_key, crate::proofs::Pairs::no_value, crate::proofs::Pairs::key_value))]
pub fn read(s: &[u8], at: usize) -> Option<Entry>
    ensures { PairAt s.now at result }
{
    let key = number_at(s, at, U32)?;
    let value = number_at(s, key.next, U32)?;
    Some(Entry {
        key: key.value,
        value: value.value,
        next: value.next,
    })
}

// Just this one entry stands there: a reset.
pub fn is_just(key: u64, value: u64, s: &[u8], at: usize, count: u64) -> bool
    ensures { result ≡ is_just key value (times count entry (drop at s.now)) }
{
    count == 1 && read(s, at).is_some_and(|e| (e.key == key) & (e.value == value))
}
