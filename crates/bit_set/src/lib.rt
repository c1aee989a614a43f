// Sets of numbers as bits of words: number i is bit i % 64 of word i / 64.
#![tactic(auto, using(crate::proofs::Laws::words), unfolding(crate::specs::Set::contains))]

ghost use Rattle.std.specs.Prelude.{◌≡◌, ◌/◌, ltb, length};
ghost use Rattle.bit_set.specs.Set.{word_bits, contains, entered};

use privilege::words;

pub const WORD_BITS: u64 = 64;

// Number i is in the set; none past the last word is.
pub fn contains(set: &[u64], i: u64) -> bool
    ensures { result ≡ contains i set.now }
{
    let word = set.get((i / WORD_BITS) as usize);
    word.is_some_and(|&word| words::has(word, i % WORD_BITS))
}

// Enters number i, and tells whether the set has a word for it; else nothing changes.
pub fn enter(i: u64, set: &mut [u64]) -> bool
    ensures { (result ≡ ltb (i / word_bits) (length set.old)) × (set.new ≡ entered i set.old) }
{
    // Not by `get_mut`: std does not say what the slice holds after a write through it.
    let word = (i / WORD_BITS) as usize;
    if set.len() <= word {
        return false;
    }
    set[word] |= words::bit(i % WORD_BITS);
    true
}
