// A set of groups' indexes in four words, by value: index i is bit i % 64 of word i / 64.
#![tactic(auto, using(crate::proofs::Named::indexes))]

ghost use Rattle.std.specs.Prelude.{◌≡◌, ◌^◌, ◌<◌};
ghost use Rattle.std.specs.Int.Bits.{bit_or};
ghost use Rattle.rules.specs.Bits.{has};
ghost use Rattle.rules.specs.Token.{max_groups};
ghost use Rattle.marks.specs.Named.{named};

use privilege::words;

const WORD_BITS: u64 = 64;

const WORDS: usize = 4;

#[derive(Clone, Copy, PartialEq, Eq)]
pub struct Marks(pub [u64; WORDS]);

// Functions and not methods: nothing calls them yet, and their names stay.

#[tactic(auto, unfolding(crate::specs::Named::joined))]
pub fn none() -> Marks
    ensures { named result ≡ 0 }
{
    Marks([0; WORDS])
}

// An index past the words is not in the set.
pub fn has(m: Marks, index: u64) -> bool
    ensures { result ≡ has index (named m) }
{
    let word = m.0.get((index / WORD_BITS) as usize);
    word.is_some_and(|&word| words::has(word, index % WORD_BITS))
}

// One index more.
pub fn with(m: Marks, index: u64) -> Marks
    requires { index < max_groups }
    ensures { named result ≡ bit_or (named m) (2 ^ index) }
{
    let mut words = m.0;
    words[(index / WORD_BITS) as usize] |= words::bit(index % WORD_BITS);
    Marks(words)
}
