// Tests of every element of a slice. What is bad is gathered by `|`, and no loop is left early: the compiler makes vectors of them.
#![tactic(auto, using(crate::proofs::Loops::zeros_folded, crate::proofs::Loops::narrow_folded))]

ghost use Rattle.std.specs.Prelude.{◌≡◌};
ghost use Rattle.rules.specs.Basic.{all, is_zero};
ghost use Rattle.lists.specs.Tests.{is_narrow};

use table::WORD_32;

pub fn zero_words(s: &[u64]) -> bool
    ensures { result ≡ all is_zero s.now }
{
    s.iter().fold(0, |bad, w| bad | *w) == 0
}

pub fn zero_bytes(s: &[u8]) -> bool
    ensures { result ≡ all is_zero s.now }
{
    s.iter().fold(0, |bad, b| bad | *b) == 0
}

// Every word is below 2^32.
pub fn narrow_words(s: &[u64]) -> bool
    ensures { result ≡ all is_narrow s.now }
{
    s.iter().fold(0, |bad, w| bad | *w / WORD_32) == 0
}
