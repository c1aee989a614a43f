// Words of 64 bits as sets of bits, in the words of the rules.
#![tactic(auto, using(crate::proofs::Bits64::words), unfolding(rules::specs::Bits::has, rules::specs::Bits::within))]

ghost use Rattle.std.specs.Prelude.{◌≡◌, ◌%◌, ◌^◌};
ghost use Rattle.std.specs.Int.Bits.{bit_or};
ghost use Rattle.rules.specs.Bits.{has, without, within};

// Bit n alone, and from 64 on no bit. Not by `checked_shl`, which takes a u32.
pub fn bit(n: u64) -> u64
    ensures { result ≡ 2 ^ n % 2 ^ 64 }
{
    if n < 64 { 1 << n } else { 0 }
}

// Bit n of w is set.
pub fn has(w: u64, n: u64) -> bool
    ensures { result ≡ has n w }
{
    n < 64 && (w >> n) % 2 == 1
}

// The bits of a and those of b.
pub fn with(a: u64, b: u64) -> u64
    ensures { result ≡ bit_or a b }
{
    a | b
}

// The bits of a that b lacks.
pub fn without(a: u64, b: u64) -> u64
    ensures { result ≡ without a b }
{
    a & !b
}

// b has every bit of a.
pub fn within(a: u64, b: u64) -> bool
    ensures { result ≡ within a b }
{
    a & b == a
}
