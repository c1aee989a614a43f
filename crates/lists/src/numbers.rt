// Tests by how often a number stands in a list. Numbers given are distinct where each stands among them once; and then all of another
// list are among them where they stand in it, in all, as often as it is long. Handles' numbers have 32 bits, so that more of them are compared at a time.
ghost use Rattle.std.specs.Prelude.{◌≡◌, ℕ, ◌+◌, ◌-◌, ◌^◌, ◌<◌, ◌≤◌, List, length};
ghost use Rattle.rules.specs.Basic.{all, distinct};
ghost use Rattle.rules.specs.State.{token_slots};
ghost use Rattle.lists.specs.Numbers.{InTurn, itself};
ghost use Rattle.lists.specs.Tests.{one, count, is_once, is_given, is_apart, reference_slots, refs_test};

// A number of 64 bits or of 32. How often it stands in a list is told by one of its own width, so that the compiler's vectors hold as many as they can.
pub trait Number: Copy {
    ghost number: { Self → ℕ };

    ghost numbers: { List Self → List ℕ };

    ghost in_turn: { InTurn number numbers };

    // How long a list may be.
    ghost most: { ℕ };

    fn none() -> Self
        ensures { number result ≡ 0 };

    // One more than n where the two are the same.
    fn counted(n: Self, x: Self, y: Self) -> Self
        requires { number n < most }
        ensures { number result ≡ number n + one (number x) (number y) };

    fn wide(self) -> u64
        ensures { result ≡ number self };
}

impl Number for u64 {
    ghost number = { λ x. x };

    ghost numbers = { λ s. s };

    ghost in_turn = { itself };

    ghost most = { 2 ^ 64 - 1 };

    fn none() -> u64 {
        0
    }

    fn counted(n: u64, x: u64, y: u64) -> u64 {
        n + u64::from(x == y)
    }

    fn wide(self) -> u64 {
        self
    }
}

impl Number for u32 {
    ghost number = { λ x. x };

    ghost numbers = { λ s. s };

    ghost in_turn = { itself };

    ghost most = { 2 ^ 32 - 1 };

    fn none() -> u32 {
        0
    }

    fn counted(n: u32, x: u32, y: u32) -> u32 {
        n + u32::from(x == y)
    }

    fn wide(self) -> u64 {
        u64::from(self)
    }
}

fn count_of<T: Number>(x: T, s: &[T]) -> T
    requires { length s.now ≤ T.most }
    ensures { (T.number result ≡ count (T.number x) (T.numbers s.now)) × (T.number result ≤ length s.now) }
{
    let mut n = T::none();
    for y in s {
        n = T::counted(n, x, *y);
    }
    n
}

fn is_given<T: Number>(x: T, next: u64, s: &[T]) -> bool
    requires { length s.now ≤ T.most }
    ensures { result ≡ is_given next (T.numbers s.now) (T.number x) }
{
    (x.wide() < next) & (count_of(x, s).wide() == 1)
}

// Each number is below the next, and none stands twice.
pub fn all_given<T: Number>(s: &[T], next: u64) -> bool
    requires { length s.now ≤ T.most }
    ensures { result ≡ all (is_given next (T.numbers s.now)) (T.numbers s.now) }
{
    let mut ok = true;
    for x in s {
        ok &= is_given(*x, next, s);
    }
    ok
}

fn is_once(x: u64, s: &[u64]) -> bool
    ensures { result ≡ is_once s.now x }
{
    count_of(x, s) == 1
}

// No number stands twice.
#[tactic(auto, using(crate::proofs::Loops::tested_more, crate::proofs::Counts::distinct_done))]
pub fn all_once(s: &[u64]) -> bool
    ensures { result ≡ distinct s.now }
{
    let mut ok = true;
    for x in s {
        ok &= is_once(*x, s);
    }
    ok
}

// Each number stands in `referred`, and all that stand there are numbers of the list.
pub fn refs_valid(s: &[u64], referred: &[u64]) -> bool
    requires { (length s.now ≤ token_slots) × (length referred.now ≤ reference_slots) }
    ensures { result ≡ refs_test s.now referred.now }
{
    let mut ok = true;
    let mut total: u64 = 0;
    for x in s {
        let n = count_of(*x, referred);
        ok &= 1 <= n;
        total += n;
    }
    ok & (total == referred.len() as u64)
}

fn is_apart(x: u64, s: &[u64]) -> bool
    ensures { result ≡ is_apart s.now x }
{
    count_of(x, s) == 0
}

// No number of s stands in `from`.
#[tactic(auto, using(crate::proofs::Loops::tested_more, crate::proofs::Loops::apart_done))]
pub fn all_apart(s: &[u64], from: &[u64]) -> bool
    ensures { result ≡ all (is_apart from.now) s.now }
{
    let mut ok = true;
    for x in s {
        ok &= is_apart(*x, from);
    }
    ok
}
