// The numbers that stand at a place of a body, one after the other: as many as are asked for, or as are there.
ghost use Rattle.std.specs.Prelude.{◌≡◌, drop};
ghost use Rattle.copy.specs.Numbers.{numbers_in, numbers_left};

use number::{Number, U32, number_at};

#[derive(Clone, Copy)]
pub struct Numbers<'a> {
    body: &'a [u8],
    at: usize,
    left: u64,
}

impl<'a> Numbers<'a> {
    #[tactic(auto, unfolding(crate::specs::Numbers::numbers_left))]
    pub fn new(body: &'a [u8], at: usize, count: u64) -> Numbers<'a>
        ensures { numbers_left result ≡ numbers_in count (drop at body.now) }
    {
        Numbers {
            body,
            at,
            left: count,
        }
    }
}

impl Iterator for Numbers<'_> {
    ghost use Rattle.std.specs.Iterator.{YieldsFirst, item_count};
    ghost use Rattle.copy.specs.Numbers.{numbers_left};

    type Item = u64;

    ghost next_gives = { YieldsFirst numbers_left };

    ghost remaining = { item_count numbers_left };

    #[tactic(auto, using(crate::proofs::NumbersRead::numbers_none, crate::proofs::NumbersRead::numbers_lost, crate::proofs::NumbersRead::numbers_next, crate::proofs::NumbersRead::numbers_fewer), unfolding(crate::specs::Numbers::numbers_left))]
    fn next(&mut self) -> Option<u64> {
        // A subtraction that tells whether it failed would stand in the loop's longest chain.
        if self.left == 0 {
            return None;
        }
        let Number { value, next } = number_at(self.body, self.at, U32)?;
        self.at = next;
        self.left -= 1;
        Some(value)
    }
}
