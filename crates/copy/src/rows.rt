// Requests 9, 10 and 17: the rows that a copy of a token is made in.
ghost use Rattle.std.specs.Prelude.{◌≡◌, ◌*◌, ◌<◌, length};
ghost use Rattle.rules.specs.Token.{max_dacl};
ghost use Rattle.rules.specs.State.{token_slots};
ghost use Rattle.rules.specs.Memory.{token_words};
ghost use Rattle.copy.specs.Copies.{RowCopied};

use state::parts::Parts;
use token::layout::{MAX_DACL, TOKEN_WORDS};

// The row of a slot, in a table of rows of N elements.
#[tactic(auto, using(crate::proofs::SlotRows::row_copied))]
fn row_at<T: Copy, const N: usize>(table: &[T], slot: usize) -> [T; N]
    requires { (0 < N) × (length table.now ≡ token_slots * N) × (slot < token_slots) }
    ensures { RowCopied N slot table.now result }
{
    let (rows, _) = table.as_chunks::<N>();
    rows[slot]
}

pub fn words_at(parts: &Parts, slot: usize) -> [u64; TOKEN_WORDS]
    requires { slot < token_slots }
    ensures { RowCopied token_words slot parts.now.tokens.now result }
{
    row_at(parts.tokens, slot)
}

pub fn dacl_at(parts: &Parts, slot: usize) -> [u8; MAX_DACL]
    requires { slot < token_slots }
    ensures { RowCopied max_dacl slot parts.now.dacls.now result }
{
    row_at(parts.dacls, slot)
}
