// The sixteen slots of tokens in lent memory. A slot is free where its row has number 0.
ghost use Rattle.std.specs.Prelude.{◌≡◌, ℕ, ◌*◌, ◌<◌, List, IfSome, ◌==◌, slice_index, unwrap_or};
ghost use Rattle.std.specs.List.{position};
ghost use Rattle.std.specs.Simd.{first_chunks};
ghost use Rattle.table.specs.Table.{put_record};
ghost use Rattle.rules.specs.Token.{max_dacl};
ghost use Rattle.rules.specs.Table.{free};
ghost use Rattle.rules.specs.State.{token_slots, is_numbered};
ghost use Rattle.rules.specs.Index.{free_index, found_index};
ghost use Rattle.rules.specs.Memory.{token_words, slot_row, slot_dacl};
ghost use Rattle.token.specs.Meaning.{slots_of};

use crate::layout::{DACLS, MAX_DACL, NUMBER, TOKEN_WORDS, TOKENS};
use table::slices::copy;

// The words of a free slot's row, and its DACL's bytes.
const FREE_WORDS: [u64; TOKEN_WORDS] = [0; TOKEN_WORDS];

const FREE_DACL: [u8; MAX_DACL] = [0; MAX_DACL];

// A slot's rows become these.
pub fn put_at(
    words: &[u64; TOKEN_WORDS],
    bytes: &[u8; MAX_DACL],
    tokens: &mut [u64; TOKENS],
    dacls: &mut [u8; DACLS],
    slot: usize,
)
    requires { slot < token_slots }
    ensures { (tokens.new ≡ put_record token_words slot words.now tokens.old) × (dacls.new ≡ put_record max_dacl slot bytes.now dacls.old) }
{
    let at = slot * TOKEN_WORDS;
    let end = at + TOKEN_WORDS;
    let from = slot * MAX_DACL;
    let till = from + MAX_DACL;
    copy(words, &mut tokens[at..end]);
    copy(bytes, &mut dacls[from..till]);
}

pub fn clear_at(tokens: &mut [u64; TOKENS], dacls: &mut [u8; DACLS], slot: usize)
    requires { slot < token_slots }
    ensures { (tokens.new ≡ put_record token_words slot (slot_row free) tokens.old) × (dacls.new ≡ put_record max_dacl slot (slot_dacl free) dacls.old) }
{
    put_at(&FREE_WORDS, &FREE_DACL, tokens, dacls, slot);
}

// The first slot whose row has that number.
fn slot_of(tokens: &[u64; TOKENS], number: u64) -> Option<usize>
    ensures { result ≡ position (λ row. slice_index row 0 == number) (first_chunks token_words token_slots tokens.now) }
{
    let (rows, _) = tokens.as_chunks::<TOKEN_WORDS>();
    rows.iter().position(|row| row[NUMBER] == number)
}

// The slot of the live token of that number. The DACLs don't matter.
pub fn find(tokens: &[u64; TOKENS], number: u64) -> Option<usize>
    ensures slot { (dacls : List ℕ) → unwrap_or result token_slots ≡ found_index (is_numbered number) (slots_of tokens.now dacls) }
    ensures within { IfSome result (λ k. k < token_slots) }
{
    // Number 0 marks a free slot.
    if number == 0 {
        return None;
    }
    slot_of(tokens, number)
}

// The lowest free slot.
pub fn free_slot(tokens: &[u64; TOKENS]) -> Option<usize>
    ensures slot { (dacls : List ℕ) → unwrap_or result token_slots ≡ free_index (slots_of tokens.now dacls) }
    ensures within { IfSome result (λ k. k < token_slots) }
{
    slot_of(tokens, 0)
}
