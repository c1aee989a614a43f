// The test of refusal 13: lent memory, of any sizes and contents, is valid (document 01: 'Memory is in order when ..').
#![tactic(auto)]

ghost use Rattle.std.specs.Prelude.{◌≡◌};
ghost use Rattle.handle.specs.Words.{records_in};
ghost use Rattle.valid.specs.Tests.{parts_test};
ghost use Rattle.valid.specs.Meaning.{memory_of};
ghost use Rattle.valid.specs.Tested.{SizesTested, ValidTested};

use control::layout::{CONTROL_WORDS, SIDS_AT, SIDS_END};
use handle::{HANDLE_WORDS, SLOTS};
use layout::*;
use listed::tokens_listed;
use references::links_valid;
use sid::valid::table_valid;
use stations::stations_valid;
use token_rows::tokens_valid;

pub mod layout;
mod stations;

// All parts, of the right sizes.
fn parts_valid(
    tokens: &[u64; TOKENS],
    dacls: &[u8; DACLS],
    handles: &[u64; HANDLE_WORDS],
    control: &[u64; CONTROL_WORDS],
    pending: &[u8; PENDING],
) -> bool
    ensures { result ≡ parts_test (memory_of tokens.now dacls.now (records_in handles.now) control.now pending.now) }
{
    tokens_valid(tokens, dacls)
        & stations_valid(control, pending)
        & links_valid(tokens, handles, control)
        & table_valid(&control[SIDS_AT..SIDS_END])
        & tokens_listed(tokens, control[SIDS_AT])
}

// The lengths are those that document 01 fixes; `count` is the lent handle list's.
pub fn is_sized(tokens: usize, dacls: usize, count: usize, control: usize, pending: usize) -> bool
    ensures { SizesTested tokens dacls count control pending result }
{
    (tokens == TOKENS)
        & (dacls == DACLS)
        & (count == SLOTS)
        & (control == CONTROL_WORDS)
        & (pending == PENDING)
}

// The handle list comes as words, beside its length.
pub fn valid(
    tokens: &[u64],
    dacls: &[u8],
    count: usize,
    handles: &[u64; HANDLE_WORDS],
    control: &[u64],
    pending: &[u8],
) -> bool
    ensures { ValidTested count (records_in handles.now) tokens.now dacls.now control.now pending.now result }
{
    let (Some(tokens), Some(dacls), Some(control), Some(pending)) = (
        tokens.as_array::<TOKENS>(),
        dacls.as_array::<DACLS>(),
        control.as_array::<CONTROL_WORDS>(),
        pending.as_array::<PENDING>(),
    ) else {
        return false;
    };
    (count == SLOTS) && parts_valid(tokens, dacls, handles, control, pending)
}
