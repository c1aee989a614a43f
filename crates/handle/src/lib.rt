// Handles: the list of 32 slots as words, which a call passes on; `list` has it as it is lent.
#![tactic(auto)]

ghost use Rattle.std.specs.Prelude.{◌≡◌, map, ◌/◌, ◌%◌, ◌<◌, get_or, set, unwrap_or, IfSome};
ghost use Rattle.rules.specs.Basic.{member, word32};
ghost use Rattle.rules.specs.Table.{lives};
ghost use Rattle.rules.specs.Index.{free_index, found_index};
ghost use Rattle.rules.specs.Handle.{is_handle};
ghost use Rattle.rules.specs.State.{handle_token, handle_slots};
ghost use Rattle.handle.specs.Meaning.{slots_of, none, is_free, is_named, refers_to};
ghost use Rattle.handle.specs.First.{FirstOf};
ghost use Rattle.handle.specs.Words.{word16, first_word, records_in};

use table::WORD_32;

pub mod list;

pub const SLOTS: usize = 32;

// A slot's words: station + mask * 2^16 + number * 2^32, the token.
const SLOT_WORDS: usize = 2;

pub const HANDLE_WORDS: usize = SLOTS * SLOT_WORDS;

const WORD_16: u64 = 65536;

// 16 bytes, none of them padding.
#[repr(C)]
#[derive(Clone, Copy, PartialEq, Eq)]
pub struct Handle {
    pub station: u16,
    pub mask: u16,
    pub number: u32,
    pub token: u64,
}

// What a free slot holds.
pub const NONE: Handle = Handle {
    station: 0,
    mask: 0,
    number: 0,
    token: 0,
};

// A slot whose number is 0 is free.
#[derive(Clone, Copy)]
pub struct Handles {
    pub words: [u64; HANDLE_WORDS],
}

// ---- one slot

fn is_free(h: Handle) -> bool
    ensures { result ≡ is_free h }
{
    h.number == 0
}

fn is_named(h: Handle, station: u32, number: u32) -> bool
    ensures { result ≡ is_named station number h }
{
    (h.number != 0) & ((h.number == number) & (h.station as u32 == station))
}

fn refers_to(h: Handle, token: u64) -> bool
    ensures { result ≡ refers_to token h }
{
    (h.number != 0) & (token == h.token)
}

fn low_quarter(w: u64) -> u16
    ensures { result ≡ w % word16 }
{
    (w % WORD_16) as u16
}

fn high_half(w: u64) -> u32
    ensures { result ≡ w / word32 }
{
    (w / WORD_32) as u32
}

// The handle in a slot; NONE past the last.
pub fn at(words: &[u64; HANDLE_WORDS], slot: usize) -> Handle
    ensures { result ≡ get_or (records_in words.now) slot none }
{
    if SLOTS <= slot {
        return NONE;
    }
    let from = slot * SLOT_WORDS;
    Handle {
        station: low_quarter(words[from]),
        mask: low_quarter(words[from] / WORD_16),
        number: high_half(words[from]),
        token: words[from + 1],
    }
}

// The word in front of the token.
fn first_word(h: Handle) -> u64
    ensures { result ≡ first_word h }
{
    h.station as u64 + h.mask as u64 * WORD_16 + h.number as u64 * WORD_32
}

// A handle into a slot.
#[tactic(auto, using(crate::proofs::Words::slot_stored))]
pub fn put(words: &mut [u64; HANDLE_WORDS], slot: usize, h: Handle)
    requires { slot < handle_slots }
    ensures { records_in words.new ≡ set (records_in words.old) slot h }
{
    let from = slot * SLOT_WORDS;
    words[from] = first_word(h);
    words[from + 1] = h.token;
}

// ---- the list

// The first slot whose handle passes.
fn position<F: Fn(Handle) -> bool>(words: &[u64; HANDLE_WORDS], passes: F) -> Option<usize>
    requires { F.IsAlwaysCallable passes }
    ensures { FirstOf (λ k. F.post passes (get_or (records_in words.now) k none)) handle_slots result }
{
    for slot in 0..SLOTS {
        if passes(at(words, slot)) {
            return Some(slot);
        }
    }
    None
}

// The first live handle of this station and number, front to back.
pub fn find(words: &[u64; HANDLE_WORDS], station: u32, number: u32) -> Option<usize>
    ensures index { unwrap_or result handle_slots ≡ found_index (is_handle station number) (slots_of (records_in words.now)) }
    ensures within { IfSome result (λ k. k < handle_slots) }
{
    position(words, |h| is_named(h, station, number))
}

// The lowest free slot.
pub fn free_slot(words: &[u64; HANDLE_WORDS]) -> Option<usize>
    ensures index { unwrap_or result handle_slots ≡ free_index (slots_of (records_in words.now)) }
    ensures within { IfSome result (λ k. k < handle_slots) }
{
    position(words, is_free)
}

// Some live handle refers to the token, were this slot free; a slot past the end is none. The loop is not left early: an exit at
// the first makes it slower.
pub fn refers(words: &[u64; HANDLE_WORDS], freed: usize, token: u64) -> bool
    ensures { result ≡ member token (map handle_token (lives (slots_of (set (records_in words.now) freed none)))) }
{
    let mut found = false;
    for i in 0..SLOTS {
        found = found | ((i != freed) & refers_to(at(words, i), token));
    }
    found
}

// The list with h in a slot; unchanged for a slot past the end.
#[tactic(auto, using(crate::proofs::Slots::kept, crate::proofs::Words::records_long))]
pub fn place(handles: Handles, slot: usize, h: Handle) -> Handles
    ensures { records_in result.words ≡ set (records_in handles.words) slot h }
{
    if SLOTS <= slot {
        return handles;
    }
    let mut words = handles.words;
    put(&mut words, slot, h);
    Handles { words }
}
