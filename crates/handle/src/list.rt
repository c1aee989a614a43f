// The handle list as a host lends it, a slice of records. Each function over it is thin: it crosses to the words, or stores records.
ghost use Rattle.std.specs.Prelude.{◌≡◌, ◌++◌, ◌≤◌, ◌<◌, length, set, replicate, drop, unwrap_or, IfSome};
ghost use Rattle.rules.specs.Index.{found_index};
ghost use Rattle.rules.specs.Handle.{is_handle};
ghost use Rattle.rules.specs.State.{handle_slots};
ghost use Rattle.handle.specs.Meaning.{slots_of, none};
ghost use Rattle.handle.specs.Words.{records_in};
ghost use Rattle.handle.specs.Loaded.{loaded};

use crate::{HANDLE_WORDS, Handle, Handles, NONE, SLOTS};

// The first 32 records as words; free slots where the list is shorter.
pub fn load(list: &[Handle]) -> Handles
    ensures { records_in result.words ≡ loaded list.now }
{
    let mut words = [0; HANDLE_WORDS];
    let n = list.len().min(SLOTS);
    for (slot, h) in list[..n].iter().enumerate() {
        crate::put(&mut words, slot, *h);
    }
    Handles { words }
}

// The list with h in a slot; unchanged for a slot past the end.
pub fn place(list: &mut [Handle], slot: usize, h: Handle)
    ensures { list.new ≡ set list.old slot h }
{
    if slot < list.len() {
        list[slot] = h;
    }
}

// A slot freed.
pub fn clear(list: &mut [Handle], slot: usize)
    ensures { list.new ≡ set list.old slot none }
{
    place(list, slot, NONE);
}

// The first n slots freed.
pub fn clear_first(list: &mut [Handle], n: usize)
    requires { n ≤ length list.old }
    ensures { list.new ≡ replicate n none ++ drop n list.old }
{
    list[..n].fill(NONE);
}

// The slot of this station's live handle of that number, front to back among the first 32.
pub fn find(list: &[Handle], station: u32, number: u32) -> Option<usize>
    ensures index { unwrap_or result handle_slots ≡ found_index (is_handle station number) (slots_of (loaded list.now)) }
    ensures within { IfSome result (λ k. k < handle_slots) }
{
    crate::find(&load(list).words, station, number)
}
