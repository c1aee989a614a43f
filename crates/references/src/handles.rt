// The handles (document 01: free places are zero, and ranges are kept), what the live ones are called, and what they, the linked pairs and the
// stations refer to.
ghost use Rattle.std.specs.Prelude.{◌≡◌, ◌++◌};
ghost use Rattle.rules.specs.Basic.{all};
ghost use Rattle.rules.specs.State.{handle_slots, station_count};
ghost use Rattle.rules.specs.Memory.{station_words, elevated_word, filtered_word, stations_in, pairs_in};
ghost use Rattle.handle.specs.Words.{records_in};
ghost use Rattle.references.specs.Tests.{column_by, token_in, client_in, pair_column, kept, Front, Referred};
ghost use Rattle.references.specs.Meaning.{number_of, token_of, fields_of};

use crate::REFERENCES;
use crate::columns::{add_pairs, add_stations, client_in, token_in};
use control::layout::{CONTROL_WORDS, ELEVATED_WORD, FILTERED_WORD, STATIONS};
use handle::{HANDLE_WORDS, Handle, NONE, SLOTS};
use privilege::mask::Mask;

// Whether the fields of all are valid; of the live ones, the first `count` of each list, their numbers and their tokens'. Behind these in
// `referred` stand the live pairs' tokens, up to `held`, then the stations' primary ones and those that they act for, so that all references
// are counted in one list. `ok` is one of the tests that are gathered: the lists stand whatever it is.
#[derive(Clone, Copy)]
pub struct Held {
    pub ok: bool,
    pub count: usize,
    pub held: usize,
    pub numbers: [u32; SLOTS],
    pub referred: [u64; REFERENCES],
}

fn fields_valid(h: Handle) -> bool
    ensures { result ≡ fields_of h }
{
    if h.number == 0 {
        return h == NONE;
    }
    (h.station < STATIONS as u16) & Mask(h.mask as u32).valid()
}

pub fn live(handles: &[u64; HANDLE_WORDS], control: &[u64; CONTROL_WORDS]) -> Held
    ensures fields { result.ok ≡ all fields_of (records_in handles.now) }
    ensures called { Front handle_slots (kept number_of number_of (records_in handles.now)) result.count result.numbers }
    ensures refers { Referred (kept number_of token_of (records_in handles.now) ++ pair_column elevated_word (pairs_in control.now) ++ pair_column filtered_word (pairs_in control.now)) (column_by token_in station_words station_count (stations_in control.now)) (column_by client_in station_words station_count (stations_in control.now)) result.held result.referred }
{
    let mut ok = true;
    let mut numbers = [0u32; SLOTS];
    let mut referred = [0u64; REFERENCES];
    let mut count = 0;
    for i in 0..SLOTS {
        let h = handle::at(handles, i);
        ok &= fields_valid(h);
        numbers[count] = h.number;
        referred[count] = h.token;
        count += usize::from(h.number != 0);
    }
    let k = add_pairs(&mut referred, count, ELEVATED_WORD, control);
    let held = add_pairs(&mut referred, k, FILTERED_WORD, control);
    add_stations(&mut referred, held, control, token_in);
    add_stations(&mut referred, held + STATIONS, control, client_in);
    Held {
        ok,
        count,
        held,
        numbers,
        referred,
    }
}
