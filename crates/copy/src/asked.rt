// Requests 10 and 15: what the SIDs given are asked for. Those of request 10 are numbers in the SID table.
ghost use Rattle.copy.specs.Numbers.{numbers_left};
ghost use Rattle.copy.specs.Asked.{NumbersJudged, NumbersAsked};

use crate::numbers::Numbers;
use crate::restricting::Sids;
use body::fields::RestrictFields;
use control::sids;
use sid::layout::MAX_SIDS;
use sid::number::is_number;
use state::parts::Parts;

// The copy's restricting SIDs, whether each SID given is in the table, and whether those that are new fit it.
#[derive(Clone, Copy)]
pub struct Asked {
    pub list: Sids,
    pub known: bool,
    pub fits: bool,
}

// Each of those given is a number in a table of `size` SIDs, also one that the copy drops.
fn all_numbers(mut given: Numbers, size: u64) -> bool
    ensures { NumbersJudged (numbers_left given.entry) size result }
{
    size <= MAX_SIDS as u64 && given.all(|sid| is_number(sid, size))
}

// By number: none is new.
pub fn by_number(parts: &Parts, list: Sids, f: RestrictFields, s: &[u8]) -> Asked
    ensures { NumbersAsked list s.now f.sid_at f.sid_count parts.now.control.now result }
{
    let given = Numbers::new(s, f.sid_at, u64::from(f.sid_count));
    Asked {
        list,
        known: all_numbers(given, sids::count(parts.control)),
        fits: true,
    }
}
