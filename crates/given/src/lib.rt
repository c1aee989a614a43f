// A packed SID of a request enters a copy of the SID table: requests 14 and 15.
#![tactic(auto)]

ghost use Rattle.std.specs.Prelude.{◌≡◌, true};
ghost use Rattle.rules.specs.SidRows.{row_sid, sid_words_valid};
ghost use Rattle.sid.specs.Finding.{Rowed};
ghost use Rattle.given.specs.Given.{GivenEntered};

use sid::enter;
use sid::layout::{ROW_WORDS, SIDS};
use sid::number::number_at;

// The number of the SID of a row; None where the table is full and it is new. A table that is full stays as it is: what follows in the request
// is still looked up in it.
pub fn enter(x: &[u64; ROW_WORDS], sids: &mut [u64; SIDS]) -> Option<u64>
    requires { (sid_words_valid sids.old ≡ true) × Rowed x.now }
    ensures { GivenEntered (row_sid x.now) sids.old sids.new result }
{
    let place = enter::enter(sids, x)?;
    Some(number_at(place))
}
