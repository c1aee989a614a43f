// The start's control words.
ghost use Rattle.std.specs.Prelude.{◌≡◌, length, replicate};
ghost use Rattle.rules.specs.SidTable.{start_sids};
ghost use Rattle.rules.specs.SidRows.{sid_words, write_sids};
ghost use Rattle.rules.specs.State.{start};
ghost use Rattle.control.specs.Control.{ControlIn};

use crate::layout::*;
use crate::stations::{Station, set_token};
use sid::layout::{NT_HEADER, PLACES, ROW_WORDS, ROWS};

const SECOND_PLACE: usize = PLACES + 1;

const SECOND_ROW: usize = ROWS + ROW_WORDS;

// Where the sub-authorities begin.
const FIRST_SUB: usize = ROWS + 1;

const SECOND_SUB: usize = SECOND_ROW + 1;

// Two SIDs, in rising order.
fn write_sids(sids: &mut [u64])
    requires { (length sids.old ≡ sid_words) × (sids.old ≡ replicate sid_words 0) }
    ensures { sids.new ≡ write_sids start_sids }
{
    sids[0] = 2;
    sids[SECOND_PLACE] = 1;
    sids[ROWS] = NT_HEADER;
    sids[FIRST_SUB] = 7;
    sids[SECOND_ROW] = NT_HEADER;
    sids[SECOND_SUB] = 18;
}

// The next numbers are 2 and 1; S-1-5-7 and S-1-5-18 stand in the SID table; token 1 is primary at every station, whose stream is empty and not broken.
pub fn write(control: &mut [u64; CONTROL_WORDS])
    ensures { ControlIn start control.new }
{
    control.fill(0);
    control[NEXT_TOKEN] = 2;
    control[NEXT_HANDLE] = 1;
    write_sids(&mut control[SIDS_AT..SIDS_END]);
    for number in 0..STATIONS as u32 {
        set_token(Station { number }, 1, control);
    }
}
