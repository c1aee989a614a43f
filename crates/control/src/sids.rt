// The SID table's section.
ghost use Rattle.std.specs.Prelude.{◌<◌, unwrap_or, IfSome};
ghost use Rattle.control.specs.Sids.{SidCount, SidsCopied, SidsSet, SidWritten};

use crate::layout::*;
use sid::number::write_number;
use table::slices::copy;

// How many SIDs stand in the table.
pub fn count(control: &[u64; CONTROL_WORDS]) -> u64
    ensures { SidCount control.now result }
{
    control[SIDS_AT]
}

// A copy, in which SIDs can enter before it is known whether the request is refused.
pub fn copied(control: &[u64; CONTROL_WORDS]) -> [u64; SIDS]
    ensures { SidsCopied control.now result }
{
    let mut sids = [0u64; SIDS];
    copy(&control[SIDS_AT..SIDS_END], &mut sids);
    sids
}

pub fn set(sids: &[u64; SIDS], control: &mut [u64; CONTROL_WORDS])
    ensures { SidsSet sids.now control.old control.new }
{
    copy(sids, &mut control[SIDS_AT..SIDS_END]);
}

// The packed form of the SID that has a number, and its size: None, and nothing written, where there is none or no room for it.
pub fn write(control: &[u64], number: u32, out: &mut [u8]) -> Option<usize>
    ensures written { SidWritten control.now number out.old out.new (unwrap_or result 0) }
    ensures some { IfSome result (λ size. 0 < size) }
{
    if control.len() != CONTROL_WORDS {
        return None;
    }
    write_number(&control[SIDS_AT..SIDS_END], number, out)
}
