// The token that a request works on by a handle: it is read and changed in its row.
ghost use Rattle.handle.specs.Words.{records_in};
ghost use Rattle.decide.specs.Located.{SlotGiven, LocatedBy};

use crate::lookup::judged;
use answer::Refusal;
use handle::Handle;
use privilege::mask::Mask;
use state::parts::Parts;
use token::layout::TOKENS;
use token::slots;

// A handle, and the slot of its token.
#[derive(Clone, Copy)]
pub struct Located {
    pub handle: Handle,
    pub slot: usize,
}

// The slot of the token of a handle that was found; 2 where it is in none, before a right that is missing.
pub fn locate(
    found: Option<Handle>,
    permitted: bool,
    tokens: &[u64; TOKENS],
) -> Result<Located, Refusal>
    ensures { SlotGiven found permitted tokens.now result }
{
    let Some(held) = found else {
        return Err(Refusal::NotALiveHandle);
    };
    let Some(slot) = slots::find(tokens, held.token) else {
        return Err(Refusal::NotALiveHandle);
    };
    let handle = judged(found, permitted)?;
    Ok(Located { handle, slot })
}

// The same of the station's handle of that number. In a valid state the token of a live handle is in a slot.
pub fn located_by(parts: &Parts, station: u32, number: u32, right: Mask) -> Result<Located, Refusal>
    ensures { LocatedBy station number right.0 (records_in parts.now.handles.now) parts.now.tokens.now result }
{
    let Some(found) = parts.find_handle(station, number) else {
        return Err(Refusal::NotALiveHandle);
    };
    let permitted = Mask(found.mask as u32).permits(right);
    locate(Some(found), permitted, parts.tokens)
}
