// The handle that a request names, and what the request is refused for by it.
ghost use Rattle.handle.specs.Words.{records_in};
ghost use Rattle.decide.specs.Lookup.{Judged, LookedUp};

use answer::Refusal;
use handle::Handle;
use privilege::mask::Mask;
use state::parts::Parts;

// A handle that was found, where its mask permits the request.
pub fn judged(found: Option<Handle>, permitted: bool) -> Result<Handle, Refusal>
    ensures { Judged found permitted result }
{
    let handle = found.ok_or(Refusal::NotALiveHandle)?;
    if !permitted {
        return Err(Refusal::RightMissing);
    }
    Ok(handle)
}

// The station's live handle of that number, whose mask has the right.
pub fn looked_up(parts: &Parts, station: u32, number: u32, right: Mask) -> Result<Handle, Refusal>
    ensures { LookedUp station number right.0 (records_in parts.now.handles.now) result }
{
    let found = parts
        .find_handle(station, number)
        .ok_or(Refusal::NotALiveHandle)?;
    if !Mask(found.mask as u32).permits(right) {
        return Err(Refusal::RightMissing);
    }
    Ok(found)
}
