// Requests 1 and 2: a handle on the caller's own token is opened, a handle is closed. Neither asks for a right.
#![tactic(auto)]

ghost use Rattle.rules.specs.OpenClose.{open_own, close};
ghost use Rattle.state.specs.Parts.{SameParts};
ghost use Rattle.decide.specs.Carried.{CarriedOut};

use answer::{Answer, Refusal};
use control::stations::Station;
use decide::outcome::Outcome;
use privilege::mask::Mask;
use state::parts::Parts;

// Request 1.
pub fn open_own(parts: &mut Parts, station: Station, mask: u32) -> Result<Outcome, Refusal>
    ensures same { SameParts parts.old parts.new }
    ensures carried { CarriedOut (λ σ. open_own σ station.number mask) parts.old parts.new result }
{
    if !Mask(mask).valid() {
        return Err(Refusal::BadField);
    }
    if !parts.can_add_handle() {
        return Err(Refusal::TableFull);
    }
    let own = parts.caller_number(station);
    let change = parts.add_handle(station, own, mask as u16);
    Ok(Outcome {
        answer: Answer::Value(change.handle.number as u64),
        change: Some(change),
    })
}

// Request 2.
pub fn close(parts: &mut Parts, station: Station, number: u32) -> Result<Outcome, Refusal>
    ensures same { SameParts parts.old parts.new }
    ensures carried { CarriedOut (λ σ. close σ station.number number) parts.old parts.new result }
{
    let change = parts
        .close(station.number, number)
        .ok_or(Refusal::NotALiveHandle)?;
    Ok(Outcome {
        answer: Answer::Done,
        change: Some(change),
    })
}
