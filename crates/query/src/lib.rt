// Request 4: query. Nothing changes.
#![tactic(auto)]

ghost use Rattle.rules.specs.Query as rules;
ghost use Rattle.decide.specs.Carried.{CarriedOut};

use answer::class::{Class, size};
use answer::{Answer, Refusal};
use body::fields::QueryFields;
use decide::located::located_by;
use decide::outcome;
use decide::outcome::Outcome;
use privilege::mask::Mask;
use state::parts::Parts;

// A class of the handle's token, where the report has room for it.
pub fn query(parts: &Parts, station: u32, f: QueryFields) -> Result<Outcome, Refusal>
    ensures { CarriedOut (λ σ. rules.query σ station f.handle f.class f.capacity) parts.now parts.now result }
{
    let slot = located_by(parts, station, f.handle, Mask::QUERY)?.slot;
    let class = Class::try_from(f.class)?;
    let needed = size(parts.row(slot), class) as u64;
    if u64::from(f.capacity) < needed {
        return Err(Refusal::CapacityBelow(needed));
    }
    Ok(outcome::ends(Answer::Class { slot, class }))
}
