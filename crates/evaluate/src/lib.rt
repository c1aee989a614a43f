// Request 18: a condition of a token. Nothing changes.
#![tactic(auto)]

ghost use Rattle.std.specs.Prelude.{◌≡◌};
ghost use Rattle.rules.specs.Serve.{decided};
ghost use Rattle.number.specs.Reader.{rest_of};
ghost use Rattle.condition.specs.Told.{read_whole, verdict_of};
ghost use Rattle.decide.specs.Carried.{CarriedOut};
ghost use Rattle.evaluate.specs.Evaluate.{asked_in, asks};

use answer::{Answer, Refusal};
use condition::{Asked, Told};
use decide::located::located_by;
use decide::outcome;
use decide::outcome::Outcome;
use number::Reader;
use privilege::mask::Mask;
use state::parts::Parts;
use token::layout::*;
use token::row;

// The condition that the rest of a body is, of the token in a row.
fn evaluate_row(rest: Reader, words: &[u64; TOKEN_WORDS]) -> Option<Told>
    ensures { result ≡ verdict_of (asked_in words.now) (read_whole (rest_of rest.entry)) }
{
    let end = HEAD_WORDS + row::count_in(words, GROUP_COUNT, MAX_GROUPS);
    let token = Asked {
        enabled: words[ENABLED],
        groups: &words[HEAD_WORDS..end],
    };
    condition::evaluate(rest, token)
}

// The condition is read once, on the row of the handle's token; what it is refused for does not depend on the row, so that any row serves
// where there is no such handle. What is no condition is refused before the handle, and the handle before a privilege that does not exist.
pub fn evaluate(parts: &Parts, station: u32, number: u32, rest: Reader) -> Result<Outcome, Refusal>
    ensures { CarriedOut (λ σ. decided σ station (asks number (rest_of rest.entry))) parts.now parts.now result }
{
    let located = located_by(parts, station, number, Mask::QUERY);
    let slot = located.map_or(0, |x| x.slot);
    let told = evaluate_row(rest, parts.row(slot)).ok_or(Refusal::Malformed)?;
    located?;
    if !told.known {
        return Err(Refusal::BadField);
    }
    Ok(outcome::ends(Answer::Value(u64::from(told.value))))
}
