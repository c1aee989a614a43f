// Request 17: the partner of a linked token, itself or a clone of it.
ghost use Rattle.std.specs.Prelude.{◌<◌};
ghost use Rattle.rules.specs.Link as rules;
ghost use Rattle.rules.specs.State.{token_slots};
ghost use Rattle.handle.specs.Words.{records_in};
ghost use Rattle.state.specs.Parts.{SameParts};
ghost use Rattle.decide.specs.Carried.{CarriedOut};
ghost use Rattle.copy.specs.Copies.{Remade};
ghost use Rattle.link.specs.Linked.{PartnerGiven, PartnerOpened, CloneIssued};

use answer::{Answer, Refusal};
use control::layout::NEXT_TOKEN;
use control::pairs;
use control::stations::Station;
use copy::rows;
use decide::issue::{can_issue, issue_row};
use decide::lookup::looked_up;
use decide::outcome::Outcome;
use privilege::mask::Mask;
use privilege::privileges::Privileges;
use state::parts::Parts;
use token::Identity;
use token::layout::*;

const IDENTIFICATION: u64 = 1;

// The other token of the pair that the token is in.
#[tactic(auto, using(crate::proofs::LinkedEnding::no_partner, crate::proofs::LinkedEnding::is_elevated, crate::proofs::LinkedEnding::is_filtered))]
fn partner_of(parts: &Parts, token: u64) -> Option<u64>
    ensures { PartnerGiven token parts.now.control.now result }
{
    let place = pairs::place_with(token, parts.control)?;
    let p = parts.pair_at(place);
    if p.elevated == token {
        Some(p.filtered)
    } else {
        Some(p.elevated)
    }
}

// ---- with Tcb: a handle on the partner itself

#[tactic(auto, using(crate::proofs::LinkedEnding::no_handle_left, crate::proofs::LinkedEnding::opens))]
fn open_partner(parts: &mut Parts, station: Station, partner: u64) -> Result<Outcome, Refusal>
    ensures same { SameParts parts.old parts.new }
    ensures opened { PartnerOpened station.number partner parts.old.tokens.now parts.old.dacls.now (records_in parts.old.handles.now) parts.old.control.now parts.new.tokens.now parts.new.dacls.now parts.new.control.now result }
{
    if !parts.can_add_handle() {
        return Err(Refusal::TableFull);
    }
    parts.used(Privileges::TCB, station);
    let change = parts.add_handle(station, partner, Mask::ALL.0 as u16);
    Ok(Outcome {
        answer: Answer::Value(change.handle.number as u64),
        change: Some(change),
    })
}

// ---- without it: a clone

// Another number, and an impersonation token at Identification; the elevation is kept.
fn relabel(words: &mut [u64; TOKEN_WORDS], n: u64)
    ensures { Remade (rules.clone n) words.old words.new }
{
    words[NUMBER] = n;
    words[MODIFIED] = n;
    words[KIND] = Identity::IMPERSONATION as u64;
    words[LEVEL] = IDENTIFICATION;
}

// Of the token in a slot.
#[tactic(auto, using(crate::proofs::LinkedEnding::no_clone, crate::proofs::LinkedEnding::clones))]
fn issue_clone(parts: &mut Parts, station: Station, slot: usize) -> Result<Outcome, Refusal>
    requires { slot < token_slots }
    ensures same { SameParts parts.old parts.new }
    ensures issued { CloneIssued station.number slot parts.old.tokens.now parts.old.dacls.now (records_in parts.old.handles.now) parts.old.control.now parts.new.tokens.now parts.new.dacls.now parts.new.control.now result }
{
    if !can_issue(parts) {
        return Err(Refusal::TableFull);
    }
    let n = parts.next(NEXT_TOKEN);
    let mut clone = rows::words_at(parts, slot);
    relabel(&mut clone, n);
    let dacl = rows::dacl_at(parts, slot);
    Ok(issue_row(parts, station, Mask::QUERY.0 as u16, &clone, &dacl))
}

// ---- the request

pub fn linked(parts: &mut Parts, station: Station, number: u32) -> Result<Outcome, Refusal>
    ensures same { SameParts parts.old parts.new }
    ensures carried { CarriedOut (λ σ. rules.get_linked σ station.number number) parts.old parts.new result }
{
    let token = looked_up(parts, station.number, number, Mask::QUERY)?.token;
    let partner = partner_of(parts, token).ok_or(Refusal::NotLinked)?;
    // In a valid state a linked token's partner is in a slot.
    let slot = parts.slot_of(partner).ok_or(Refusal::NotLinked)?;
    if parts.held(Privileges::TCB, station) {
        open_partner(parts, station, partner)
    } else {
        issue_clone(parts, station, slot)
    }
}
