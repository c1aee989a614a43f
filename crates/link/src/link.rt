// Request 16: the elevated token and the filtered one of a session become its linked pair.
ghost use Rattle.std.specs.Prelude.{◌≡◌, ◌<◌};
ghost use Rattle.rules.specs.Mask.{permits, duplicate};
ghost use Rattle.rules.specs.Link as rules;
ghost use Rattle.rules.specs.State.{pair_slots};
ghost use Rattle.handle.specs.Words.{records_in};
ghost use Rattle.control.specs.Pairs.{PlaceGiven};
ghost use Rattle.state.specs.Parts.{SameParts};
ghost use Rattle.decide.specs.Carried.{CarriedOut};
ghost use Rattle.link.specs.Link.{of_session, PairNamed, LinkJudged, LinkApplied};

use answer::{Answer, Refusal};
use body::fields::LinkFields;
use control::pairs;
use control::pairs::Pair;
use control::stations::Station;
use decide::outcome::{Outcome, ends};
use handle::Handle;
use privilege::mask::Mask;
use privilege::privileges::Privileges;
use state::parts::Parts;
use token::Identity;
use token::layout::{FULL, LIMITED};

fn may_duplicate(h: Handle) -> bool
    ensures { result ≡ permits h.mask duplicate }
{
    Mask(h.mask as u32).permits(Mask::DUPLICATE)
}

// The pair of the two handles' tokens: both are the station's live ones, and both masks have the right.
fn named(parts: &Parts, station: Station, f: LinkFields) -> Result<Pair, Refusal>
    ensures { PairNamed station.number f.elevated f.filtered f.session (records_in parts.now.handles.now) result }
{
    let elevated = parts
        .find_handle(station.number, f.elevated)
        .ok_or(Refusal::NotALiveHandle)?;
    let filtered = parts
        .find_handle(station.number, f.filtered)
        .ok_or(Refusal::NotALiveHandle)?;
    if !(may_duplicate(elevated) & may_duplicate(filtered)) {
        return Err(Refusal::RightMissing);
    }
    Ok(Pair {
        session: f.session,
        elevated: elevated.token,
        filtered: filtered.token,
    })
}

// A primary token of the session.
fn is_of_session(i: Identity, session: u64) -> bool
    ensures { result ≡ of_session session i }
{
    (i.kind == Identity::PRIMARY) & (i.session == session)
}

// Two tokens of the session and of one user; a Limited one is not made Full, nor a Full one Limited.
#[tactic(auto, using(crate::proofs::LinkEnding::judges))]
fn linkable(parts: &Parts, pair: Pair) -> bool
    ensures { LinkJudged pair parts.now.tokens.now result }
{
    let e = parts.identity_of(pair.elevated);
    let f = parts.identity_of(pair.filtered);
    is_of_session(e, pair.session)
        & is_of_session(f, pair.session)
        & (e.user == f.user)
        & (pair.elevated != pair.filtered)
        & (parts.elevation_of(pair.elevated) != LIMITED)
        & (parts.elevation_of(pair.filtered) != FULL)
}

// Where the session's pair goes.
fn place_for(parts: &Parts, session: u64) -> Option<usize>
    ensures { PlaceGiven session parts.now.control.now result }
{
    pairs::place_for(session, parts.control)
}

// The effect: Tcb is used, the tokens become Full and Limited, and the pair takes its place.
#[tactic(auto, using(crate::proofs::LinkEnding::applies))]
fn apply(parts: &mut Parts, station: Station, place: usize, pair: Pair)
    requires { place < pair_slots }
    ensures same { SameParts parts.old parts.new }
    ensures applied { LinkApplied station.number place pair parts.old.tokens.now parts.old.dacls.now (records_in parts.old.handles.now) parts.old.control.now parts.new.tokens.now parts.new.dacls.now parts.new.control.now }
{
    parts.used(Privileges::TCB, station);
    parts.elevate(pair.elevated, FULL);
    parts.elevate(pair.filtered, LIMITED);
    parts.link(place, pair);
}

pub fn link(parts: &mut Parts, station: Station, f: LinkFields) -> Result<Outcome, Refusal>
    ensures same { SameParts parts.old parts.new }
    ensures carried { CarriedOut (λ σ. rules.link σ station.number f.elevated f.filtered f.session) parts.old parts.new result }
{
    let pair = named(parts, station, f)?;
    if !parts.held(Privileges::TCB, station) {
        return Err(Refusal::PrivilegeNotHeld);
    }
    if !linkable(parts, pair) {
        return Err(Refusal::BadField);
    }
    let place = place_for(parts, pair.session).ok_or(Refusal::TableFull)?;
    apply(parts, station, place, pair);
    Ok(ends(Answer::Done))
}
