// Request 11: a token becomes the caller's primary one.
#![tactic(auto)]

ghost use Rattle.rules.specs.Install as rules;
ghost use Rattle.handle.specs.Words.{records_in};
ghost use Rattle.state.specs.Parts.{SameParts, WordsAlone};
ghost use Rattle.decide.specs.Carried.{CarriedOut};
ghost use Rattle.install.specs.Install.{Matching, Checked, MarksUsed, Placed};

use answer::{Answer, Refusal};
use control::stations::Station;
use decide::lookup::looked_up;
use decide::outcome::{Outcome, ends};
use privilege::mask::Mask;
use privilege::privileges::Privileges;
use state::parts::Parts;
use token::Identity;

// The token is of the caller's user and session.
#[tactic(auto, using(crate::proofs::InstallLaws::matching))]
fn matching(parts: &Parts, station: Station, token: u64) -> bool
    ensures { Matching token station.number parts.now.tokens.now parts.now.control.now result }
{
    let own = parts.caller_number(station);
    let a = parts.identity_of(token);
    let b = parts.identity_of(own);
    (a.user == b.user) & (a.session == b.session)
}

// What the token is refused for, where it matches the caller's or doesn't.
fn check(parts: &Parts, station: Station, same: bool, token: u64) -> Result<(), Refusal>
    ensures { Checked same token station.number parts.now.tokens.now parts.now.control.now result }
{
    if !parts.held(Privileges::ASSIGN_PRIMARY, station) {
        return Err(Refusal::PrivilegeNotHeld);
    }
    if parts.identity_of(token).kind != Identity::PRIMARY {
        return Err(Refusal::BadField);
    }
    if same | parts.held(Privileges::TCB, station) {
        Ok(())
    } else {
        Err(Refusal::InstallMismatch)
    }
}

// The used bits fall on the token that is the caller's primary one now; Tcb counts only where the tokens don't match.
#[tactic(auto, using(crate::proofs::InstallLaws::marks_one, crate::proofs::InstallLaws::marks_both))]
fn mark(parts: &mut Parts, station: Station, same: bool)
    ensures alone { WordsAlone parts.old parts.new }
    ensures marked { MarksUsed same station.number parts.old.tokens.now parts.old.control.now parts.new.tokens.now }
{
    parts.used(Privileges::ASSIGN_PRIMARY, station);
    if !same {
        parts.used(Privileges::TCB, station);
    }
}

// The effect, of a token that is not refused.
#[tactic(auto, using(crate::proofs::InstallLaws::placed))]
fn place(parts: &mut Parts, station: Station, same: bool, token: u64)
    ensures same { SameParts parts.old parts.new }
    ensures placed { Placed same token station.number parts.old.tokens.now parts.old.dacls.now (records_in parts.old.handles.now) parts.old.control.now parts.new.tokens.now parts.new.dacls.now parts.new.control.now }
{
    mark(parts, station, same);
    parts.install(station, token);
}

pub fn install(parts: &mut Parts, station: Station, number: u32) -> Result<Outcome, Refusal>
    ensures same { SameParts parts.old parts.new }
    ensures carried { CarriedOut (λ σ. rules.install σ station.number number) parts.old parts.new result }
{
    let token = looked_up(parts, station.number, number, Mask::ASSIGN_PRIMARY)?.token;
    let same = matching(parts, station, token);
    check(parts, station, same, token)?;
    place(parts, station, same, token);
    Ok(ends(Answer::Done))
}
