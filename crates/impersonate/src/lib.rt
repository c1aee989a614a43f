// Requests 12 and 13: a station acts for another token, and for none. The server is the caller's primary token, the client the handle's.
#![tactic(auto)]

ghost use Rattle.std.specs.Prelude.{◌≡◌, Ok};
ghost use Rattle.rules.specs.Impersonate as rules;
ghost use Rattle.handle.specs.Words.{records_in};
ghost use Rattle.state.specs.Parts.{SameParts, WordsAlone};
ghost use Rattle.decide.specs.Lookup.{refused};
ghost use Rattle.decide.specs.Carried.{CarriedOut};
ghost use Rattle.impersonate.specs.Impersonate.{passed, GateRead, first_refusal, level_in_force, MarksUsed, Acted};

use answer::{Answer, Refusal};
use control::stations::Station;
use decide::lookup::looked_up;
use decide::outcome::{Outcome, ends};
use privilege::mask::Mask;
use privilege::privileges::Privileges;
use state::parts::Parts;
use token::Identity;

// The level that a cap leaves at most.
const IDENTIFICATION: u8 = 1;

// What is asked of the server and the client.
#[derive(Clone, Copy)]
struct Gate {
    // One user, and both or neither are restricted.
    alike: bool,
    // The server holds Impersonate.
    held: bool,
    // The server is restricted, and the client is not.
    barred: bool,
    // The client's integrity is above the server's.
    higher: bool,
}

impl Gate {
    // Gate one.
    fn passed(self) -> bool
        ensures { result ≡ passed self }
    {
        self.alike | self.held
    }
}

#[tactic(auto, using(crate::proofs::ImpersonateLaws::gate_read))]
fn gate_of(parts: &Parts, station: Station, token: u64) -> Gate
    ensures { GateRead token station.number parts.now.tokens.now parts.now.control.now result }
{
    let own = parts.caller_number(station);
    let server = parts.identity_of(own);
    let client = parts.identity_of(token);
    let server_restricted = parts.is_restricted(own);
    let client_restricted = parts.is_restricted(token);
    Gate {
        alike: (server.user == client.user) & (server_restricted == client_restricted),
        held: parts.held(Privileges::IMPERSONATE, station),
        barred: server_restricted & !client_restricted,
        higher: client.integrity > server.integrity,
    }
}

// What a client of this type is refused for.
fn check(g: Gate, kind: u8) -> Result<(), Refusal>
    ensures { refused result ≡ first_refusal g kind }
{
    if kind != Identity::IMPERSONATION {
        return Err(Refusal::BadField);
    }
    if g.passed() | !g.barred {
        Ok(())
    } else {
        Err(Refusal::RestrictedServer)
    }
}

// The client's own level, but at most Identification where gate one did not pass, and for a client of higher integrity.
fn level_in_force(g: Gate, own: u8) -> u8
    ensures { result ≡ level_in_force g own }
{
    if g.passed() & !g.higher {
        own
    } else {
        own.min(IDENTIFICATION)
    }
}

// Impersonate is used only where gate one needed it.
#[tactic(auto, using(crate::proofs::ImpersonateLaws::marks, crate::proofs::ImpersonateLaws::marks_none))]
fn mark(parts: &mut Parts, station: Station, g: Gate)
    ensures alone { WordsAlone parts.old parts.new }
    ensures marked { MarksUsed g station.number parts.old.tokens.now parts.old.control.now parts.new.tokens.now }
{
    if !g.alike & g.held {
        parts.used(Privileges::IMPERSONATE, station);
    }
}

// The effect, of a client that is not refused: it takes the place of an earlier one.
#[tactic(auto, using(crate::proofs::ImpersonateLaws::acted))]
fn act(parts: &mut Parts, station: Station, g: Gate, token: u64, level: u64)
    ensures same { SameParts parts.old parts.new }
    ensures acted { Acted g token level station.number parts.old.tokens.now parts.old.dacls.now (records_in parts.old.handles.now) parts.old.control.now parts.new.tokens.now parts.new.dacls.now parts.new.control.now }
{
    mark(parts, station, g);
    parts.act_for(station, token, level);
}

pub fn impersonate(parts: &mut Parts, station: Station, number: u32) -> Result<Outcome, Refusal>
    ensures same { SameParts parts.old parts.new }
    ensures carried { CarriedOut (λ σ. rules.impersonate σ station.number number) parts.old parts.new result }
{
    let token = looked_up(parts, station.number, number, Mask::IMPERSONATE)?.token;
    let client = parts.identity_of(token);
    let g = gate_of(parts, station, token);
    check(g, client.kind)?;
    let level = level_in_force(g, client.level) as u64;
    act(parts, station, g, token, level);
    Ok(ends(Answer::Value(level)))
}

// What the station acted for is given up, and told: nothing is refused.
pub fn revert(parts: &mut Parts, station: Station) -> Outcome
    ensures same { SameParts parts.old parts.new }
    ensures carried { CarriedOut (λ σ. rules.revert σ station.number) parts.old parts.new (Ok result) }
{
    let before = parts.client_of(station);
    parts.act_for(station, 0, 0);
    ends(Answer::Values(before.token, before.level))
}
