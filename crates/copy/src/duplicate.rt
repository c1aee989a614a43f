// Request 9: duplicate.
ghost use Rattle.std.specs.Prelude.{◌<◌};
ghost use Rattle.rules.specs.State.{token_slots};
ghost use Rattle.rules.specs.Duplicate as rules;
ghost use Rattle.state.specs.Parts.{SameParts};
ghost use Rattle.decide.specs.Carried.{CarriedOut};
ghost use Rattle.decide.specs.Issue.{NumbersLeft};
ghost use Rattle.copy.specs.Copies.{Remade, CopyIssuedOut};
ghost use Rattle.copy.specs.Duplicate.{DuplicateJudged, copied_as, duplicated_as};

use crate::rows;
use answer::Refusal;
use body::fields::DuplicateFields;
use control::layout::NEXT_TOKEN;
use control::stations::Station;
use decide::issue::{can_issue, issue_row};
use decide::located::located_by;
use decide::outcome::Outcome;
use privilege::mask::Mask;
use state::parts::Parts;
use token::layout::*;
use token::{Identity, row};

const PRIMARY: u32 = Identity::PRIMARY as u32;

const IMPERSONATION: u32 = Identity::IMPERSONATION as u32;

const ANONYMOUS: u64 = 7;

// By a handle of mask `held`, of a token that is `source`.
#[tactic(auto, using(crate::proofs::DuplicateEnding::judges))]
fn valid_duplicate(held: Mask, source: Identity, f: DuplicateFields) -> bool
    ensures { DuplicateJudged held.0 source f.kind f.level f.mask result }
{
    let asked = Mask(f.mask);
    let both = (source.kind as u32 == IMPERSONATION) & (f.kind == IMPERSONATION);
    ((f.kind == PRIMARY) | (f.kind == IMPERSONATION))
        & (f.level <= 3)
        & (!both | (f.level <= source.level as u32))
        & asked.valid()
        & asked.within(held)
}

// ---- the copy of the token in a slot, where there is room for it

// Another number, type and level.
fn relabel(words: &mut [u64; TOKEN_WORDS], n: u64, kind: u32, level: u32)
    ensures { Remade (rules.copied n kind level) words.old words.new }
{
    words[NUMBER] = n;
    words[MODIFIED] = n;
    words[KIND] = kind as u64;
    words[LEVEL] = level as u64;
    words[ELEVATION] = 1;
}

#[tactic(auto, using(crate::proofs::DuplicateEnding::issues_copy))]
fn issue_copy(
    parts: &mut Parts,
    station: Station,
    mask: u16,
    slot: usize,
    kind: u32,
    level: u32,
) -> Outcome
    requires { (slot < token_slots) × NumbersLeft parts.old.control.now }
    ensures same { SameParts parts.old parts.new }
    ensures issued { CopyIssuedOut (copied_as kind level) slot station.number mask parts.old parts.new result }
{
    let n = parts.next(NEXT_TOKEN);
    let mut copy = rows::words_at(parts, slot);
    relabel(&mut copy, n, kind, level);
    let dacl = rows::dacl_at(parts, slot);
    issue_row(parts, station, mask, &copy, &dacl)
}

// Nothing is kept but the used privileges.
fn issue_anonymous(parts: &mut Parts, station: Station, mask: u16, slot: usize) -> Outcome
    requires { (slot < token_slots) × NumbersLeft parts.old.control.now }
    ensures same { SameParts parts.old parts.new }
    ensures issued { CopyIssuedOut rules.anonymous_copy slot station.number mask parts.old parts.new result }
{
    let n = parts.next(NEXT_TOKEN);
    let mut copy = [0; TOKEN_WORDS];
    copy[NUMBER] = n;
    copy[MODIFIED] = n;
    copy[USER] = ANONYMOUS;
    copy[KIND] = IMPERSONATION as u64;
    copy[ELEVATION] = 1;
    copy[USED] = parts.tokens[slot * TOKEN_WORDS + USED];
    issue_row(parts, station, mask, &copy, &[0; MAX_DACL])
}

// Only the type and level asked for make an anonymous copy; to primary, the level becomes 0.
#[tactic(auto, using(crate::proofs::DuplicateEnding::to_primary, crate::proofs::DuplicateEnding::to_anonymous, crate::proofs::DuplicateEnding::to_impersonation))]
fn issue_duplicate(
    parts: &mut Parts,
    station: Station,
    mask: u16,
    slot: usize,
    kind: u32,
    level: u32,
) -> Outcome
    requires { (slot < token_slots) × NumbersLeft parts.old.control.now }
    ensures same { SameParts parts.old parts.new }
    ensures issued { CopyIssuedOut (duplicated_as kind level) slot station.number mask parts.old parts.new result }
{
    if kind == PRIMARY {
        return issue_copy(parts, station, mask, slot, PRIMARY, 0);
    }
    if level == 0 {
        return issue_anonymous(parts, station, mask, slot);
    }
    issue_copy(parts, station, mask, slot, IMPERSONATION, level)
}

// ---- the request

pub fn duplicate(
    parts: &mut Parts,
    station: Station,
    f: DuplicateFields,
) -> Result<Outcome, Refusal>
    ensures same { SameParts parts.old parts.new }
    ensures carried { CarriedOut (λ σ. rules.duplicate σ station.number f.handle f.kind f.level f.mask) parts.old parts.new result }
{
    let from = located_by(parts, station.number, f.handle, Mask::DUPLICATE)?;
    let held = Mask(from.handle.mask as u32);
    let source = parts.identity_at(from.slot);
    if !valid_duplicate(held, source, f) {
        return Err(Refusal::BadField);
    }
    if !can_issue(parts) {
        return Err(Refusal::TableFull);
    }
    let mask = f.mask as u16;
    Ok(issue_duplicate(parts, station, mask, from.slot, f.kind, f.level))
}
