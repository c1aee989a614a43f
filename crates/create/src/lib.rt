// Requests 3 and 14: create. A new token and a handle on it.
#![tactic(auto)]

ghost use Rattle.std.specs.Prelude.{◌≡◌, true, ◌&&◌, ◌≤◌, drop, replicate};
ghost use Rattle.rules.specs.Bits.{within};
ghost use Rattle.rules.specs.Sid.{is_packed};
ghost use Rattle.rules.specs.SidTable.{max_sids};
ghost use Rattle.rules.specs.SidRows.{sid_words_valid};
ghost use Rattle.rules.specs.Privileges.{existing, granted};
ghost use Rattle.rules.specs.Token.{primary_of};
ghost use Rattle.rules.specs.Memory.{token_words};
ghost use Rattle.rules.specs.Create.{valid_integrity};
ghost use Rattle.token.specs.NewRow.{Headed};
ghost use Rattle.handle.specs.Words.{records_in};
ghost use Rattle.state.specs.Parts.{SameParts};
ghost use Rattle.create.specs.Create.{RowMade, KnownSids, RowCreated, CreateCarriedOut};
ghost use Rattle.create.specs.PackedCreate.{PackedMade, PackedCreateCarriedOut};

use crate::groups::read_groups;
use crate::packed::{enter, is_packed, read_packed_groups, row_at};
use answer::Refusal;
use body::fields::CreateFields;
use control::layout::NEXT_TOKEN;
use control::sids;
use control::stations::Station;
use decide::issue::{can_issue, issue_row};
use decide::outcome::Outcome;
use privilege::mask::Mask;
use privilege::privileges::Privileges;
use privilege::words;
use sid::layout::{MAX_SIDS, SIDS};
use sid::number::is_number;
use sid::valid::table_valid;
use state::parts::Parts;
use token::layout::{MAX_DACL, TOKEN_WORDS};
use token::{Identity, row};

mod groups;
mod packed;

// The fields besides the user and the groups.
fn fields_good<U>(f: &CreateFields<U>) -> bool
    ensures { result ≡ (valid_integrity f.now.integrity && within f.now.by_default f.now.present && within f.now.present existing) }
{
    token::valid_integrity(f.integrity as u64)
        & words::within(f.by_default, f.present)
        & words::within(f.present, Privileges::EXISTING)
}

// The row's head, behind which the groups stand.
#[tactic(auto, unfolding(rules::specs::Token::primary_of))]
fn set_head<U>(n: u64, user: u32, f: &CreateFields<U>, row: &mut [u64; TOKEN_WORDS])
    ensures { Headed n (primary_of n user f.now.session f.now.integrity) (granted f.now.present f.now.by_default) f.now.count row.old row.new }
{
    let identity = Identity {
        user,
        session: f.session,
        kind: Identity::PRIMARY,
        level: 0,
        integrity: f.integrity,
        root: n,
    };
    let granted = Privileges::granted(f.present, f.by_default);
    row::set_head(row, n, identity, granted, f.count as usize);
}

// The new token's row, where every field is good. Its groups stand in the body.
fn make(
    n: u64,
    known: u64,
    f: CreateFields<u32>,
    s: &[u8],
    row: &mut [u64; TOKEN_WORDS],
) -> Result<(), Refusal>
    requires { (row.old ≡ replicate token_words 0) × (known ≤ max_sids) }
    ensures { RowMade n known f s.now row.new result }
{
    if !(fields_good(&f) & is_number(f.user as u64, known)) {
        return Err(Refusal::BadField);
    }
    read_groups(f.user, known, s, f.at, f.count as usize, row)?;
    set_head(n, f.user, &f, row);
    Ok(())
}

// The row with packed SIDs, which enter the copy of the table: the user's first.
fn make_packed(
    n: u64,
    f: CreateFields<usize>,
    s: &[u8],
    row: &mut [u64; TOKEN_WORDS],
    sids: &mut [u64; SIDS],
) -> Result<(), Refusal>
    requires { (row.old ≡ replicate token_words 0) × (sid_words_valid sids.old ≡ true) × (is_packed (drop f.user s.now) ≡ true) }
    ensures { PackedMade n f s.now sids.old row.new sids.new result }
{
    if !fields_good(&f) {
        return Err(Refusal::BadField);
    }
    let user = row_at(s, f.user);
    let first = enter(&user, sids);
    read_packed_groups(&user, s, f.at, f.count as usize, row, sids)?;
    let Some(number) = first else {
        return Err(Refusal::TableFull);
    };
    set_head(n, number, &f, row);
    Ok(())
}

// How many SIDs stand in the table. In memory that is in order they are at most 256.
#[tactic(auto, using(crate::proofs::CreateEnding::known))]
fn known_sids(parts: &Parts) -> u64
    ensures { KnownSids parts.now.control.now result }
{
    sids::count(parts.control).min(MAX_SIDS as u64)
}

// The end of both requests. The used bit falls on the caller's token before the new one is there. The new one has no DACL.
#[tactic(auto, using(crate::proofs::CreateEnding::none_issued, crate::proofs::CreateEnding::create_issues))]
fn issue_created(
    parts: &mut Parts,
    station: Station,
    row: &[u64; TOKEN_WORDS],
) -> Result<Outcome, Refusal>
    ensures same { SameParts parts.old parts.new }
    ensures created { RowCreated station.number row.now parts.old.tokens.now parts.old.dacls.now (records_in parts.old.handles.now) parts.old.control.now parts.new.tokens.now parts.new.dacls.now parts.new.control.now result }
{
    if !can_issue(parts) {
        return Err(Refusal::TableFull);
    }
    parts.used(Privileges::CREATE_TOKEN, station);
    let dacl = [0u8; MAX_DACL];
    Ok(issue_row(parts, station, Mask::ALL.0 as u16, row, &dacl))
}

// Request 3: the SIDs by their numbers.
pub fn create(
    parts: &mut Parts,
    station: Station,
    f: CreateFields<u32>,
    s: &[u8],
) -> Result<Outcome, Refusal>
    ensures same { SameParts parts.old parts.new }
    ensures carried { CreateCarriedOut station.number f s.now parts.old parts.new result }
{
    if !parts.held(Privileges::CREATE_TOKEN, station) {
        return Err(Refusal::PrivilegeNotHeld);
    }
    let n = parts.next(NEXT_TOKEN);
    let known = known_sids(parts);
    let mut row = [0u64; TOKEN_WORDS];
    make(n, known, f, s, &mut row)?;
    issue_created(parts, station, &row)
}

// Request 14: the SIDs packed. They enter a copy of the table, which is kept only if a token is issued.
pub fn create_packed(
    parts: &mut Parts,
    station: Station,
    f: CreateFields<usize>,
    s: &[u8],
) -> Result<Outcome, Refusal>
    ensures same { SameParts parts.old parts.new }
    ensures carried { PackedCreateCarriedOut station.number f s.now parts.old parts.new result }
{
    if !parts.held(Privileges::CREATE_TOKEN, station) {
        return Err(Refusal::PrivilegeNotHeld);
    }
    let n = parts.next(NEXT_TOKEN);
    let mut table = parts.sids();
    // Both hold where the body is whole and the memory in order.
    if !(is_packed(s, f.user) & table_valid(&table)) {
        return Err(Refusal::BadField);
    }
    let mut row = [0u64; TOKEN_WORDS];
    make_packed(n, f, s, &mut row, &mut table)?;
    let end = issue_created(parts, station, &row)?;
    sids::set(&table, parts.control);
    Ok(end)
}
