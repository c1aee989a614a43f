// Request 10: restrict.
ghost use Rattle.std.specs.Prelude.{◌≡◌, not, ◌&&◌, eqb, ◌≤◌, ◌<◌};
ghost use Rattle.rules.specs.Basic.{implies};
ghost use Rattle.rules.specs.Token.{max_groups};
ghost use Rattle.rules.specs.State.{token_slots};
ghost use Rattle.rules.specs.Request.{sid_number};
ghost use Rattle.handle.specs.Words.{records_in};
ghost use Rattle.state.specs.Parts.{SameParts};
ghost use Rattle.decide.specs.Issue.{NumbersLeft};
ghost use Rattle.copy.specs.Restrict.{RestrictChecked, RestrictedIssuedOut, RestrictCarriedOut};

use crate::asked::Asked;
use crate::denied_groups::valid_indexes;
use crate::numbers::Numbers;
use crate::restricted_row::Source;
use crate::restricting::Sids;
use crate::{asked, restricted_row, restricting, rows};
use answer::Refusal;
use body::fields::RestrictFields;
use control::layout::NEXT_TOKEN;
use control::stations::Station;
use decide::issue::{can_issue, issue_row};
use decide::located::{Located, located_by};
use decide::outcome::Outcome;
use privilege::mask::Mask;
use privilege::privileges::Privileges;
use privilege::words;
use state::parts::Parts;
use token::layout::MAX_RESTRICTING;

// The copy of a restricted token is restricted, and write-restricted only if the token is.
#[tactic(auto, using(crate::proofs::RestrictEnding::narrow_by))]
fn narrows(source: Source, mark: u32, listed: u64) -> bool
    ensures { result ≡ implies (not (eqb source.restricting 0)) (not (eqb listed 0) && implies (eqb mark 1) source.write_restricted) }
{
    (source.restricting == 0) | ((listed != 0) & ((mark != 1) | source.write_restricted))
}

// What a copy of the source is refused for. The fields and the body go side by side: each function asks a few of the fields, and one list.
pub fn check(
    parts: &Parts,
    source: Source,
    a: Asked,
    f: RestrictFields,
    s: &[u8],
) -> Result<(), Refusal>
    requires { source.groups ≤ max_groups }
    ensures { RestrictChecked source a f.mark f.removed s.now f.deny_at f.deny_count parts.now.tokens.now (records_in parts.now.handles.now) parts.now.control.now result }
{
    let deny = Numbers::new(s, f.deny_at, u64::from(f.deny_count));
    let indexes = valid_indexes(source.groups, deny);
    let valid = (f.mark <= 1) & words::within(f.removed, Privileges::EXISTING) & indexes;
    if !(valid & narrows(source, f.mark, a.list.count) & a.known) {
        return Err(Refusal::BadField);
    }
    let few = a.list.count <= MAX_RESTRICTING as u64;
    if !(few & can_issue(parts) & a.fits) {
        return Err(Refusal::TableFull);
    }
    Ok(())
}

// Of the token that was located, where nothing speaks against it.
pub fn issue_restricted(
    parts: &mut Parts,
    station: Station,
    from: Located,
    groups: u64,
    list: Sids,
    f: RestrictFields,
    s: &[u8],
) -> Outcome
    requires { (from.slot < token_slots) × NumbersLeft parts.old.control.now × (groups ≤ max_groups) }
    ensures same { SameParts parts.old parts.new }
    ensures issued { RestrictedIssuedOut from groups list f s.now station.number parts.old parts.new result }
{
    let n = parts.next(NEXT_TOKEN);
    let mut copy = rows::words_at(parts, from.slot);
    restricted_row::make(&mut copy, n, groups, list, f, s);
    let dacl = rows::dacl_at(parts, from.slot);
    issue_row(parts, station, from.handle.mask, &copy, &dacl)
}

pub fn restrict(
    parts: &mut Parts,
    station: Station,
    f: RestrictFields,
    s: &[u8],
) -> Result<Outcome, Refusal>
    ensures same { SameParts parts.old parts.new }
    ensures carried { RestrictCarriedOut sid_number station.number f s.now parts.old parts.new result }
{
    let from = located_by(parts, station.number, f.handle, Mask::DUPLICATE)?;
    let source = restricted_row::source_at(parts, from.slot);
    let sid_count = u64::from(f.sid_count);
    let own = source.restricting;
    let list = restricting::list_of(parts.tokens, from.slot, own, s, f.sid_at, sid_count);
    let a = asked::by_number(parts, list, f, s);
    check(parts, source, a, f, s)?;
    Ok(issue_restricted(parts, station, from, source.groups, a.list, f, s))
}
