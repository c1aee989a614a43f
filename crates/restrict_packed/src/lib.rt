// Request 15: restrict, with packed SIDs. They enter a copy of the SID table, which is kept only if a token is issued.
#![tactic(auto)]

ghost use Rattle.std.specs.Prelude.{◌≤◌, ◌<◌};
ghost use Rattle.rules.specs.Token.{max_restricting};
ghost use Rattle.rules.specs.State.{token_slots};
ghost use Rattle.rules.specs.Request.{packed_sid};
ghost use Rattle.state.specs.Parts.{SameParts};
ghost use Rattle.copy.specs.Restrict.{RestrictCarriedOut};
ghost use Rattle.restrict_packed.specs.Taken.{SidsTaken};

mod gathered;
mod kept;

use answer::Refusal;
use body::fields::RestrictFields;
use control::sids;
use control::stations::Station;
use copy::asked::Asked;
use copy::restrict::{check, issue_restricted};
use copy::restricted_row::source_at;
use decide::located::located_by;
use decide::outcome::Outcome;
use gathered::NUMBERS;
use privilege::mask::Mask;
use sid::layout::SIDS;
use state::parts::Parts;

// For a copy of the token in a slot. Each SID given gets a number of the table, whether the copy drops it or not; without room, 5 is still
// judged first.
fn take(
    parts: &Parts,
    slot: usize,
    own: u64,
    f: RestrictFields,
    s: &[u8],
    table: &mut [u64; SIDS],
) -> Asked
    requires { (slot < token_slots) × (own ≤ max_restricting) }
    ensures { SidsTaken slot own s.now f.sid_at f.sid_count parts.now.tokens.now table.old table.new result }
{
    let count = u64::from(f.sid_count);
    let mut marks = [false; NUMBERS];
    let given = gathered::gather(s, f.sid_at, count, table, &mut marks);
    Asked {
        list: kept::list_of(parts.tokens, slot, own, count, given, &marks),
        known: true,
        fits: given.is_some(),
    }
}

pub fn restrict_packed(
    parts: &mut Parts,
    station: Station,
    f: RestrictFields,
    s: &[u8],
) -> Result<Outcome, Refusal>
    ensures same { SameParts parts.old parts.new }
    ensures carried { RestrictCarriedOut packed_sid station.number f s.now parts.old parts.new result }
{
    let from = located_by(parts, station.number, f.handle, Mask::DUPLICATE)?;
    let source = source_at(parts, from.slot);
    let mut table = parts.sids();
    let a = take(parts, from.slot, source.restricting, f, s, &mut table);
    check(parts, source, a, f, s)?;
    let end = issue_restricted(parts, station, from, source.groups, a.list, f, s);
    sids::set(&table, parts.control);
    Ok(end)
}
