// A function for each request number: the rest of the body in the request's layout (of 18, what stands before its condition), or refusal 1;
// then the request.
#![tactic(auto, using(crate::proofs::LayoutLaws::no_number))]

ghost use Rattle.std.specs.Prelude.{◌≤◌, length};
ghost use Rattle.rules.specs.Request as rules;
ghost use Rattle.rules.specs.Request.{end, sid_number, packed_sid, number_layout, create_layout, query_layout, entries_layout, scope_layout, defaults_layout, duplicate_layout, restrict_layout, link_layout, evaluate_layout};
ghost use Rattle.state.specs.Parts.{SameParts};
ghost use Rattle.requests.specs.Layouts.{LayoutCarried};

use answer::Refusal;
use body::layout;
use body::sid_form::{Numbered, Packed};
use control::stations::Station;
use decide::outcome::Outcome;
use number::{Reader, U32};
use state::parts::Parts;

pub fn open_own(parts: &mut Parts, station: Station, rest: Reader) -> Result<Outcome, Refusal>
    ensures same { SameParts parts.old parts.new }
    ensures carried { LayoutCarried (number_layout rules.open_own) station.number rest.entry parts.old parts.new result }
{
    let mask = layout::number(rest).ok_or(Refusal::Malformed)?;
    open::open_own(parts, station, mask)
}

pub fn close(parts: &mut Parts, station: Station, rest: Reader) -> Result<Outcome, Refusal>
    ensures same { SameParts parts.old parts.new }
    ensures carried { LayoutCarried (number_layout rules.close) station.number rest.entry parts.old parts.new result }
{
    let number = layout::number(rest).ok_or(Refusal::Malformed)?;
    open::close(parts, station, number)
}

pub fn create(parts: &mut Parts, station: Station, rest: Reader) -> Result<Outcome, Refusal>
    ensures same { SameParts parts.old parts.new }
    ensures carried { LayoutCarried (create_layout sid_number) station.number rest.entry parts.old parts.new result }
{
    let fields = layout::create(rest).ok_or(Refusal::Malformed)?;
    create::create(parts, station, fields, rest.body)
}

pub fn query(parts: &mut Parts, station: Station, rest: Reader) -> Result<Outcome, Refusal>
    ensures same { SameParts parts.old parts.new }
    ensures carried { LayoutCarried query_layout station.number rest.entry parts.old parts.new result }
{
    let fields = layout::query(rest).ok_or(Refusal::Malformed)?;
    query::query(parts, station.number, fields)
}

pub fn privileges(parts: &mut Parts, station: Station, rest: Reader) -> Result<Outcome, Refusal>
    ensures same { SameParts parts.old parts.new }
    ensures carried { LayoutCarried (entries_layout rules.privileges) station.number rest.entry parts.old parts.new result }
{
    let fields = layout::entries(rest).ok_or(Refusal::Malformed)?;
    adjust_privileges::adjust_privileges(parts, station.number, fields, rest.body)
}

pub fn groups(parts: &mut Parts, station: Station, rest: Reader) -> Result<Outcome, Refusal>
    ensures same { SameParts parts.old parts.new }
    ensures carried { LayoutCarried (entries_layout rules.groups) station.number rest.entry parts.old parts.new result }
{
    let fields = layout::entries(rest).ok_or(Refusal::Malformed)?;
    adjust_groups::adjust_groups(parts, station.number, fields, rest.body)
}

pub fn scope(parts: &mut Parts, station: Station, rest: Reader) -> Result<Outcome, Refusal>
    ensures same { SameParts parts.old parts.new }
    ensures carried { LayoutCarried scope_layout station.number rest.entry parts.old parts.new result }
{
    let fields = layout::scope(rest).ok_or(Refusal::Malformed)?;
    adjust_defaults::scope::scope(parts, station, fields)
}

pub fn defaults(parts: &mut Parts, station: Station, rest: Reader) -> Result<Outcome, Refusal>
    requires { rest.at ≤ length rest.body.now }
    ensures same { SameParts parts.old parts.new }
    ensures carried { LayoutCarried defaults_layout station.number rest.entry parts.old parts.new result }
{
    let fields = layout::defaults(rest).ok_or(Refusal::Malformed)?;
    adjust_defaults::defaults::adjust_defaults(parts, station.number, fields, rest.body)
}

pub fn duplicate(parts: &mut Parts, station: Station, rest: Reader) -> Result<Outcome, Refusal>
    ensures same { SameParts parts.old parts.new }
    ensures carried { LayoutCarried duplicate_layout station.number rest.entry parts.old parts.new result }
{
    let fields = layout::duplicate(rest).ok_or(Refusal::Malformed)?;
    copy::duplicate::duplicate(parts, station, fields)
}

pub fn restrict(parts: &mut Parts, station: Station, rest: Reader) -> Result<Outcome, Refusal>
    ensures same { SameParts parts.old parts.new }
    ensures carried { LayoutCarried (restrict_layout sid_number) station.number rest.entry parts.old parts.new result }
{
    let fields = layout::restrict::<Numbered>(rest).ok_or(Refusal::Malformed)?;
    copy::restrict::restrict(parts, station, fields, rest.body)
}

pub fn install(parts: &mut Parts, station: Station, rest: Reader) -> Result<Outcome, Refusal>
    ensures same { SameParts parts.old parts.new }
    ensures carried { LayoutCarried (number_layout rules.install) station.number rest.entry parts.old parts.new result }
{
    let number = layout::number(rest).ok_or(Refusal::Malformed)?;
    install::install(parts, station, number)
}

pub fn impersonate(parts: &mut Parts, station: Station, rest: Reader) -> Result<Outcome, Refusal>
    ensures same { SameParts parts.old parts.new }
    ensures carried { LayoutCarried (number_layout rules.impersonate) station.number rest.entry parts.old parts.new result }
{
    let number = layout::number(rest).ok_or(Refusal::Malformed)?;
    impersonate::impersonate(parts, station, number)
}

pub fn revert(parts: &mut Parts, station: Station, rest: Reader) -> Result<Outcome, Refusal>
    ensures same { SameParts parts.old parts.new }
    ensures carried { LayoutCarried (end rules.revert) station.number rest.entry parts.old parts.new result }
{
    if !layout::nothing(rest) {
        return Err(Refusal::Malformed);
    }
    Ok(impersonate::revert(parts, station))
}

pub fn create_packed(parts: &mut Parts, station: Station, rest: Reader) -> Result<Outcome, Refusal>
    ensures same { SameParts parts.old parts.new }
    ensures carried { LayoutCarried (create_layout packed_sid) station.number rest.entry parts.old parts.new result }
{
    let fields = layout::create_packed(rest).ok_or(Refusal::Malformed)?;
    create::create_packed(parts, station, fields, rest.body)
}

pub fn restrict_packed(
    parts: &mut Parts,
    station: Station,
    rest: Reader,
) -> Result<Outcome, Refusal>
    ensures same { SameParts parts.old parts.new }
    ensures carried { LayoutCarried (restrict_layout packed_sid) station.number rest.entry parts.old parts.new result }
{
    let fields = layout::restrict::<Packed>(rest).ok_or(Refusal::Malformed)?;
    restrict_packed::restrict_packed(parts, station, fields, rest.body)
}

pub fn link(parts: &mut Parts, station: Station, rest: Reader) -> Result<Outcome, Refusal>
    ensures same { SameParts parts.old parts.new }
    ensures carried { LayoutCarried link_layout station.number rest.entry parts.old parts.new result }
{
    let fields = layout::link(rest).ok_or(Refusal::Malformed)?;
    link::link::link(parts, station, fields)
}

pub fn linked(parts: &mut Parts, station: Station, rest: Reader) -> Result<Outcome, Refusal>
    ensures same { SameParts parts.old parts.new }
    ensures carried { LayoutCarried (number_layout rules.linked) station.number rest.entry parts.old parts.new result }
{
    let number = layout::number(rest).ok_or(Refusal::Malformed)?;
    link::linked::linked(parts, station, number)
}

// The rest of the layout is read where it is evaluated.
pub fn evaluate(parts: &mut Parts, station: Station, mut rest: Reader) -> Result<Outcome, Refusal>
    ensures same { SameParts parts.old parts.new }
    ensures carried { LayoutCarried evaluate_layout station.number rest.entry parts.old parts.new result }
{
    let number = rest.number(U32).ok_or(Refusal::Malformed)?;
    evaluate::evaluate(parts, station.number, number as u32, rest)
}
