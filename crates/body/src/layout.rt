// The layouts of the requests, but that of 18, whose condition is read where it is evaluated. A body is read whole before anything else is judged: numbers by value, lists by skipping them.
#![tactic(auto, using(crate::proofs::Steps::steps), unfolding(rules::specs::Request::u16, rules::specs::Request::u32, rules::specs::Request::u64, rules::specs::Request::parse, rules::specs::Request::number_layout, rules::specs::Request::entries_layout, rules::specs::Request::create_layout, rules::specs::Request::query_layout, rules::specs::Request::scope_layout, rules::specs::Request::defaults_layout, rules::specs::Request::duplicate_layout, rules::specs::Request::restrict_layout, rules::specs::Request::link_layout))]

ghost use Rattle.std.specs.Prelude.{◌≡◌, IfSome};
ghost use Rattle.rules.specs.Request as rules;
ghost use Rattle.rules.specs.Given.{by_number};
ghost use Rattle.rules.specs.Request.{sid_number, byte, query_layout, scope_layout, defaults_layout, duplicate_layout, link_layout};
ghost use Rattle.number.specs.Reader.{rest_of};
ghost use Rattle.body.specs.Layout.{whole, Begun, NothingRead, NumberRead, values_at, Listed, EntriesRead, BehindUser, CreateRead, RestrictRead, PackedCreateRead};

use crate::fields::{
    CreateFields, DefaultsFields, DuplicateFields, EntriesFields, LinkFields, QueryFields,
    RestrictFields, ScopeFields,
};
use crate::sid_form::{Numbered, Packed, SidForm, skip_packed};
use number::{Reader, U16, U32, U64};

// The request number, and the reader after it.
pub fn request_number(body: &[u8]) -> Option<(u64, Reader)>
    ensures { Begun body.now result }
{
    let mut rest = Reader::new(body, 0);
    let number = rest.number(U32)?;
    Some((number, rest))
}

// Nothing follows the request number.
pub fn nothing(rest: Reader) -> bool
    ensures { NothingRead rest.entry result }
{
    rest.is_ended()
}

pub fn number(mut rest: Reader) -> Option<u32>
    ensures { NumberRead rest.entry result }
{
    let value = rest.number(U32)? as u32;
    rest.is_ended().then_some(value)
}

pub fn query(mut rest: Reader) -> Option<QueryFields>
    ensures { whole (λ f. rules.query f.handle f.class f.capacity) result ≡ query_layout (rest_of rest.entry) }
{
    let handle = rest.number(U32)? as u32;
    let class = rest.number(U32)? as u32;
    let capacity = rest.number(U32)? as u32;
    rest.is_ended().then_some(QueryFields {
        handle,
        class,
        capacity,
    })
}

pub fn entries(mut rest: Reader) -> Option<EntriesFields>
    ensures { EntriesRead rest.entry result }
{
    let handle = rest.number(U32)? as u32;
    let count = rest.number(U32)?;
    let at = rest.at;
    rest.numbers(2 * count, U32)?;
    rest.is_ended().then_some(EntriesFields {
        handle,
        count: count as u32,
        at,
    })
}

pub fn scope(mut rest: Reader) -> Option<ScopeFields>
    ensures { whole (λ f. rules.scope f.handle f.value) result ≡ scope_layout (rest_of rest.entry) }
{
    let handle = rest.number(U32)? as u32;
    let value = rest.number(U32)? as u32;
    rest.is_ended().then_some(ScopeFields { handle, value })
}

pub fn duplicate(mut rest: Reader) -> Option<DuplicateFields>
    ensures { whole (λ f. rules.duplicate f.handle f.kind f.level f.mask) result ≡ duplicate_layout (rest_of rest.entry) }
{
    let handle = rest.number(U32)? as u32;
    let kind = rest.number(U32)? as u32;
    let level = rest.number(U32)? as u32;
    let mask = rest.number(U32)? as u32;
    rest.is_ended().then_some(DuplicateFields {
        handle,
        kind,
        level,
        mask,
    })
}

pub fn link(mut rest: Reader) -> Option<LinkFields>
    ensures { whole (λ f. rules.link f.elevated f.filtered f.session) result ≡ link_layout (rest_of rest.entry) }
{
    let elevated = rest.number(U32)? as u32;
    let filtered = rest.number(U32)? as u32;
    let session = rest.number(U64)?;
    rest.is_ended().then_some(LinkFields {
        elevated,
        filtered,
        session,
    })
}

pub fn defaults(mut rest: Reader) -> Option<DefaultsFields>
    ensures parsed { whole (λ f. rules.defaults f.handle f.owner f.group f.flag (values_at byte rest.entry.body.now f.at f.size)) result ≡ defaults_layout (rest_of rest.entry) }
    ensures there { IfSome result (λ f. Listed rest.entry byte f.at f.size) }
{
    let handle = rest.number(U32)? as u32;
    let owner = rest.number(U16)? as u32;
    let group = rest.number(U16)? as u32;
    let flag = rest.number(U32)? as u32;
    let size = rest.number(U32)?;
    let at = rest.at;
    rest.bytes(size)?;
    rest.is_ended().then_some(DefaultsFields {
        handle,
        owner,
        group,
        flag,
        size: size as u32,
        at,
    })
}

// Requests 3 and 14 from the session on, behind a user.
fn behind_user<U: Copy, S: SidForm>(user: U, mut rest: Reader) -> Option<CreateFields<U>>
    ensures { BehindUser S.reader user rest.entry result }
{
    let session = rest.number(U64)?;
    let integrity = rest.number(U32)? as u32;
    let present = rest.number(U64)?;
    let by_default = rest.number(U64)?;
    let count = rest.number(U32)? as u32;
    let at = rest.at;
    S::skip_groups(&mut rest, count)?;
    rest.is_ended().then_some(CreateFields {
        user,
        session,
        integrity,
        present,
        by_default,
        count,
        at,
    })
}

pub fn create(mut rest: Reader) -> Option<CreateFields<u32>>
    ensures { CreateRead sid_number by_number rest.entry result }
{
    let user = rest.number(U32)? as u32;
    behind_user::<u32, Numbered>(user, rest)
}

pub fn create_packed(mut rest: Reader) -> Option<CreateFields<usize>>
    ensures { PackedCreateRead rest.entry result }
{
    let user = rest.at;
    skip_packed(&mut rest)?;
    behind_user::<usize, Packed>(user, rest)
}

// Requests 10 and 15.
pub fn restrict<S: SidForm>(mut rest: Reader) -> Option<RestrictFields>
    ensures { RestrictRead S.reader rest.entry result }
{
    let handle = rest.number(U32)? as u32;
    let mark = rest.number(U32)? as u32;
    let removed = rest.number(U64)?;
    let deny_count = rest.number(U32)?;
    let sid_count = rest.number(U32)? as u32;
    let deny_at = rest.at;
    rest.numbers(deny_count, U32)?;
    let sid_at = rest.at;
    S::skip_sids(&mut rest, sid_count)?;
    rest.is_ended().then_some(RestrictFields {
        handle,
        mark,
        removed,
        deny_count: deny_count as u32,
        deny_at,
        sid_count,
        sid_at,
    })
}
