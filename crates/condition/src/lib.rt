// Conditions on a token (request 18): two functions that call each other read one and evaluate it, in one pass over its bytes.
#![tactic(auto)]

ghost use Rattle.std.specs.Prelude.{◌≡◌, map};
ghost use Rattle.rules.specs.Condition.{has_group};
ghost use Rattle.rules.specs.Memory.{unpack};
ghost use Rattle.number.specs.Reader.{rest_of};
ghost use Rattle.condition.specs.Told.{is_of, joined, asked, ConditionRead, ConditionsRead, verdict_of, read_whole};

use number::{Reader, U32};
use privilege::privileges::Privileges;
use privilege::words::has;
use token::Group;

const MAX_DEPTH: u64 = 8;

// What a condition is asked of: a token's enabled privileges, and its groups' words.
#[derive(Clone, Copy)]
pub struct Asked<'a> {
    pub enabled: u64,
    pub groups: &'a [u64],
}

// What is told of a condition: its value, and whether every privilege that it names exists.
#[derive(Clone, Copy)]
pub struct Told {
    pub value: bool,
    pub known: bool,
}

// A condition that is being read: the bytes that are left, and whether every privilege that was named exists.
#[derive(Clone, Copy)]
struct Reading<'a> {
    rest: Reader<'a>,
    known: bool,
}

// A group's word has that SID and is enabled.
#[tactic(auto, unfolding(crate::specs::Told::is_of, rules::specs::Memory::unpack))]
fn is_of(w: u64, sid: u64) -> bool
    ensures { result ≡ is_of sid w }
{
    let g = Group::from(w);
    (u64::from(g.sid) == sid) & g.is_enabled()
}

// Some group of that SID is enabled. Each is looked at, with no early exit as any has, so that the compiler takes many at once.
fn has_group(groups: &[u64], sid: u64) -> bool
    ensures { result ≡ has_group sid (map unpack groups.now) }
{
    groups.iter().fold(false, |found, w| found | is_of(*w, sid))
}

// Both for all-of, either for any-of.
fn joined(all: bool, a: bool, b: bool) -> bool
    ensures { result ≡ joined all a b }
{
    if all { a & b } else { a | b }
}

// A condition at most so deep: its value. Its kind is matched as it stands on the line: an enum of the five would be made here and matched here, and nowhere else.
#[cycle(condition_conditions)]
#[tactic(auto, using(crate::proofs::Telling::tellings))]
fn condition(r: &mut Reading, depth: u64, token: &Asked) -> Option<bool>
    ensures { ConditionRead depth token.now r.old r.new result }
{
    if depth == 0 {
        return None;
    }
    match r.rest.number(U32)? {
        1 => conditions(r, depth - 1, true, token),
        2 => conditions(r, depth - 1, false, token),
        3 => Some(!condition(r, depth - 1, token)?),
        4 => {
            let n = r.rest.number(U32)?;
            r.known &= Privileges::exists(n);
            Some(has(token.enabled, n))
        }
        5 => {
            let sid = r.rest.number(U32)?;
            Some(has_group(token.groups, sid))
        }
        _ => None,
    }
}

// A count and so many conditions, each at most so deep: all of them, or any.
#[cycle(condition_conditions)]
#[tactic(auto, using(crate::proofs::Telling::tellings))]
fn conditions(r: &mut Reading, depth: u64, all: bool, token: &Asked) -> Option<bool>
    ensures { ConditionsRead depth all token.now r.old r.new result }
{
    let count = r.rest.number(U32)?;
    let mut value = all;
    for _ in 0..count {
        let next = condition(r, depth, token)?;
        value = joined(all, value, next);
    }
    Some(value)
}

// The condition that the rest of a body is, to its last byte.
#[tactic(auto, using(crate::proofs::Whole::whole))]
pub fn evaluate(rest: Reader, token: Asked) -> Option<Told>
    ensures { result ≡ verdict_of (asked token.entry) (read_whole (rest_of rest.entry)) }
{
    let mut r = Reading { rest, known: true };
    let value = condition(&mut r, MAX_DEPTH, &token)?;
    r.rest.is_ended().then_some(Told {
        value,
        known: r.known,
    })
}
