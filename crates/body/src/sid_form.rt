// How the SIDs of a request stand in its body: by their numbers, or packed. Lists are skipped, and end where something is missing: a count alone buys no turns.
ghost use Rattle.rules.specs.Given.{Given};
ghost use Rattle.rules.specs.Request as rules;
ghost use Rattle.rules.specs.Request.{sid_number, packed_sid, times};
ghost use Rattle.number.specs.Reader.{PassedOn};

use number::{Reader, U32};
use sid::packed::size_at;

pub trait SidForm {
    // What reads one.
    ghost reader: { rules.Reader Given };

    fn skip_sids(rest: &mut Reader, count: u32) -> Option<()>
        ensures { PassedOn (times count reader) rest.old rest.new result };

    // SIDs, each with its attributes.
    fn skip_groups(rest: &mut Reader, count: u32) -> Option<()>
        ensures { PassedOn (times count (rules.group reader)) rest.old rest.new result };
}

// Requests 3 and 10.
pub struct Numbered;

impl SidForm for Numbered {
    ghost reader = { sid_number };

    #[tactic(auto, using(crate::proofs::Sids::numbers_passed))]
    fn skip_sids(rest: &mut Reader, count: u32) -> Option<()> {
        rest.numbers(u64::from(count), U32)
    }

    #[tactic(auto, using(crate::proofs::Sids::groups_passed))]
    fn skip_groups(rest: &mut Reader, count: u32) -> Option<()> {
        rest.numbers(2 * u64::from(count), U32)
    }
}

// Requests 14 and 15.
pub struct Packed;

impl SidForm for Packed {
    ghost reader = { packed_sid };

    fn skip_sids(rest: &mut Reader, count: u32) -> Option<()> {
        skip_packed_sids(rest, u64::from(count))
    }

    fn skip_groups(rest: &mut Reader, count: u32) -> Option<()> {
        skip_packed_groups(rest, u64::from(count))
    }
}

// Two loops: one over a closure would promise something of each reader that the closure may follow.
#[tactic(auto, using(crate::proofs::Skipping::skips))]
pub fn skip_packed_sids(rest: &mut Reader, count: u64) -> Option<()>
    ensures { PassedOn (times count packed_sid) rest.old rest.new result }
{
    for _ in 0..count {
        skip_packed(rest)?;
    }
    Some(())
}

#[tactic(auto, using(crate::proofs::Skipping::skips))]
pub fn skip_packed_groups(rest: &mut Reader, count: u64) -> Option<()>
    ensures { PassedOn (times count (rules.group packed_sid)) rest.old rest.new result }
{
    for _ in 0..count {
        skip_group(rest)?;
    }
    Some(())
}

// A SID and its attributes.
#[tactic(auto, using(crate::proofs::Sids::group_lost, crate::proofs::Sids::group_short, crate::proofs::Sids::group_passed))]
fn skip_group(rest: &mut Reader) -> Option<()>
    ensures { PassedOn (rules.group packed_sid) rest.old rest.new result }
{
    skip_packed(rest)?;
    rest.number(U32)?;
    Some(())
}

pub fn skip_packed(rest: &mut Reader) -> Option<()>
    ensures { PassedOn packed_sid rest.old rest.new result }
{
    rest.at += size_at(rest.body, rest.at)?;
    Some(())
}
