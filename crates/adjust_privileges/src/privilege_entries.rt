// Request 5: the entries judged against a token's privileges, and made on a copy of them.
ghost use Rattle.std.specs.Prelude.{◌≡◌, Some, drop};
ghost use Rattle.rules.specs.Request.{times, entry};
ghost use Rattle.rules.specs.AdjustPrivileges.{valid_entry, applied};
ghost use Rattle.privilege.specs.Meaning.{privileges_of};
ghost use Rattle.body.specs.Entries.{entry_of, turned, passed};
ghost use Rattle.adjust_privileges.specs.PrivilegeEntries.{outcome_of, progress_of, judged};

use body::entry;
use body::entry::Entry;
use privilege::privileges::Privileges;
use privilege::words;

const RESET: u64 = 0x8000_0000;

// The privileges after the entries, and which of those named were present and enabled before.
#[derive(Clone, Copy)]
pub struct Adjusted {
    pub privileges: Privileges,
    pub was_present: u64,
    pub was_enabled: u64,
}

// The privileges so far and the word of those named so far.
#[derive(Clone, Copy)]
struct Progress {
    made: Privileges,
    named: u64,
}

// A good entry more, of a privilege that was not named before.
fn turn(p: Privileges, g: Progress, e: Entry) -> Option<Progress>
    ensures { progress_of result ≡ turned (valid_entry (privileges_of p)) applied (entry_of e.key e.value) (progress_of (Some g)) }
{
    if !p.may_adjust(e.key, e.value) | words::has(g.named, e.key) {
        return None;
    }
    Some(Progress {
        made: g.made.adjust(e.key, e.value),
        named: words::with(g.named, words::bit(e.key)),
    })
}

fn pass(p: Privileges, s: &[u8], start: usize, count: u32) -> Option<Progress>
    ensures { progress_of result ≡ passed (valid_entry (privileges_of p)) applied (privileges_of p) (times count entry (drop start s.now)) }
{
    let mut g = Progress { made: p, named: 0 };
    let mut at = start;
    for _ in 0..count {
        let e = entry::read(s, at)?;
        g = turn(p, g, e)?;
        at = e.next;
    }
    Some(g)
}

// The count entries that stand at a place of a body; none is no good request.
#[tactic(auto, using(crate::proofs::PrivilegeEntries::judging))]
pub fn adjust(p: Privileges, s: &[u8], at: usize, count: u32) -> Option<Adjusted>
    ensures { outcome_of result ≡ judged (privileges_of p) (times count entry (drop at s.now)) }
{
    if entry::is_just(0, RESET, s, at, count as u64) {
        return Some(Adjusted {
            privileges: p.reset(),
            was_present: p.present,
            was_enabled: p.enabled,
        });
    }
    if count == 0 {
        return None;
    }
    let g = pass(p, s, at, count)?;
    Some(Adjusted {
        privileges: g.made,
        was_present: p.present & g.named,
        was_enabled: p.enabled & g.named,
    })
}
