// Request 6: the entries judged against the words of a token's groups, and made there.
ghost use Rattle.std.specs.Prelude.{◌≡◌, true, Some, ◌≤◌, ◌<◌, length, drop};
ghost use Rattle.rules.specs.Token.{max_groups};
ghost use Rattle.rules.specs.Request.{times, entry};
ghost use Rattle.rules.specs.AdjustGroups.{valid_entry};
ghost use Rattle.body.specs.Entries.{entry_of, turned, passed};
ghost use Rattle.adjust_groups.specs.GroupEntries.{groups_in, may_entry, judging, progress_of, EntriesMade, GroupsSwitched};

use crate::group_words::{enabled_word, is_protected, reset_all, set_enabled_at};
use answer::Refusal;
use body::entry;
use body::entry::Entry;
use number::U32;
use privilege::words;
use token::Group;

// Whether no entry asked for what is protected, and the word of the indexes named so far.
#[derive(Clone, Copy)]
struct Progress {
    free: bool,
    named: u64,
}

#[tactic(auto, using(crate::proofs::GroupEntries::named_group))]
fn is_unprotected(user: u32, e: Entry, groups: &[u64]) -> bool
    requires { e.key < length groups.now }
    ensures { result ≡ may_entry user (groups_in groups.now) (entry_of e.key e.value) }
{
    !is_protected(user, e.value, Group::from(groups[e.key as usize]))
}

// A good entry more, of an index that was not named before.
fn turn(user: u32, g: Progress, e: Entry, groups: &[u64]) -> Option<Progress>
    requires { length groups.now ≤ max_groups }
    ensures { progress_of result ≡ turned (valid_entry (groups_in groups.now)) (judging user (groups_in groups.now)) (entry_of e.key e.value) (progress_of (Some g)) }
{
    let valid = (e.key < groups.len() as u64) & (e.value <= 1);
    if !valid | words::has(g.named, e.key) {
        return None;
    }
    Some(Progress {
        free: g.free & is_unprotected(user, e, groups),
        named: words::with(g.named, words::bit(e.key)),
    })
}

fn judge(user: u32, s: &[u8], start: usize, count: u32, groups: &[u64]) -> Option<Progress>
    requires { length groups.now ≤ max_groups }
    ensures { progress_of result ≡ passed (valid_entry (groups_in groups.now)) (judging user (groups_in groups.now)) true (times count entry (drop start s.now)) }
{
    let mut g = Progress {
        free: true,
        named: 0,
    };
    let mut at = start;
    for _ in 0..count {
        let e = entry::read(s, at)?;
        g = turn(user, g, e, groups)?;
        at = e.next;
    }
    Some(g)
}

// The entries are good.
#[tactic(auto, using(crate::proofs::GroupEntries::making))]
fn make(s: &[u8], start: usize, count: u32, groups: &mut [u64])
    ensures { EntriesMade count (drop start s.now) groups.old groups.new }
{
    let mut at = start;
    for _ in 0..count {
        let Some(e) = entry::read(s, at) else {
            return;
        };
        set_enabled_at(e.key, e.value == 1, groups);
        at = e.next;
    }
}

// The count entries that stand at a place of a body, and the ENABLED bits from before. A bad entry goes before a protected one, wherever
// it stands; none is no good request.
#[tactic(auto, using(crate::proofs::GroupEntries::switching))]
pub fn adjust(
    user: u32,
    s: &[u8],
    at: usize,
    count: u32,
    groups: &mut [u64],
) -> Result<u64, Refusal>
    requires { length groups.old ≤ max_groups }
    ensures { GroupsSwitched user count (drop at s.now) groups.old groups.new result }
{
    let previous = enabled_word(groups);
    if entry::is_just(U32, 0, s, at, count as u64) {
        reset_all(groups);
        return Ok(previous);
    }
    if count == 0 {
        return Err(Refusal::BadField);
    }
    let Some(g) = judge(user, s, at, count, groups) else {
        return Err(Refusal::BadField);
    };
    if !g.free {
        return Err(Refusal::ProtectedGroup);
    }
    make(s, at, count, groups);
    Ok(previous)
}
