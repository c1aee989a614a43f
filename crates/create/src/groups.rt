// Request 3: the groups of a new token, read from a body, judged and entered in its row.
ghost use Rattle.std.specs.Prelude.{◌≡◌, ◌≤◌, replicate};
ghost use Rattle.rules.specs.SidTable.{max_sids};
ghost use Rattle.rules.specs.Memory.{token_words, pack};
ghost use Rattle.rules.specs.Create.{valid_pair, entered};
ghost use Rattle.token.specs.Meaning.{group_of};
ghost use Rattle.create.specs.NewGroups.{PairFits, GroupsRead};

use answer::Refusal;
use body::entry;
use body::entry::Entry;
use privilege::words;
use sid::number::is_number;
use token::Group;
use token::layout::{HEAD_WORDS, MAX_GROUPS, TOKEN_WORDS};

// MANDATORY, ENABLED_BY_DEFAULT, OWNER, DENY_ONLY, LOGON_ID.
const GIVABLE: u64 = 0xC000001B;

#[tactic(auto, using(crate::proofs::NewGroups::pair_valid_lem))]
pub fn valid_pair(user: u32, g: Group) -> bool
    ensures { result ≡ valid_pair user (group_of g) }
{
    let attributes = g.attributes as u64;
    let low = words::has(attributes, 30);
    let high = words::has(attributes, 31);
    let on = g.is_enabled_by_default();
    words::within(attributes, GIVABLE)
        & (low == high)
        & (!g.is_fixed(user) | on)
        & (!g.is_deny_only() | !on)
}

// A good pair whose SID's number is in a table of so many SIDs.
#[tactic(auto, using(crate::proofs::NewGroups::pair_fits_lem))]
fn fits(user: u32, known: u64, g: Group) -> bool
    requires { known ≤ max_sids }
    ensures { PairFits user known (group_of g) result }
{
    valid_pair(user, g) & is_number(g.sid as u64, known)
}

#[tactic(auto, unfolding(rules::specs::Create::entered))]
fn entered(g: Group) -> Group
    ensures { group_of result ≡ entered (group_of g) }
{
    if g.is_enabled_by_default() {
        g.with_enabled(true)
    } else {
        g
    }
}

// The word of the group that is entered.
pub fn entered_word(g: Group) -> u64
    ensures { result ≡ pack (entered (group_of g)) }
{
    u64::from(entered(g))
}

// The count pairs that stand at a place of a body, entered in a row of zeros until one is bad. Packed SIDs have a loop of their own: one without
// room is still judged, and each changes the table, so a trait of both with its laws would be longer than this loop.
pub fn read_groups(
    user: u32,
    known: u64,
    s: &[u8],
    at: usize,
    count: usize,
    words: &mut [u64; TOKEN_WORDS],
) -> Result<(), Refusal>
    requires { (words.old ≡ replicate token_words 0) × (known ≤ max_sids) }
    ensures { GroupsRead user known s.now at count words.new result }
{
    if MAX_GROUPS < count {
        return Err(Refusal::BadField);
    }
    let mut from = at;
    for n in 0..count {
        let Some(Entry { key, value, next }) = entry::read(s, from) else {
            return Err(Refusal::BadField);
        };
        let g = Group {
            sid: key as u32,
            attributes: value as u32,
        };
        if !fits(user, known, g) {
            return Err(Refusal::BadField);
        }
        words[HEAD_WORDS + n] = entered_word(g);
        from = next;
    }
    Ok(())
}
