// Requests 10 and 15: the copy's restricting SIDs, from the source's and those given in a body.
ghost use Rattle.std.specs.Prelude.{◌≡◌, ◌≤◌, ◌<◌};
ghost use Rattle.rules.specs.Number.{max64};
ghost use Rattle.rules.specs.Token.{max_restricting};
ghost use Rattle.rules.specs.State.{token_slots};
ghost use Rattle.copy.specs.Numbers.{numbers_left};
ghost use Rattle.copy.specs.Restricting.{so_many, Listed, SidAdded, is_kept, Answers, OwnKept, ListMade, RestrictedTo};

use crate::numbers::Numbers;
use table::slices::copy;
use token::layout::{GROUPS_END, MAX_RESTRICTING, RESTRICTING_COUNT, TOKEN_WORDS, TOKENS};

// How many SIDs a list has and, where they fit a token, the SIDs and zeros behind them: a row's words, which are copied as they are.
#[derive(Clone, Copy)]
pub struct Sids {
    pub count: u64,
    pub words: [u64; MAX_RESTRICTING],
}

impl Sids {
    pub const NONE: Sids = Sids {
        count: 0,
        words: [0; MAX_RESTRICTING],
    };

    // So many, where only their number is asked for.
    pub fn unlisted(count: u64) -> Sids
        ensures { result ≡ so_many count }
    {
        Sids {
            count,
            ..Sids::NONE
        }
    }

    // One SID more: of too many, only their number is asked for.
    pub fn push(&mut self, sid: u64)
        requires { self.old.count < max64 }
        ensures { SidAdded sid self.old self.new }
    {
        if self.count < MAX_RESTRICTING as u64 {
            self.words[self.count as usize] = sid;
        }
        self.count += 1;
    }
}

fn listed(given: Numbers) -> Sids
    ensures { Listed (numbers_left given.entry) result }
{
    let mut list = Sids::NONE;
    for sid in given {
        list.push(sid);
    }
    list
}

// One of a restricted source's SIDs stays: none is given, or it is given too.
fn stays(sid: u64, mut given: Numbers) -> bool
    ensures { result ≡ is_kept (numbers_left given.entry) sid }
{
    let Some(first) = given.next() else {
        return true;
    };
    sid == first || given.any(|other| sid == other)
}

// Of the `own` SIDs of the token in a slot, those that stay, in their order.
pub fn kept<F: Fn(u64) -> bool>(tokens: &[u64; TOKENS], slot: usize, own: u64, stays: F) -> Sids
    requires within { (slot < token_slots) × (own ≤ max_restricting) }
    requires stays { F.IsAlwaysCallable stays }
    ensures { OwnKept slot own tokens.now (Answers (F.post stays)) result }
{
    let from = slot * TOKEN_WORDS + GROUPS_END;
    let end = from + own as usize;
    let sids = &tokens[from..end];
    let mut list = Sids::NONE;
    for sid in sids {
        if stays(*sid) {
            list.push(*sid);
        }
    }
    list
}

// The list of a copy of the token in a slot, which has `own` restricting SIDs; the count SIDs given stand at a place of a body.
#[tactic(auto, using(crate::proofs::RestrictingSids::lists_given, crate::proofs::RestrictingSids::lists_kept, crate::proofs::RestrictingSids::lists_many))]
pub fn list_of(
    tokens: &[u64; TOKENS],
    slot: usize,
    own: u64,
    s: &[u8],
    at: usize,
    count: u64,
) -> Sids
    requires { (slot < token_slots) × (own ≤ max_restricting) }
    ensures { ListMade slot own tokens.now s.now at count result }
{
    let given = Numbers::new(s, at, count);
    if own != 0 {
        return kept(tokens, slot, own, |sid| stays(sid, given));
    }
    // Of too many, only their number is asked for: none is read.
    if (MAX_RESTRICTING as u64) < count {
        return Sids::unlisted(count);
    }
    listed(given)
}

// In a row.
pub fn restrict_to(words: &mut [u64; TOKEN_WORDS], list: Sids)
    ensures { RestrictedTo list words.old words.new }
{
    copy(&list.words, &mut words[GROUPS_END..]);
    words[RESTRICTING_COUNT] = list.count;
}
