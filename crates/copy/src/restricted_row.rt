// Request 10: the row of the copy.
ghost use Rattle.std.specs.Prelude.{◌≡◌, ◌≤◌, ◌<◌};
ghost use Rattle.rules.specs.Token.{max_groups};
ghost use Rattle.rules.specs.State.{token_slots};
ghost use Rattle.copy.specs.Copies.{Remade};
ghost use Rattle.copy.specs.Restrict.{SourceAt, mark_word, limited_to, CopyMade};

use crate::denied_groups::deny;
use crate::numbers::Numbers;
use crate::restricting::{Sids, restrict_to};
use body::fields::RestrictFields;
use state::parts::Parts;
use token::layout::*;
use token::row;

// What the request asks of the token that it copies: how many groups and restricting SIDs it has, and its write-restricted mark.
#[derive(Clone, Copy)]
pub struct Source {
    pub groups: u64,
    pub restricting: u64,
    pub write_restricted: bool,
}

// The token in a slot.
pub fn source_at(parts: &Parts, slot: usize) -> Source
    requires { slot < token_slots }
    ensures { SourceAt slot parts.now.tokens.now result }
{
    let words = parts.row(slot);
    let groups = row::count_in(words, GROUP_COUNT, MAX_GROUPS);
    let restricting = row::count_in(words, RESTRICTING_COUNT, MAX_RESTRICTING);
    Source {
        groups: groups as u64,
        restricting: restricting as u64,
        write_restricted: words[WRITE_RESTRICTED] == 1,
    }
}

// Mark 1 sets a word, and 0 keeps it.
fn marked(mark: u32, w: u64) -> u64
    ensures { result ≡ mark_word mark w }
{
    if mark == 1 { 1 } else { w }
}

// A copy whose lists are as they were.
fn limit(words: &mut [u64; TOKEN_WORDS], n: u64, mark: u32, removed: u64)
    ensures { Remade (limited_to n mark removed) words.old words.new }
{
    let write = marked(mark, words[WRITE_RESTRICTED]);
    let deny = marked(mark, words[USER_DENY_ONLY]);
    let left = row::privileges_in(words).remove(removed);
    row::set_privileges(words, left);
    words[NUMBER] = n;
    words[MODIFIED] = n;
    words[ELEVATION] = 1;
    words[WRITE_RESTRICTED] = write;
    words[USER_DENY_ONLY] = deny;
}

// The indexes to deny stand in the body; the restricting SIDs are those of a list.
pub fn make(
    words: &mut [u64; TOKEN_WORDS],
    n: u64,
    groups: u64,
    list: Sids,
    f: RestrictFields,
    s: &[u8],
)
    requires { groups ≤ max_groups }
    ensures { CopyMade n groups list f.mark f.removed s.now f.deny_at f.deny_count words.old words.new }
{
    let indexes = Numbers::new(s, f.deny_at, u64::from(f.deny_count));
    limit(words, n, f.mark, f.removed);
    deny(words, groups, indexes);
    restrict_to(words, list);
}
