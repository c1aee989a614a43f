// The words of a token's row in lent memory. A row is a slice whose length each contract asks for: of an array made of a part of the lent
// words, a proof doesn't know what the words hold after it.
#![tactic(auto, using(crate::proofs::Changing::changes, crate::proofs::NewRow::head_set))]

ghost use Rattle.std.specs.Prelude.{◌≡◌, ◌<◌, min, length, slice_index};
ghost use Rattle.rules.specs.Token.{next_modified, with_elevation, with_privileges, with_scope};
ghost use Rattle.rules.specs.Memory.{token_words};
ghost use Rattle.token.specs.Meaning.{identity_of};
ghost use Rattle.privilege.specs.Meaning.{privileges_of};
ghost use Rattle.token.specs.Row.{identity_in, privileges_in, privileges_stored, Becomes};
ghost use Rattle.token.specs.NewRow.{Headed};

use crate::Identity;
use crate::layout::*;
use privilege::privileges::Privileges;
use table::WORD_32;

// ---- reading

pub fn identity_in(words: &[u64]) -> Identity
    requires { length words.now ≡ token_words }
    ensures { result ≡ identity_in words.now }
{
    Identity {
        user: (words[USER] % WORD_32) as u32,
        session: words[SESSION],
        kind: (words[KIND] % 256) as u8,
        level: (words[LEVEL] % 256) as u8,
        integrity: (words[INTEGRITY] % WORD_32) as u32,
        root: words[ROOT],
    }
}

pub fn privileges_in(words: &[u64]) -> Privileges
    requires { length words.now ≡ token_words }
    ensures { result ≡ privileges_in words.now }
{
    Privileges {
        present: words[PRESENT],
        enabled: words[ENABLED],
        by_default: words[BY_DEFAULT],
        used: words[USED],
    }
}

// A count, cut to its list's size. The two stay apart: callers name the size by itself too.
pub fn count_in(words: &[u64], at: usize, size: usize) -> usize
    requires { at < length words.now }
    ensures { result ≡ min (slice_index words.now at) size }
{
    words[at].min(size as u64) as usize
}

// ---- writing

// The head of a new token, in a row that has only its groups: the modified number is the number, the elevation Default.
pub fn set_head(
    words: &mut [u64],
    number: u64,
    identity: Identity,
    p: Privileges,
    group_count: usize,
)
    requires { length words.old ≡ token_words }
    ensures { Headed number (identity_of identity) (privileges_of p) group_count words.old words.new }
{
    words[NUMBER] = number;
    words[MODIFIED] = number;
    words[SESSION] = identity.session;
    words[USER] = identity.user as u64;
    words[KIND] = identity.kind as u64;
    words[LEVEL] = identity.level as u64;
    words[ELEVATION] = 1;
    words[INTEGRITY] = identity.integrity as u64;
    store_privileges(words, p);
    words[GROUP_COUNT] = group_count as u64;
    words[ROOT] = identity.root;
}

fn store_privileges(words: &mut [u64], p: Privileges)
    requires { length words.old ≡ token_words }
    ensures { words.new ≡ privileges_stored p words.old }
{
    words[PRESENT] = p.present;
    words[ENABLED] = p.enabled;
    words[BY_DEFAULT] = p.by_default;
    words[USED] = p.used;
}

// ---- changes in place

// The modified number steps: from 2^64 - 1 back to 0.
pub fn step_modified(words: &mut [u64])
    requires { length words.old ≡ token_words }
    ensures { Becomes next_modified words.old words.new }
{
    words[MODIFIED] = words[MODIFIED].wrapping_add(1);
}

pub fn set_privileges(words: &mut [u64], p: Privileges)
    requires { length words.old ≡ token_words }
    ensures { Becomes (with_privileges (privileges_of p)) words.old words.new }
{
    store_privileges(words, p);
}

pub fn set_scope(words: &mut [u64], scope: u32)
    requires { length words.old ≡ token_words }
    ensures { Becomes (with_scope scope) words.old words.new }
{
    words[SCOPE] = scope as u64;
}

pub fn set_elevation(words: &mut [u64], elevation: u64)
    requires { length words.old ≡ token_words }
    ensures { Becomes (with_elevation elevation) words.old words.new }
{
    words[ELEVATION] = elevation;
}
