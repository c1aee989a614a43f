// Request 4: what a query answers of a token's row, and how long that is. Most classes are one number.
ghost use Rattle.std.specs.Prelude.{◌≡◌, ◌≤◌, ◌*◌, ◌∷◌, length, map, sum_by};
ghost use Rattle.rules.specs.Token.{max_groups, max_restricting};
ghost use Rattle.rules.specs.Memory.{low32, unpack, groups_at, limits_at};
ghost use Rattle.answer.specs.Class.{single_number, class_number, Decodes};
ghost use Rattle.answer.specs.Classes.{pair_size, sid_size, statistics, RowSid, RowOne, RowCounted};

use crate::Refusal;
use table::WORD_32;
use token::layout::*;
use token::row;

// The classes of one number.
#[derive(Clone, Copy, PartialEq, Eq, Debug)]
pub enum Single {
    User,
    Owner,
    PrimaryGroup,
    Type,
    Level,
    Scope,
    Elevation,
    Integrity,
}

#[derive(Clone, Copy, PartialEq, Eq, Debug)]
pub enum Class {
    Single(Single),
    Groups,
    Privileges,
    Dacl,
    Statistics,
    Restricting,
}

impl TryFrom<u32> for Class {
    type Error = Refusal;

    ghost try_from_gives = { Decodes };

    fn try_from(number: u32) -> Result<Class, Refusal> {
        match number {
            1 => Ok(Class::Single(Single::User)),
            2 => Ok(Class::Groups),
            3 => Ok(Class::Privileges),
            4 => Ok(Class::Single(Single::Owner)),
            5 => Ok(Class::Single(Single::PrimaryGroup)),
            6 => Ok(Class::Dacl),
            7 => Ok(Class::Single(Single::Type)),
            8 => Ok(Class::Single(Single::Level)),
            9 => Ok(Class::Statistics),
            10 => Ok(Class::Restricting),
            11 => Ok(Class::Single(Single::Scope)),
            12 => Ok(Class::Single(Single::Elevation)),
            13 => Ok(Class::Single(Single::Integrity)),
            _ => Err(Refusal::BadField),
        }
    }
}

// ---- the words of a row's lists

#[tactic(auto, using(crate::proofs::Classes::groups_read))]
pub(crate) fn groups(words: &[u64; TOKEN_WORDS]) -> &[u64]
    ensures { (map unpack result.now ≡ groups_at words.now) × (length result.now ≤ max_groups) }
{
    let n = row::count_in(words, GROUP_COUNT, MAX_GROUPS);
    &words[HEAD_WORDS..HEAD_WORDS + n]
}

#[tactic(auto, using(crate::proofs::Classes::restricting_read))]
pub(crate) fn restricting(words: &[u64; TOKEN_WORDS]) -> &[u64]
    ensures { (map low32 result.now ≡ (limits_at words.now).restricting) × (length result.now ≤ max_restricting) }
{
    let n = row::count_in(words, RESTRICTING_COUNT, MAX_RESTRICTING);
    &words[GROUPS_END..GROUPS_END + n]
}

// The success, and class 9.
pub(crate) fn statistics(words: &[u64; TOKEN_WORDS]) -> [u64; 6]
    ensures { result ≡ 0 ∷ statistics words.now }
{
    [
        0,
        words[NUMBER],
        words[SESSION],
        words[MODIFIED],
        words[KIND] % 256,
        words[ROOT],
    ]
}

// ---- the classes of one number

// A SID's index is 0 for the user, k for group k - 1.
#[tactic(auto, using(crate::proofs::Classes::sids))]
fn sid_at(words: &[u64; TOKEN_WORDS], index: u64) -> u64
    ensures { RowSid words.now index result }
{
    if index == 0 {
        return words[USER] % WORD_32;
    }
    match groups(words).get(index as usize - 1) {
        Some(w) => w % WORD_32,
        None => 0,
    }
}

#[tactic(auto, using(crate::proofs::Classes::ones), unfolding(rules::specs::Query::class_bytes, rules::specs::Query::classes, rules::specs::Memory::token_at, rules::specs::Memory::identity_at, rules::specs::Memory::defaults_at))]
pub fn one(words: &[u64; TOKEN_WORDS], class: Single) -> u64
    ensures { RowOne words.now (single_number class) result }
{
    match class {
        Single::User => words[USER] % WORD_32,
        Single::Owner => sid_at(words, words[OWNER] % WORD_32),
        Single::PrimaryGroup => sid_at(words, words[PRIMARY_GROUP] % WORD_32),
        Single::Type => words[KIND] % 256,
        Single::Level => words[LEVEL] % 256,
        Single::Scope => words[SCOPE] % WORD_32,
        Single::Elevation => words[ELEVATION] % 256,
        Single::Integrity => words[INTEGRITY] % WORD_32,
    }
}

// ---- how many bytes follow the status

// The numbers of groups.
#[tactic(auto, using(crate::proofs::Classes::pairs_few))]
fn pairs_size(groups: &[u64]) -> usize
    requires { length groups.now ≤ max_groups }
    ensures { (result ≡ sum_by pair_size groups.now) × (result ≤ 20 * max_groups) }
{
    groups
        .iter()
        .map(|w| number::size(w % WORD_32) + number::size(w / WORD_32))
        .sum()
}

// The numbers of restricting SIDs.
#[tactic(auto, using(crate::proofs::Classes::sids_few))]
fn sids_size(sids: &[u64]) -> usize
    requires { length sids.now ≤ max_restricting }
    ensures { (result ≡ sum_by sid_size sids.now) × (result ≤ 10 * max_restricting) }
{
    sids.iter().map(|w| number::size(w % WORD_32)).sum()
}

#[tactic(auto, using(crate::proofs::Classes::groups_counted))]
fn groups_size(words: &[u64; TOKEN_WORDS]) -> usize
    ensures { RowCounted words.now 2 result }
{
    let groups = groups(words);
    number::size(groups.len() as u64) + pairs_size(groups)
}

#[tactic(auto, using(crate::proofs::Classes::sids_counted))]
fn restricting_size(words: &[u64; TOKEN_WORDS]) -> usize
    ensures { RowCounted words.now 10 result }
{
    let sids = restricting(words);
    number::size(sids.len() as u64) + sids_size(sids)
}

#[tactic(auto, using(crate::proofs::Classes::counted_dacl))]
fn dacl_size(words: &[u64; TOKEN_WORDS]) -> usize
    ensures { RowCounted words.now 6 result }
{
    let n = row::count_in(words, DACL_COUNT, MAX_DACL);
    number::size(n as u64) + n
}

#[tactic(auto, using(crate::proofs::Classes::counts), unfolding(rules::specs::Query::class_bytes, rules::specs::Query::classes, rules::specs::Memory::token_at, rules::specs::Memory::identity_at))]
pub fn size(words: &[u64; TOKEN_WORDS], class: Class) -> usize
    ensures { RowCounted words.now (class_number class) result }
{
    match class {
        Class::Single(single) => number::size(one(words, single)),
        Class::Groups => groups_size(words),
        Class::Privileges => number::sizes(&words[PRESENT..GROUP_COUNT]),
        Class::Dacl => dacl_size(words),
        Class::Statistics => number::sizes(&statistics(words)[1..]),
        Class::Restricting => restricting_size(words),
    }
}
