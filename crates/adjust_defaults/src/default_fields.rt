// Request 8: the fields judged against a token's row, and written there.
ghost use Rattle.std.specs.Prelude.{◌≡◌, [], ◌≤◌, length};
ghost use Rattle.rules.specs.Token.{max_dacl};
ghost use Rattle.rules.specs.Memory.{token_words};
ghost use Rattle.rules.specs.Request.{byte};
ghost use Rattle.rules.specs.AdjustDefaults.{or_kept};
ghost use Rattle.token.specs.Row.{Becomes};
ghost use Rattle.body.specs.Layout.{values_at, There};
ghost use Rattle.adjust_defaults.specs.Defaults.{OwnerJudged, DefaultsJudged, with_indexes, DefaultsSet, defaults_ending, FieldsEnd};

use crate::default_dacl;
use answer::Refusal;
use body::fields::DefaultsFields;
use token::layout::{GROUP_COUNT, HEAD_WORDS, MAX_DACL, MAX_GROUPS, OWNER, PRIMARY_GROUP};
use token::{Group, row};

// The rule's number for an index that stays: an Option made of it would be taken apart at once, where it is judged and where it is set.
const NO_CHANGE: u32 = 0xFFFF;

// An owner index names the user or an OWNER group.
#[tactic(auto, using(crate::proofs::DefaultFields::owners))]
fn is_owner(words: &[u64], i: u32) -> bool
    requires { length words.now ≡ token_words }
    ensures { OwnerJudged i words.now result }
{
    if i == 0 {
        return true;
    }
    let k = i as usize - 1;
    k < row::count_in(words, GROUP_COUNT, MAX_GROUPS)
        && Group::from(words[HEAD_WORDS + k]).is_owner()
}

// A primary-group index names the user or any group. Flag 0 goes with no bytes, flag 1 with at most 256.
#[tactic(auto, using(crate::proofs::DefaultFields::judges))]
fn is_valid(words: &[u64], f: DefaultsFields) -> bool
    requires { length words.now ≡ token_words }
    ensures { DefaultsJudged f.owner f.group f.flag f.size words.now result }
{
    ((f.owner == NO_CHANGE) | is_owner(words, f.owner))
        & ((f.group == NO_CHANGE) | (f.group as u64 <= words[GROUP_COUNT]))
        & ((f.flag == 0) & (f.size == 0) | (f.flag == 1) & (f.size <= MAX_DACL as u32))
}

#[tactic(auto, unfolding(rules::specs::AdjustDefaults::or_kept))]
fn or_kept(new: u32, old: u64) -> u64
    ensures { result ≡ or_kept new old }
{
    if new == NO_CHANGE { old } else { new as u64 }
}

#[tactic(auto, using(crate::proofs::DefaultFields::indexes_set))]
fn set_indexes(owner: u32, group: u32, words: &mut [u64])
    requires { length words.old ≡ token_words }
    ensures { Becomes (with_indexes owner group) words.old words.new }
{
    words[OWNER] = or_kept(owner, words[OWNER]);
    words[PRIMARY_GROUP] = or_kept(group, words[PRIMARY_GROUP]);
}

// Flag 1 gives a DACL, and flag 0 keeps it.
fn set(f: DefaultsFields, s: &[u8], words: &mut [u64], bytes: &mut [u8])
    requires { (length words.old ≡ token_words) × (length bytes.old ≡ max_dacl) × (f.size ≤ max_dacl) × (f.at ≤ length s.now) × There byte s.now f.at f.size [] }
    ensures { DefaultsSet f.owner f.group f.flag (values_at byte s.now f.at f.size) words.old bytes.old words.new bytes.new }
{
    set_indexes(f.owner, f.group, words);
    row::step_modified(words);
    if f.flag == 1 {
        default_dacl::write(s, f.at, f.size as usize, words, bytes);
    }
}

// With flag 1 the last bytes of the body are the DACL. The fields say where, so both are passed on: a type of both would be made for this alone.
#[tactic(auto, using(crate::proofs::DefaultFields::dacl_fits, crate::proofs::DefaultFields::made_none, crate::proofs::DefaultFields::made_so, crate::proofs::DefaultDacl::there_long))]
pub fn adjust(
    f: DefaultsFields,
    s: &[u8],
    words: &mut [u64],
    bytes: &mut [u8],
) -> Result<(), Refusal>
    requires { (length words.old ≡ token_words) × (length bytes.old ≡ max_dacl) × (f.at ≤ length s.now) × There byte s.now f.at f.size [] }
    ensures { FieldsEnd (defaults_ending f.owner f.group f.flag (values_at byte s.now f.at f.size)) words.old bytes.old words.new bytes.new result }
{
    if !is_valid(words, f) {
        return Err(Refusal::BadField);
    }
    set(f, s, words, bytes);
    Ok(())
}
