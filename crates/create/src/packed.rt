// Request 14: packed SIDs enter a copy of the SID table, and the groups of a new token are judged and entered in its row.
ghost use Rattle.std.specs.Prelude.{◌≡◌, true, drop, replicate};
ghost use Rattle.rules.specs.Sid.{is_packed};
ghost use Rattle.rules.specs.SidRows.{row_sid, sid_words_valid};
ghost use Rattle.rules.specs.Memory.{token_words};
ghost use Rattle.sid.specs.Finding.{Rowed};
ghost use Rattle.create.specs.PackedGroups.{judged_row, RowAt, NumberEntered, AttributesAt, PackedRead};

use crate::groups::{entered_word, valid_pair};
use answer::Refusal;
use number::{Number, U32, number_at};
use sid::layout::{ROW_WORDS, SIDS};
use sid::packed::{load, size_at};
use token::Group;
use token::layout::{HEAD_WORDS, MAX_GROUPS, TOKEN_WORDS};

#[tactic(auto, using(crate::proofs::PackedGroups::is_packed_lem))]
pub fn is_packed(s: &[u8], at: usize) -> bool
    ensures { result ≡ is_packed (drop at s.now) }
{
    size_at(s, at).is_some()
}

// The row of the packed SID at a place.
#[tactic(auto, using(crate::proofs::PackedGroups::row_loaded))]
pub fn row_at(s: &[u8], at: usize) -> [u64; ROW_WORDS]
    requires { is_packed (drop at s.now) ≡ true }
    ensures { RowAt s.now at result }
{
    load(s, at)
}

// The test of a pair asks of its SID only whether it is the user's.
#[tactic(auto, using(crate::proofs::PackedGroups::judged_by))]
fn judged(user: &[u64; ROW_WORDS], x: &[u64; ROW_WORDS], attributes: u32) -> bool
    ensures { result ≡ judged_row user.now x.now attributes }
{
    let sid = if user == x { 0 } else { 1 };
    valid_pair(0, Group { sid, attributes })
}

// The SID of a row enters: its number, None without room.
pub fn enter(x: &[u64; ROW_WORDS], sids: &mut [u64; SIDS]) -> Option<u32>
    requires { (sid_words_valid sids.old ≡ true) × Rowed x.now }
    ensures { NumberEntered (row_sid x.now) sids.old sids.new result }
{
    Some(given::enter(x, sids)? as u32)
}

// The attributes of the group at a place, behind its SID.
#[tactic(auto, using(crate::proofs::PackedGroups::no_size, crate::proofs::PackedGroups::size_room, crate::proofs::PackedGroups::attributes_there))]
fn attributes_at(s: &[u8], at: usize) -> Option<Number>
    ensures { AttributesAt s.now at result }
{
    let size = size_at(s, at)?;
    number_at(s, at + size, U32)
}

// The count groups that stand at a place of a body, entered in a row of zeros until one is bad. Without room their SIDs are still judged: a
// bad pair is refused first.
pub fn read_packed_groups(
    user: &[u64; ROW_WORDS],
    s: &[u8],
    at: usize,
    count: usize,
    words: &mut [u64; TOKEN_WORDS],
    sids: &mut [u64; SIDS],
) -> Result<(), Refusal>
    requires { (words.old ≡ replicate token_words 0) × (sid_words_valid sids.old ≡ true) }
    ensures { PackedRead user.now s.now at count sids.old words.new sids.new result }
{
    if MAX_GROUPS < count {
        return Err(Refusal::BadField);
    }
    let mut room = true;
    let mut from = at;
    for n in 0..count {
        let Some(Number { value, next }) = attributes_at(s, from) else {
            return Err(Refusal::BadField);
        };
        let attributes = value as u32;
        let x = row_at(s, from);
        if !judged(user, &x, attributes) {
            return Err(Refusal::BadField);
        }
        match enter(&x, sids) {
            Some(sid) => words[HEAD_WORDS + n] = entered_word(Group { sid, attributes }),
            None => room = false,
        }
        from = next;
    }
    if room {
        Ok(())
    } else {
        Err(Refusal::TableFull)
    }
}
