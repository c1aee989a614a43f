// The linked pairs' rows. A place is free where its row names no elevated token.
ghost use Rattle.std.specs.Prelude.{◌≡◌, ◌<◌, set};
ghost use Rattle.rules.specs.Pair.{is_of, has};
ghost use Rattle.rules.specs.State.{pair_slots};
ghost use Rattle.rules.specs.Memory.{pair_words, pair_word_at};
ghost use Rattle.handle.specs.First.{FirstOf};
ghost use Rattle.control.specs.Pairs.{row_in, PairFound, PlaceFree, PlaceGiven, RowGiven, PairSet, PairsRefer};

use crate::layout::*;

// A place's row, as it stands there.
#[derive(Clone, Copy)]
pub struct Pair {
    pub session: u64,
    pub elevated: u64,
    pub filtered: u64,
}

fn word_at(place: usize, word: usize) -> usize
    requires { (place < pair_slots) × (word < pair_words) }
    ensures { result ≡ pair_word_at place word }
{
    PAIRS_AT + (place * PAIR_WORDS + word)
}

fn set_word(place: usize, word: usize, value: u64, control: &mut [u64; CONTROL_WORDS])
    requires { (place < pair_slots) × (word < pair_words) }
    ensures { control.new ≡ set control.old (pair_word_at place word) value }
{
    let at = word_at(place, word);
    control[at] = value;
}

pub fn row(place: usize, control: &[u64; CONTROL_WORDS]) -> Pair
    requires { (place < pair_slots) }
    ensures { RowGiven place control.now result }
{
    Pair {
        session: control[word_at(place, SESSION_WORD)],
        elevated: control[word_at(place, ELEVATED_WORD)],
        filtered: control[word_at(place, FILTERED_WORD)],
    }
}

// ---- looking

// The first place whose row passes.
fn position<F: Fn(Pair) -> bool>(control: &[u64; CONTROL_WORDS], passes: F) -> Option<usize>
    requires callable { F.IsAlwaysCallable passes }
    ensures { FirstOf (λ k. F.post passes (row_in control.now k)) pair_slots result }
{
    for place in 0..PAIRS {
        if passes(row(place, control)) {
            return Some(place);
        }
    }
    None
}

// The place of the session's pair.
fn place_of(session: u64, control: &[u64; CONTROL_WORDS]) -> Option<usize>
    ensures { PairFound (is_of session) control.now result }
{
    position(control, |p| (p.elevated != 0) & (p.session == session))
}

// The place of the pair that the token is in.
pub fn place_with(token: u64, control: &[u64; CONTROL_WORDS]) -> Option<usize>
    ensures { PairFound (has token) control.now result }
{
    position(
        control,
        |p| (p.elevated != 0) & ((p.elevated == token) | (p.filtered == token)),
    )
}

// The lowest free place.
fn free_place(control: &[u64; CONTROL_WORDS]) -> Option<usize>
    ensures { PlaceFree control.now result }
{
    position(control, |p| p.elevated == 0)
}

// Where the session's pair goes: the place of its old one, else the lowest free one.
pub fn place_for(session: u64, control: &[u64; CONTROL_WORDS]) -> Option<usize>
    ensures { PlaceGiven session control.now result }
{
    let place = place_of(session, control);
    place.or_else(|| free_place(control))
}

// ---- storing

pub fn set_pair(place: usize, pair: Pair, control: &mut [u64; CONTROL_WORDS])
    requires { (place < pair_slots) }
    ensures { PairSet place pair control.old control.new }
{
    set_word(place, SESSION_WORD, pair.session, control);
    set_word(place, ELEVATED_WORD, pair.elevated, control);
    set_word(place, FILTERED_WORD, pair.filtered, control);
}

// ---- references

// Some pair has the token.
pub fn refer(token: u64, control: &[u64; CONTROL_WORDS]) -> bool
    ensures { PairsRefer token control.now result }
{
    place_with(token, control).is_some()
}
