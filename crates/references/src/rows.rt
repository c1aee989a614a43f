// The rows of the tokens' table and of the control words' sections.
ghost use Rattle.std.specs.Prelude.{◌≡◌};
ghost use Rattle.std.specs.Simd.{first_chunks};
ghost use Rattle.rules.specs.State.{token_slots, station_count, pair_slots};
ghost use Rattle.rules.specs.Memory.{token_words, station_words, pair_words, stations_in, pairs_in};

use control::layout::{
    CONTROL_WORDS, PAIR_WORDS, PAIRS_AT, PAIRS_END, STATION_WORDS, STATIONS_AT, STATIONS_END,
};
use token::layout::{TOKEN_WORDS, TOKENS};

pub fn token_rows(tokens: &[u64; TOKENS]) -> &[[u64; TOKEN_WORDS]]
    ensures { result.now ≡ first_chunks token_words token_slots tokens.now }
{
    tokens.as_chunks::<TOKEN_WORDS>().0
}

pub fn station_rows(control: &[u64; CONTROL_WORDS]) -> &[[u64; STATION_WORDS]]
    ensures { result.now ≡ first_chunks station_words station_count (stations_in control.now) }
{
    control[STATIONS_AT..STATIONS_END]
        .as_chunks::<STATION_WORDS>()
        .0
}

pub fn pair_rows(control: &[u64; CONTROL_WORDS]) -> &[[u64; PAIR_WORDS]]
    ensures { result.now ≡ first_chunks pair_words pair_slots (pairs_in control.now) }
{
    control[PAIRS_AT..PAIRS_END].as_chunks::<PAIR_WORDS>().0
}
