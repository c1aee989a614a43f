// The linked pairs (document 02: a free place is zero, pairs are of different sessions, and a pair's tokens are Full and Limited, primary, of
// its session and of one user).
ghost use Rattle.std.specs.Prelude.{◌≡◌, []};
ghost use Rattle.rules.specs.Basic.{distinct};
ghost use Rattle.rules.specs.Link.{is_of_session};
ghost use Rattle.rules.specs.Valid.{pair_fits};
ghost use Rattle.rules.specs.Memory.{token_at, session_word, pairs_in};
ghost use Rattle.references.specs.Tests.{token_named, pair_column, pair_test, places_test, pairs_test};

use crate::columns::add_pairs;
use crate::rows::{pair_rows, token_rows};
use control::layout::{
    CONTROL_WORDS, ELEVATED_WORD, FILTERED_WORD, PAIR_WORDS, PAIRS, SESSION_WORD,
};
use lists::numbers::all_once;
use table::WORD_32;
use token::layout::{ELEVATION, FULL, KIND, LIMITED, SESSION, TOKEN_WORDS, TOKENS, USER};
use token::slots::find;
use token_rows::PRIMARY;

// A primary token of the session.
fn is_of_session(session: u64, row: &[u64; TOKEN_WORDS]) -> bool
    ensures { result ≡ is_of_session session (token_at row.now []) }
{
    (row[KIND] % 256 == PRIMARY) & (row[SESSION] == session)
}

fn rows_fit(session: u64, elevated: &[u64; TOKEN_WORDS], filtered: &[u64; TOKEN_WORDS]) -> bool
    ensures { result ≡ pair_fits session (token_at elevated.now []) (token_at filtered.now []) }
{
    (elevated[ELEVATION] % 256 == FULL)
        & is_of_session(session, elevated)
        & (filtered[ELEVATION] % 256 == LIMITED)
        & is_of_session(session, filtered)
        & (elevated[USER] % WORD_32 == filtered[USER] % WORD_32)
}

// Both tokens live and fit.
fn tokens_fit(tokens: &[u64; TOKENS], session: u64, elevated: u64, filtered: u64) -> bool
    ensures { result ≡ pair_fits session (token_named tokens.now elevated) (token_named tokens.now filtered) }
{
    let Some(e) = find(tokens, elevated) else {
        return false;
    };
    let Some(f) = find(tokens, filtered) else {
        return false;
    };
    let rows = token_rows(tokens);
    rows_fit(session, &rows[e], &rows[f])
}

// A place's row. A free place looks at no token.
fn place_valid(tokens: &[u64; TOKENS], row: &[u64; PAIR_WORDS]) -> bool
    ensures { result ≡ pair_test tokens.now row.now }
{
    if row[ELEVATED_WORD] == 0 {
        return (row[SESSION_WORD] == 0) & (row[FILTERED_WORD] == 0);
    }
    tokens_fit(
        tokens,
        row[SESSION_WORD],
        row[ELEVATED_WORD],
        row[FILTERED_WORD],
    )
}

fn places_valid(tokens: &[u64; TOKENS], control: &[u64; CONTROL_WORDS]) -> bool
    ensures { result ≡ places_test tokens.now (pairs_in control.now) }
{
    let mut ok = true;
    for row in pair_rows(control) {
        ok &= place_valid(tokens, row);
    }
    ok
}

// No session has two pairs.
fn sessions_valid(control: &[u64; CONTROL_WORDS]) -> bool
    ensures { result ≡ distinct (pair_column session_word (pairs_in control.now)) }
{
    let mut sessions = [0u64; PAIRS];
    let n = add_pairs(&mut sessions, 0, SESSION_WORD, control);
    all_once(&sessions[0..n])
}

pub fn pairs_valid(tokens: &[u64; TOKENS], control: &[u64; CONTROL_WORDS]) -> bool
    ensures { result ≡ pairs_test tokens.now (pairs_in control.now) }
{
    places_valid(tokens, control) & sessions_valid(control)
}
