// The tokens that stations act for (document 02: impersonation tokens, whose own level is at least the level in force). That they live is tested
// with all references.
ghost use Rattle.std.specs.Prelude.{◌≡◌};
ghost use Rattle.rules.specs.Memory.{stations_in};
ghost use Rattle.references.specs.Tests.{fit_test, all_fit, client_test, clients_test};

use crate::rows::{station_rows, token_rows};
use control::layout::{CLIENT_WORD, CONTROL_WORDS, LEVEL_WORD, STATION_WORDS};
use token::layout::{KIND, LEVEL, NUMBER, TOKEN_WORDS, TOKENS};
use token_rows::IMPERSONATION;

// A token's row is of another token than `client`, or fits the level in force.
fn fits(client: u64, level: u64, row: &[u64; TOKEN_WORDS]) -> bool
    ensures { result ≡ fit_test client level row.now }
{
    (client != row[NUMBER]) | ((row[KIND] % 256 == IMPERSONATION) & (level <= row[LEVEL] % 256))
}

fn all_fit(client: u64, level: u64, tokens: &[u64; TOKENS]) -> bool
    ensures { result ≡ all_fit client level tokens.now }
{
    let mut ok = true;
    for row in token_rows(tokens) {
        ok &= fits(client, level, row);
    }
    ok
}

// A station that acts for none, as most do, looks at no token.
fn client_valid(tokens: &[u64; TOKENS], row: &[u64; STATION_WORDS]) -> bool
    ensures { result ≡ client_test tokens.now row.now }
{
    let client = row[CLIENT_WORD];
    client == 0 || all_fit(client, row[LEVEL_WORD], tokens)
}

pub fn clients_valid(tokens: &[u64; TOKENS], control: &[u64; CONTROL_WORDS]) -> bool
    ensures { result ≡ clients_test tokens.now (stations_in control.now) }
{
    let mut ok = true;
    for row in station_rows(control) {
        ok &= client_valid(tokens, row);
    }
    ok
}
