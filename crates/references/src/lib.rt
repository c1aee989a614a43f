// Part of the test of refusal 13: the handles' fields, all numbers given, what handles, stations and linked pairs refer to, and the pairs.
#![tactic(auto)]

ghost use Rattle.std.specs.Prelude.{◌≡◌, map, ◌+◌, take, drop};
ghost use Rattle.rules.specs.State.{token_slots, handle_slots, station_count};
ghost use Rattle.handle.specs.Meaning.{handle_of};
ghost use Rattle.handle.specs.Words.{records_in};
ghost use Rattle.lists.specs.Tests.{station_references, reference_slots};
ghost use Rattle.references.specs.Tests.{Room, numbers_test, links_test};

use clients::clients_valid;
use columns::{Given, first_word, numbers, other_word};
use control::layout::{CONTROL_WORDS, MAX_HANDLE, NEXT_HANDLE, NEXT_TOKEN, PAIRS, STATIONS};
use handle::{HANDLE_WORDS, SLOTS};
use handles::{Held, live};
use lists::numbers::{all_apart, all_given, refs_valid};
use pairs::pairs_valid;
use token::layout::TOKENS;

mod clients;
mod columns;
mod handles;
mod pairs;
mod rows;

// All that can refer to a token: handles, linked pairs by their two tokens, and stations, each by its primary token and by the one that it
// acts for.
pub const STATION_REFERENCES: usize = STATIONS + STATIONS;

pub const PAIR_REFERENCES: usize = PAIRS + PAIRS;

pub const REFERENCES: usize = SLOTS + PAIR_REFERENCES + STATION_REFERENCES;

// The next numbers are not 0 and of their type. Numbers given are distinct and below the next; the tokens of handles, pairs and stations
// live, and stations' own are primary; every token is referred to. `others` are the tokens that are not primary.
fn numbers_valid(given: Given, others: Given, held: Held, next_token: u64, next_handle: u64) -> bool
    requires { Room token_slots given.count given.numbers × Room token_slots others.count others.numbers × Room handle_slots held.count held.numbers × Room reference_slots (held.held + station_references) held.referred }
    ensures { result ≡ numbers_test (take given.count given.numbers) (take others.count others.numbers) (take held.count held.numbers) (take (held.held + station_references) held.referred) (take station_count (drop held.held held.referred)) next_token next_handle }
{
    let tokens = &given.numbers[..given.count];
    let apart = &others.numbers[..others.count];
    let handles = &held.numbers[..held.count];
    let referred = &held.referred[..held.held + STATION_REFERENCES];
    let primaries = &held.referred[held.held..held.held + STATIONS];
    ((1 <= next_token) & all_given(tokens, next_token))
        & ((1 <= next_handle) & all_given(handles, next_handle))
        & (next_handle <= MAX_HANDLE)
        & refs_valid(tokens, referred)
        & all_apart(apart, primaries)
}

// The handles' fields, all numbers, the tokens that stations act for, and the linked pairs.
pub fn links_valid(
    tokens: &[u64; TOKENS],
    handles: &[u64; HANDLE_WORDS],
    control: &[u64; CONTROL_WORDS],
) -> bool
    ensures { result ≡ links_test tokens.now (map handle_of (records_in handles.now)) control.now }
{
    let given = numbers(tokens, first_word);
    let others = numbers(tokens, other_word);
    let held = live(handles, control);
    let next_token = control[NEXT_TOKEN];
    let next_handle = control[NEXT_HANDLE];
    held.ok
        & numbers_valid(given, others, held, next_token, next_handle)
        & clients_valid(tokens, control)
        & pairs_valid(tokens, control)
}
