// The stations' rows, word by word.
ghost use Rattle.std.specs.Prelude.{◌≡◌, ◌<◌, ◌≤◌, set, MatchOption};
ghost use Rattle.rules.specs.State.{station_count};
ghost use Rattle.rules.specs.Memory.{station_words, station_word_at};
ghost use Rattle.control.specs.Stations.{WordGiven, CallerNumber, TokenSet, ClientGiven, ClientSet, StationsHave, StationsRefer, StreamGiven, StreamSet};

use crate::layout::*;

// A station that is there: its number.
#[derive(Clone, Copy, PartialEq, Eq)]
pub struct Station {
    pub number: u32,
    ghost known: { number < station_count },
}

impl Station {
    // The station of a number, where there is one.
    pub fn new(number: u32) -> Option<Station>
        ensures { MatchOption result (station_count ≤ number) (λ s. (s.number ≡ number) × (number < station_count)) }
    {
        if (number as usize) < STATIONS {
            Some(Station { number })
        } else {
            None
        }
    }
}

// The token that a station acts for and the level in force: 0 and 0 where there is none, as the rule that it meets (`client_at`) says.
#[derive(Clone, Copy)]
pub struct Client {
    pub token: u64,
    pub level: u64,
}

// How many bytes are pending, and whether the stream is broken: two words of the layout, of which neither tells the other in any memory.
#[derive(Clone, Copy)]
pub struct Stream {
    pub count: usize,
    pub broken: bool,
}

fn word_at(station: Station, word: usize) -> usize
    requires { word < station_words }
    ensures { result ≡ station_word_at station.number word }
{
    STATIONS_AT + (station.number as usize * STATION_WORDS + word)
}

fn word(station: Station, word: usize, control: &[u64; CONTROL_WORDS]) -> u64
    requires { (word < station_words) }
    ensures { WordGiven station.number word control.now result }
{
    let at = word_at(station, word);
    control[at]
}

fn set_word(station: Station, word: usize, value: u64, control: &mut [u64; CONTROL_WORDS])
    requires { (word < station_words) }
    ensures { control.new ≡ set control.old (station_word_at station.number word) value }
{
    let at = word_at(station, word);
    control[at] = value;
}

// ---- the primary token

// The number of a station's primary token.
pub fn caller_number(station: Station, control: &[u64; CONTROL_WORDS]) -> u64
    ensures { CallerNumber station.number control.now result }
{
    word(station, PRIMARY_WORD, control)
}

// The station gets another primary token.
pub fn set_token(station: Station, number: u64, control: &mut [u64; CONTROL_WORDS])
    ensures { TokenSet station.number number control.old control.new }
{
    set_word(station, PRIMARY_WORD, number, control);
}

// ---- the token that a station acts for

pub fn client_of(station: Station, control: &[u64; CONTROL_WORDS]) -> Client
    ensures { ClientGiven station.number control.now result }
{
    let token = word(station, CLIENT_WORD, control);
    let level = word(station, LEVEL_WORD, control);
    Client { token, level }
}

pub fn set_client(station: Station, token: u64, level: u64, control: &mut [u64; CONTROL_WORDS])
    ensures { ClientSet station.number token level control.old control.new }
{
    set_word(station, CLIENT_WORD, token, control);
    set_word(station, LEVEL_WORD, level, control);
}

// ---- references

// Some station's row has the number in this word.
fn have(number: u64, at: usize, control: &[u64; CONTROL_WORDS]) -> bool
    requires { (at < station_words) }
    ensures { StationsHave number at control.now result }
{
    let mut found = false;
    for i in 0..STATIONS as u32 {
        found = found | (number == word(Station { number: i }, at, control));
    }
    found
}

// Some station's primary token is this one, or the one that it acts for. 0 is no token.
pub fn refers(token: u64, control: &[u64; CONTROL_WORDS]) -> bool
    ensures { StationsRefer token control.now result }
{
    let primary = have(token, PRIMARY_WORD, control);
    let client = have(token, CLIENT_WORD, control);
    primary | ((token != 0) & client)
}

// ---- the stream

fn count_in(word: u64) -> usize
    ensures { result ≡ word }
{
    word as usize
}

pub fn stream_of(station: Station, control: &[u64; CONTROL_WORDS]) -> Stream
    ensures { StreamGiven station.number control.now result }
{
    let count = word(station, COUNT_WORD, control);
    let broken = word(station, BROKEN_WORD, control);
    Stream {
        count: count_in(count),
        broken: broken == 1,
    }
}

pub fn set_stream(station: Station, count: usize, broken: bool, control: &mut [u64; CONTROL_WORDS])
    ensures { StreamSet station.number count broken control.old control.new }
{
    set_word(station, COUNT_WORD, count as u64, control);
    set_word(station, BROKEN_WORD, broken as u64, control);
}
