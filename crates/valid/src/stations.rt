// The stations' rows (document 01: kept bytes are a proper part of a frame, and a broken stream keeps none; document 02: the level in force is
// 0 where a station acts for none).
ghost use Rattle.std.specs.Prelude.{◌≡◌};
ghost use Rattle.table.specs.Rows.{test_rows};
ghost use Rattle.rules.specs.Basic.{all};
ghost use Rattle.rules.specs.Frame.{framed};
ghost use Rattle.rules.specs.State.{station_count};
ghost use Rattle.rules.specs.Memory.{station_words, pending_bytes, stations_in};
ghost use Rattle.rules.specs.Valid.{is_part};
ghost use Rattle.valid.specs.Tests.{stream_test, level_test, station_test, idle_test};

use crate::layout::PENDING;
use control::layout::*;
use lists::words::zero_bytes;
use stream::{Framed, PENDING_BYTES, frame};

// A proper part of a frame.
fn is_part(s: &[u8]) -> bool
    ensures { result ≡ is_part (framed s.now) }
{
    matches!(frame::framed(s), Framed::Part)
}

// Nothing pending, or a proper part of a frame and no break; zeros past it.
fn stream_valid(words: &[u64; STATION_WORDS], bytes: &[u8; PENDING_BYTES]) -> bool
    ensures { result ≡ stream_test words.now bytes.now }
{
    let count = words[COUNT_WORD];
    let broken = words[BROKEN_WORD];
    if count == 0 {
        return (broken < 2) & zero_bytes(bytes);
    }
    if (PENDING_BYTES as u64) < count {
        return false;
    }
    let n = count as usize;
    (broken == 0) & is_part(&bytes[..n]) & zero_bytes(&bytes[n..])
}

// A level is in force only where the station acts for a token.
fn level_valid(words: &[u64; STATION_WORDS]) -> bool
    ensures { result ≡ level_test words.now }
{
    (words[CLIENT_WORD] != 0) | (words[LEVEL_WORD] == 0)
}

fn station_valid(words: &[u64; STATION_WORDS], bytes: &[u8; PENDING_BYTES]) -> bool
    ensures { result ≡ station_test words.now bytes.now }
{
    stream_valid(words, bytes) & level_valid(words)
}

// Nothing pending; a break or none; no level without a client.
fn is_idle(words: &[u64; STATION_WORDS]) -> bool
    ensures { result ≡ idle_test words.now }
{
    (words[COUNT_WORD] == 0) & (words[BROKEN_WORD] < 2) & level_valid(words)
}

fn all_idle(rows: &[[u64; STATION_WORDS]]) -> bool
    ensures { result ≡ all idle_test rows.now }
{
    let mut ok = true;
    for row in rows {
        ok &= is_idle(row);
    }
    ok
}

// Where all are idle, their bytes are tested in one loop.
pub fn stations_valid(control: &[u64; CONTROL_WORDS], pending: &[u8; PENDING]) -> bool
    ensures { result ≡ test_rows station_test station_words pending_bytes station_count (stations_in control.now) pending.now }
{
    let (rows, _) = control[STATIONS_AT..STATIONS_END].as_chunks::<STATION_WORDS>();
    if all_idle(rows) {
        return zero_bytes(pending);
    }
    let (parts, _) = pending.as_chunks::<PENDING_BYTES>();
    let mut ok = true;
    for (row, bytes) in rows.iter().zip(parts) {
        ok &= station_valid(row, bytes);
    }
    ok
}
