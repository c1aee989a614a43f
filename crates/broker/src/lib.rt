// The broker: start, feed and reconnect over the memory that a host lends. No call asks anything of its input.
#![tactic(auto)]

ghost use Rattle.std.specs.Prelude.{◌≡◌};
ghost use Rattle.rules.specs.Index.{found_index};
ghost use Rattle.rules.specs.Handle.{is_handle};
ghost use Rattle.handle.specs.Meaning.{slots_of};
ghost use Rattle.handle.specs.Loaded.{loaded};
ghost use Rattle.valid.specs.Meaning.{memory_of};
ghost use Rattle.control.specs.Sids.{SidWritten};
ghost use Rattle.broker.specs.Edition.{version, layout};
ghost use Rattle.broker.specs.Noted.{Noted};
ghost use Rattle.start.specs.Promise.{StartPromise, ReconnectPromise};
ghost use Rattle.calls.specs.Promise.{FeedPromise};

use calls::Fed;
use control::sids;
use handle::{Handle, SLOTS, list};
use state::handles::Change;

// The start's memory, over any memory of the right sizes; else 13.
pub fn obriska_start(
    tokens: &mut [u64],
    dacls: &mut [u8],
    handles: &mut [Handle],
    control: &mut [u64],
    pending: &mut [u8],
) -> u32
    ensures { StartPromise (memory_of tokens.old dacls.old handles.old control.old pending.old) (memory_of tokens.new dacls.new handles.new control.new pending.new) result }
{
    match start::start(tokens, dacls, handles.len(), control, pending) {
        Ok(()) => {
            list::clear_first(handles, SLOTS);
            0
        }
        Err(refusal) => refusal.number(),
    }
}

// A changed handle stands in its slot; one of number 0 frees it.
fn note(handles: &mut [Handle], change: Option<Change>)
    ensures { Noted change handles.old handles.new }
{
    if let Some(change) = change {
        if change.handle.number == 0 {
            list::clear(handles, change.slot);
        } else {
            list::place(handles, change.slot, change.handle);
        }
    }
}

// A station's chunk: its bytes up to the end of the first request or break, or all.
pub fn obriska_feed(
    station: u32,
    chunk: &[u8],
    answer: &mut [u8],
    tokens: &mut [u64],
    dacls: &mut [u8],
    handles: &mut [Handle],
    control: &mut [u64],
    pending: &mut [u8],
) -> Fed
    ensures { FeedPromise (memory_of tokens.old dacls.old handles.old control.old pending.old) station chunk.now answer.old (memory_of tokens.new dacls.new handles.new control.new pending.new) answer.new result }
{
    let count = handles.len();
    let held = list::load(handles);
    let turn = calls::feed(
        station, chunk, answer, tokens, dacls, count, held, control, pending,
    );
    if let Ok(turn) = turn {
        note(handles, turn.change);
    }
    Fed::of(turn)
}

// A station's part request and its break are dropped.
pub fn obriska_reconnect(
    station: u32,
    tokens: &[u64],
    dacls: &[u8],
    handles: &[Handle],
    control: &mut [u64],
    pending: &mut [u8],
) -> u32
    ensures { ReconnectPromise (memory_of tokens.now dacls.now handles.now control.old pending.old) station (memory_of tokens.now dacls.now handles.now control.new pending.new) result }
{
    let held = list::load(handles);
    match start::reconnect(
        station,
        tokens,
        dacls,
        handles.len(),
        held,
        control,
        pending,
    ) {
        Ok(()) => 0,
        Err(refusal) => refusal.number(),
    }
}

// The slot of a station's live handle of that number, front to back among the first 32; 32 if there is none. It changes nothing.
pub fn obriska_find(handles: &[Handle], station: u32, number: u32) -> usize
    ensures { result ≡ found_index (is_handle station number) (slots_of (loaded handles.now)) }
{
    list::find(handles, station, number).unwrap_or(SLOTS)
}

// The packed form of the SID that has a number in the SID table, and its size; 0, and nothing written, where there is none or no room for
// it. It tests nothing else of the memory.
pub fn obriska_sid(control: &[u64], number: u32, out: &mut [u8]) -> usize
    ensures { SidWritten control.now number out.old out.new result }
{
    sids::write(control, number, out).unwrap_or(0)
}

// The edition that is linked: major, minor and patch, a byte each.
pub fn obriska_version() -> u32
    ensures { result ≡ version }
{
    0x000200
}

// The layout of the lent memory that it takes.
pub fn obriska_layout() -> u32
    ensures { result ≡ layout }
{
    6
}
