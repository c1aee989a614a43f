// The calls of `broker` for C (include/obriska.h): each is exported under its own name and states its clauses again.
#![tactic(auto)]

ghost use Rattle.std.specs.Prelude.{◌≡◌};
ghost use Rattle.rules.specs.Index.{found_index};
ghost use Rattle.rules.specs.Handle.{is_handle};
ghost use Rattle.handle.specs.Meaning.{slots_of};
ghost use Rattle.handle.specs.Loaded.{loaded};
ghost use Rattle.valid.specs.Meaning.{memory_of};
ghost use Rattle.control.specs.Sids.{SidWritten};
ghost use Rattle.broker.specs.Edition.{version, layout};
ghost use Rattle.start.specs.Promise.{StartPromise, ReconnectPromise};
ghost use Rattle.calls.specs.Promise.{FeedPromise};

use calls::Fed;
use handle::Handle;

#[unsafe(no_mangle)]
pub extern "C" fn obriska_start(
    tokens: &mut [u64],
    dacls: &mut [u8],
    handles: &mut [Handle],
    control: &mut [u64],
    pending: &mut [u8],
) -> u32
    ensures { StartPromise (memory_of tokens.old dacls.old handles.old control.old pending.old) (memory_of tokens.new dacls.new handles.new control.new pending.new) result }
{
    broker::obriska_start(tokens, dacls, handles, control, pending)
}

#[unsafe(no_mangle)]
pub extern "C" fn obriska_feed(
    station: u32,
    chunk: &[u8],
    answer: &mut [u8],
    tokens: &mut [u64],
    dacls: &mut [u8],
    handles: &mut [Handle],
    control: &mut [u64],
    pending: &mut [u8],
) -> Fed
    ensures { FeedPromise (memory_of tokens.old dacls.old handles.old control.old pending.old) station chunk.now answer.old (memory_of tokens.new dacls.new handles.new control.new pending.new) answer.new result }
{
    broker::obriska_feed(
        station, chunk, answer, tokens, dacls, handles, control, pending,
    )
}

#[unsafe(no_mangle)]
pub extern "C" fn obriska_reconnect(
    station: u32,
    tokens: &[u64],
    dacls: &[u8],
    handles: &[Handle],
    control: &mut [u64],
    pending: &mut [u8],
) -> u32
    ensures { ReconnectPromise (memory_of tokens.now dacls.now handles.now control.old pending.old) station (memory_of tokens.now dacls.now handles.now control.new pending.new) result }
{
    broker::obriska_reconnect(station, tokens, dacls, handles, control, pending)
}

#[unsafe(no_mangle)]
pub extern "C" fn obriska_find(handles: &[Handle], station: u32, number: u32) -> usize
    ensures { result ≡ found_index (is_handle station number) (slots_of (loaded handles.now)) }
{
    broker::obriska_find(handles, station, number)
}

#[unsafe(no_mangle)]
pub extern "C" fn obriska_sid(control: &[u64], number: u32, out: &mut [u8]) -> usize
    ensures { SidWritten control.now number out.old out.new result }
{
    broker::obriska_sid(control, number, out)
}

#[unsafe(no_mangle)]
pub extern "C" fn obriska_version() -> u32
    ensures { result ≡ version }
{
    broker::obriska_version()
}

#[unsafe(no_mangle)]
pub extern "C" fn obriska_layout() -> u32
    ensures { result ≡ layout }
{
    broker::obriska_layout()
}
