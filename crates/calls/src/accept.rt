// A chunk on valid memory: its bytes up to the end of the first request or break, or all.
ghost use Rattle.std.specs.Prelude.{◌≡◌, true, [], ◌∷◌, ◌*◌, ◌≤◌, length};
ghost use Rattle.rules.specs.Frame.{max_answer};
ghost use Rattle.rules.specs.Refusal.{stream_broken};
ghost use Rattle.rules.specs.Memory as Memory;
ghost use Rattle.rules.specs.Memory.{pending_bytes};
ghost use Rattle.control.specs.Stations.{StreamGiven};
ghost use Rattle.handle.specs.Words.{records_in};
ghost use Rattle.state.specs.Parts.{SameParts};
ghost use Rattle.valid.specs.Meaning.{memory_of};
ghost use Rattle.answer.specs.Answer.{WroteFrame};
ghost use Rattle.serve.specs.Served.{Held};
ghost use Rattle.calls.specs.Accepted.{quiet, PartKept, BrokenOff, FrameServed, RowHeld, RowFed, Accepted};

use crate::Turn;
use answer::{Answer, Refusal};
use control::layout::CONTROL_WORDS;
use control::stations;
use control::stations::{Station, Stream};
use handle::HANDLE_WORDS;
use state::parts::Parts;
use stream::{Framed, PENDING_BYTES};
use table::slices::whole;
use valid::layout::{DACLS, PENDING, TOKENS};

// No answer, and no handle changes.
fn unanswered(used: usize) -> Turn
    ensures { result ≡ quiet used }
{
    Turn {
        used,
        answered: 0,
        change: None,
    }
}

fn stream_of(parts: &Parts, station: Station) -> Stream
    ensures { StreamGiven station.number parts.now.control.now result }
{
    stations::stream_of(station, parts.control)
}

// The first count bytes of the row are a part of a frame: they stay pending.
fn keep(parts: &mut Parts, station: Station, count: usize, used: usize) -> Turn
    ensures same { SameParts parts.old parts.new }
    ensures tokens { parts.new.tokens.now ≡ parts.old.tokens.now }
    ensures dacls { parts.new.dacls.now ≡ parts.old.dacls.now }
    ensures kept { PartKept station.number count used parts.old.control.now parts.new.control.now result }
{
    stations::set_stream(station, count, false, parts.control);
    unanswered(used)
}

// The answer to a break, the frame 01 0A.
fn answer_break(parts: &Parts, out: &mut [u8]) -> usize
    requires { max_answer ≤ length out.old }
    ensures { WroteFrame (stream_broken ∷ []) out.old out.new result }
{
    answer::write(
        Answer::Refused(Refusal::StreamBroken),
        parts.tokens,
        parts.dacls,
        out,
    )
}

// Nothing is pending any more, and the break is answered once.
fn break_off(
    parts: &mut Parts,
    station: Station,
    count: usize,
    used: usize,
    row: &mut [u8],
    out: &mut [u8],
) -> Turn
    requires { (count ≤ length row.old) × (max_answer ≤ length out.old) }
    ensures same { SameParts parts.old parts.new }
    ensures tokens { parts.new.tokens.now ≡ parts.old.tokens.now }
    ensures dacls { parts.new.dacls.now ≡ parts.old.dacls.now }
    ensures broken { BrokenOff station.number count used parts.old.control.now row.old out.old parts.new.control.now row.new out.new result }
{
    stream::clear(row, count);
    stations::set_stream(station, 0, true, parts.control);
    Turn {
        used,
        answered: answer_break(parts, out),
        change: None,
    }
}

// The first count bytes of the row are a frame, whose body begins at start: nothing is pending any more, and the body is served.
fn serve_frame(
    parts: &mut Parts,
    station: Station,
    start: usize,
    count: usize,
    used: usize,
    row: &mut [u8],
    out: &mut [u8],
) -> Turn
    requires { (max_answer ≤ length out.old) × Held parts.old.tokens.now parts.old.dacls.now (records_in parts.old.handles.now) parts.old.control.now × (start ≤ count) × (count ≤ length row.old) }
    ensures same { SameParts parts.old parts.new }
    ensures served { FrameServed station.number start count used parts.old.tokens.now parts.old.dacls.now (records_in parts.old.handles.now) parts.old.control.now row.old out.old parts.new.tokens.now parts.new.dacls.now parts.new.control.now row.new out.new result }
{
    stations::set_stream(station, 0, false, parts.control);
    let reply = serve::serve(parts, station, &row[start..count], out);
    stream::clear(row, count);
    Turn {
        used,
        answered: reply.written,
        change: reply.change,
    }
}

// The row is the station's pending bytes.
fn accept_row(
    parts: &mut Parts,
    station: Station,
    chunk: &[u8],
    row: &mut [u8],
    out: &mut [u8],
) -> Turn
    requires { (max_answer ≤ length out.old) × (length row.old ≡ pending_bytes) × RowHeld station.number parts.old.tokens.now parts.old.dacls.now (records_in parts.old.handles.now) parts.old.control.now row.old }
    ensures same { SameParts parts.old parts.new }
    ensures fed { RowFed station.number chunk.now parts.old.tokens.now parts.old.dacls.now (records_in parts.old.handles.now) parts.old.control.now row.old out.old parts.new.tokens.now parts.new.dacls.now parts.new.control.now row.new out.new result }
{
    let before = stream_of(parts, station);
    if before.broken {
        return unanswered(chunk.len());
    }
    let stop = stream::join(chunk, row, before.count);
    let used = stop.used;
    let count = stop.count;
    match stop.what {
        Framed::Part => keep(parts, station, count, used),
        Framed::Broken => break_off(parts, station, count, used, row, out),
        Framed::Whole { start } => serve_frame(parts, station, start, count, used, row, out),
    }
}

// The lent parts are arrays from here on.
fn accept_parts(
    tokens: &mut [u64; TOKENS],
    dacls: &mut [u8; DACLS],
    handles: &[u64; HANDLE_WORDS],
    control: &mut [u64; CONTROL_WORDS],
    pending: &mut [u8; PENDING],
    station: Station,
    chunk: &[u8],
    out: &mut [u8],
) -> Turn
    requires { (Memory.valid (memory_of tokens.old dacls.old (records_in handles.now) control.old pending.old) ≡ true) × (max_answer ≤ length out.old) }
    ensures { Accepted station.number chunk.now tokens.old dacls.old (records_in handles.now) control.old pending.old out.old tokens.new dacls.new control.new pending.new out.new result }
{
    let mut parts = Parts {
        handles,
        tokens,
        dacls,
        control,
    };
    let at = station.number as usize * PENDING_BYTES;
    let end = at + PENDING_BYTES;
    accept_row(&mut parts, station, chunk, &mut pending[at..end], out)
}

pub fn accept(
    tokens: &mut [u64],
    dacls: &mut [u8],
    handles: &[u64; HANDLE_WORDS],
    control: &mut [u64],
    pending: &mut [u8],
    station: Station,
    chunk: &[u8],
    out: &mut [u8],
) -> Turn
    requires { (Memory.valid (memory_of tokens.old dacls.old (records_in handles.now) control.old pending.old) ≡ true) × (max_answer ≤ length out.old) }
    ensures { Accepted station.number chunk.now tokens.old dacls.old (records_in handles.now) control.old pending.old out.old tokens.new dacls.new control.new pending.new out.new result }
{
    accept_parts(
        whole(tokens),
        whole(dacls),
        handles,
        whole(control),
        whole(pending),
        station,
        chunk,
        out,
    )
}
