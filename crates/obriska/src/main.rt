// The program (document 01: 'a thin program'): chunks from standard input, each a station, a length and so many bytes; answers to standard output.
#![tactic(auto)]

ghost use Rattle.std.specs.Prelude.{◌≡◌, ◌≤◌, OnOk, is_ok, length};
ghost use Rattle.std.specs.Io.KnownBytes.{Appends};
ghost use Rattle.session.specs.Turns.{SameMemory, held};
ghost use Rattle.obriska.specs.Serving.{buffer_bytes, Ready, Steps, Serves, Within, Room, Refilled, Advances, Ends};

use calls::MAX_ANSWER;
use control::layout::CONTROL_WORDS;
use handle::{HANDLE_WORDS, Handles};
use session::input::Next;
use session::turn::Memory;
use session::{input, turn};
use std::io;
use std::io::{Read, Write};
use std::ops::ControlFlow;
use valid::layout::{DACLS, PENDING, TOKENS};

// The most chunks, so that the program ends.
const CHUNKS: u64 = 4294967295;

// The size of the input's buffer.
const BUFFER: usize = 65536;

// Where the bytes held begin and end in the input's buffer.
#[derive(Clone, Copy)]
struct Span {
    from: usize,
    end: usize,
}

impl Span {
    const EMPTY: Span = Span { from: 0, end: 0 };
}

// After a chunk or a read: how many chunks it was, where the bytes held are.
#[derive(Clone, Copy)]
struct Advanced {
    chunks: u64,
    span: Span,
}

// Writes an answer and flushes it, so that it is out before the next read.
fn write_answer<W: Write>(writer: &mut W, answer: &[u8]) -> io::Result<()>
    ensures { OnOk result (Appends (W.contents writer.old) (W.contents writer.new) answer.now) }
{
    writer.write_all(answer)?;
    writer.flush()
}

// Feeds a chunk once and writes the answer: how much of the chunk is used. A refused chunk is used up: it is skipped, and has no answer.
fn feed_once<W: Write>(
    writer: &mut W,
    station: u32,
    chunk: &[u8],
    answer: &mut [u8],
    memory: &mut Memory,
) -> io::Result<usize>
    ensures same { SameMemory memory.old memory.new }
    ensures steps { Steps station chunk.now (held memory.old) (held memory.new) (length answer.old) result }
{
    let fed = turn::feed(memory, station, chunk, answer);
    write_answer(writer, &answer[..fed.answered])?;
    if fed.refusal != 0 {
        return Ok(chunk.len());
    }
    Ok(fed.used)
}

// Feeds a chunk until it is used up, or an answer can't be written.
fn serve<W: Write>(
    writer: &mut W,
    station: u32,
    chunk: &[u8],
    answer: &mut [u8],
    memory: &mut Memory,
) -> io::Result<()>
    ensures same { SameMemory memory.old memory.new }
    ensures serves { Serves station chunk.now (held memory.old) (held memory.new) (length answer.old) (is_ok result) }
{
    let mut rest = chunk;
    while !rest.is_empty() {
        let used = feed_once(writer, station, rest, answer, memory)?;
        rest = &rest[used..];
    }
    Ok(())
}

// The bytes held move to the front of the buffer, and one read puts what is there behind them. Where they are then; none where the
// input has ended or the read failed.
fn refill<R: Read>(reader: &mut R, buffer: &mut [u8], span: Span) -> Option<Span>
    requires { Room span buffer.old }
    ensures { Refilled span buffer.old buffer.new result }
{
    let kept = input::keep(buffer, span.from, span.end);
    match reader.read(&mut buffer[kept..]) {
        Ok(0) | Err(_) => None,
        Ok(n) => Some(Span {
            from: 0,
            end: kept + n,
        }),
    }
}

// One chunk of the bytes held is served, or more are read where none is whole. It breaks off where the program stops.
fn advance<R: Read, W: Write>(
    reader: &mut R,
    writer: &mut W,
    buffer: &mut [u8],
    answer: &mut [u8],
    memory: &mut Memory,
    span: Span,
) -> ControlFlow<Advanced, Advanced>
    requires { Within span buffer.old × (length buffer.old ≡ buffer_bytes) }
    ensures same { SameMemory memory.old memory.new }
    ensures advances { Advances span buffer.old buffer.new (held memory.old) (held memory.new) (length answer.old) result }
{
    match input::next_chunk(&buffer[..span.end], span.from) {
        Next::Stop => ControlFlow::Break(Advanced { chunks: 0, span }),
        Next::More => match refill(reader, buffer, span) {
            Some(span) => ControlFlow::Continue(Advanced { chunks: 0, span }),
            None => ControlFlow::Break(Advanced {
                chunks: 0,
                span: Span::EMPTY,
            }),
        },
        Next::Chunk { station, at, size } => {
            let to = at + size;
            let span = Span { from: to, ..span };
            match serve(writer, station, &buffer[at..to], answer, memory) {
                Ok(()) => ControlFlow::Continue(Advanced { chunks: 1, span }),
                Err(_) => ControlFlow::Break(Advanced { chunks: 1, span }),
            }
        }
    }
}

// Chunk after chunk, until the input ends or is not what it should be, nothing more can be written, or the most are taken. How many chunks
// it took where it stopped before the most.
fn run<R: Read, W: Write>(
    reader: &mut R,
    writer: &mut W,
    buffer: &mut [u8],
    answer: &mut [u8],
    memory: &mut Memory,
) -> Option<u64>
    requires { Ready buffer.old answer.old (held memory.old) }
    ensures same { SameMemory memory.old memory.new }
    ensures ends { Ends buffer.old buffer.new (held memory.old) (held memory.new) result }
{
    let mut chunks: u64 = 0;
    let mut span = Span::EMPTY;
    // Not every turn takes a chunk, so that no `for` counts them.
    while chunks < CHUNKS {
        match advance(reader, writer, buffer, answer, memory, span) {
            ControlFlow::Continue(next) => {
                chunks += next.chunks;
                span = next.span;
            }
            ControlFlow::Break(last) => return Some(chunks + last.chunks),
        }
    }
    None
}

fn main(rt: HostRuntime) {
    let mut reader = rt.stdin();
    let mut writer = rt.stdout();
    let mut buffer = [0u8; BUFFER];
    let mut answer = [0u8; MAX_ANSWER];
    let mut memory = Memory {
        tokens: &mut [0u64; TOKENS],
        dacls: &mut [0u8; DACLS],
        handles: Handles {
            words: [0; HANDLE_WORDS],
        },
        control: &mut [0u64; CONTROL_WORDS],
        pending: &mut [0u8; PENDING],
    };
    turn::start(&mut memory);
    run(
        &mut reader,
        &mut writer,
        &mut buffer,
        &mut answer,
        &mut memory,
    );
}
