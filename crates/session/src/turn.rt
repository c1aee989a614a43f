// The broker's calls over memory that the program holds.
ghost use Rattle.std.specs.Prelude.{◌≡◌};
ghost use Rattle.handle.specs.Words.{records_in};
ghost use Rattle.state.specs.HandleFacts.{changed};
ghost use Rattle.calls.specs.Promise.{change_of};
ghost use Rattle.session.specs.Turns.{SameMemory, held, Starts, Turns};

use calls::{Fed, Turn};
use handle::{HANDLE_WORDS, Handles, SLOTS};
use start::CallRefusal;

// The lent parts, and the handles by value.
#[derive(Drop)]
pub struct Memory<'a> {
    pub tokens: &'a mut [u64],
    pub dacls: &'a mut [u8],
    pub handles: Handles,
    pub control: &'a mut [u64],
    pub pending: &'a mut [u8],
}

// The start's memory.
pub fn start(memory: &mut Memory)
    ensures same { SameMemory memory.old memory.new }
    ensures starts { Starts memory.old memory.new }
{
    memory.handles = Handles {
        words: [0; HANDLE_WORDS],
    };
    let _ = start::start(
        memory.tokens,
        memory.dacls,
        SLOTS,
        memory.control,
        memory.pending,
    );
}

// The handles after a feed: the one that changed stands in its slot.
fn changed(handles: Handles, turn: Result<Turn, CallRefusal>) -> Handles
    ensures { records_in result.words ≡ changed (records_in handles.words) (change_of turn) }
{
    match turn {
        Ok(
            Turn {
                change: Some(change),
                ..
            },
        ) => handle::place(handles, change.slot, change.handle),
        _ => handles,
    }
}

// One feed of a station's chunk.
pub fn feed(memory: &mut Memory, station: u32, chunk: &[u8], out: &mut [u8]) -> Fed
    ensures same { SameMemory memory.old memory.new }
    ensures turns { Turns station chunk.now (held memory.old) (held memory.new) out.old out.new result }
{
    let turn = calls::feed(
        station,
        chunk,
        out,
        memory.tokens,
        memory.dacls,
        SLOTS,
        memory.handles,
        memory.control,
        memory.pending,
    );
    memory.handles = changed(memory.handles, turn);
    Fed::of(turn)
}
