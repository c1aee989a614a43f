// Feed with the handle list by value: what the call over the lent list wraps, and what the program uses.
#![tactic(auto)]

ghost use Rattle.std.specs.Prelude.{◌≡◌};
ghost use Rattle.handle.specs.Words.{records_in};
ghost use Rattle.calls.specs.Promise.{FeedsWith, fed_as};

use control::stations::Station;
use handle::Handles;
use start::CallRefusal;
use state::handles::Change;

mod accept;

// No answer is longer.
pub const MAX_ANSWER: usize = 1024;

// What the call for hosts returns: the refusal (0, or 11 to 13), the bytes used, the whole answer's length.
#[repr(C)]
#[derive(Clone, Copy)]
pub struct Fed {
    pub refusal: u32,
    pub used: usize,
    pub answered: usize,
}

// The bytes used, the whole answer's length, and the one handle that changes.
#[derive(Clone, Copy)]
pub struct Turn {
    pub used: usize,
    pub answered: usize,
    pub change: Option<Change>,
}

impl Fed {
    // A refused chunk is not used, and has no answer.
    pub fn of(turn: Result<Turn, CallRefusal>) -> Fed
        ensures { result ≡ fed_as turn }
    {
        match turn {
            Ok(turn) => Fed {
                refusal: 0,
                used: turn.used,
                answered: turn.answered,
            },
            Err(refusal) => Fed {
                refusal: refusal.number(),
                used: 0,
                answered: 0,
            },
        }
    }
}

pub fn feed(
    station: u32,
    chunk: &[u8],
    out: &mut [u8],
    tokens: &mut [u64],
    dacls: &mut [u8],
    count: usize,
    handles: Handles,
    control: &mut [u64],
    pending: &mut [u8],
) -> Result<Turn, CallRefusal>
    ensures { FeedsWith station chunk.now count (records_in handles.words) tokens.old dacls.old control.old pending.old out.old tokens.new dacls.new control.new pending.new out.new result }
{
    let Some(there) = Station::new(station) else {
        return Err(CallRefusal::NoStation);
    };
    if out.len() < MAX_ANSWER {
        return Err(CallRefusal::ShortBuffer);
    }
    if !valid::valid(tokens, dacls, count, &handles.words, control, pending) {
        return Err(CallRefusal::InvalidMemory);
    }
    let turn = accept::accept(
        tokens,
        dacls,
        &handles.words,
        control,
        pending,
        there,
        chunk,
        out,
    );
    Ok(turn)
}
