// A station's stream: its pending bytes in their row, and what a chunk does to them. It knows nothing of requests.
#![tactic(auto)]

ghost use Rattle.std.specs.Prelude.{◌≡◌, ◌++◌, ◌≤◌, ◌<◌, length, drop, replicate};
ghost use Rattle.rules.specs.Memory.{pending_bytes};
ghost use Rattle.stream.specs.Meaning.{JoinedAtOnce, Joined};

pub mod frame;

use frame::{MAX_BODY, framed, sure};
use table::slices::copy;

// A row of pending bytes: a frame's two length bytes and its body.
pub const PENDING_BYTES: usize = MAX_BODY + 2;

// What the first bytes of a stream come to: a part of a frame, a break, or a whole frame, whose body begins at start. Three ways: no Option or Result.
#[derive(Clone, Copy)]
pub enum Framed {
    Part,
    Broken,
    Whole { start: usize },
}

// Where a chunk stopped: how many of its bytes were used, how many are now pending, and what these come to.
#[derive(Clone, Copy)]
pub struct Stopped {
    pub used: usize,
    pub count: usize,
    pub what: Framed,
}

// The bytes of a chunk, but for its last one, join at once while the pending ones stay a part of a frame for sure. Answers how many.
#[tactic(auto, using(crate::proofs::Joining::ends_within))]
fn join_at_once(chunk: &[u8], row: &mut [u8], count: usize) -> usize
    requires { (1 ≤ length chunk.now) × (length row.old ≡ pending_bytes) × (count < pending_bytes) }
    ensures { JoinedAtOnce chunk.now row.old count row.new result }
{
    let k = sure(&row[..count]).min(chunk.len() - 1);
    copy(&chunk[..k], &mut row[count..count + k]);
    k
}

// The bytes of a chunk join the pending ones until a frame is whole, the stream breaks or the chunk ends.
#[tactic(auto, using(crate::proofs::Joining::chunk_ends))]
pub fn join(chunk: &[u8], row: &mut [u8], count: usize) -> Stopped
    requires { (length row.old ≡ pending_bytes) × (count < pending_bytes) }
    ensures { Joined chunk.now row.old count row.new result }
{
    let mut n = count;
    let mut i: usize = 0;
    // A turn takes several bytes, so i is no counter that goes up by one.
    while i < chunk.len() {
        let k = join_at_once(&chunk[i..], row, n);
        n += k;
        i += k;
        row[n] = chunk[i];
        n += 1;
        i += 1;
        let what = framed(&row[..n]);
        let Framed::Part = what else {
            return Stopped {
                used: i,
                count: n,
                what,
            };
        };
    }
    Stopped {
        used: i,
        count: n,
        what: Framed::Part,
    }
}

// Nothing is pending: the first count bytes become zero.
pub fn clear(row: &mut [u8], count: usize)
    requires { count ≤ length row.old }
    ensures { row.new ≡ replicate count 0 ++ drop count row.old }
{
    row[..count].fill(0);
}
