// Request 15: the packed SIDs of a body enter a copy of the SID table, in their order.
ghost use Rattle.std.specs.Prelude.{◌≡◌, true, false, ◌<◌, IfSome, drop, replicate};
ghost use Rattle.rules.specs.Number.{max64};
ghost use Rattle.rules.specs.Sid.{is_packed};
ghost use Rattle.restrict_packed.specs.Gathered.{numbers_end, RowAt, Marked, Noted, PackedGathered};

use copy::restricting::Sids;
use given::enter;
use sid::layout::{ROW_WORDS, SIDS};
use sid::packed::{load, size_at};
use sid::valid::table_valid;

// The numbers of a full table are below it.
pub const NUMBERS: usize = 286;

// The row of the packed SID at a place.
fn row_at(s: &[u8], at: usize) -> [u64; ROW_WORDS]
    requires { is_packed (drop at s.now) ≡ true }
    ensures { RowAt s.now at result }
{
    load(s, at)
}

// No number of a table is past the marks.
#[tactic(auto, using(crate::proofs::Gathering::marks_it, crate::proofs::Gathering::marks_none))]
fn mark(n: u64, marks: &mut [bool; NUMBERS])
    ensures { Marked n marks.old marks.new }
{
    if n < NUMBERS as u64 {
        marks[n as usize] = true;
    }
}

// One that entered, by its number: it is marked and listed. No list, where it or one before it had no room.
#[tactic(auto, using(crate::proofs::Gathering::notes_none, crate::proofs::Gathering::notes_lost, crate::proofs::Gathering::notes_it))]
fn note(list: Option<Sids>, entered: Option<u64>, marks: &mut [bool; NUMBERS]) -> Option<Sids>
    requires { IfSome list (λ l. l.count < max64) }
    ensures { Noted list entered marks.old marks.new result }
{
    let number = entered?;
    mark(number, marks);
    let mut list = list?;
    list.push(number);
    Some(list)
}

// The count SIDs at a place: each number that is given is marked. The list of their numbers, where all had room.
pub fn gather(
    s: &[u8],
    at: usize,
    count: u64,
    sids: &mut [u64; SIDS],
    marks: &mut [bool; NUMBERS],
) -> Option<Sids>
    requires { marks.old ≡ replicate numbers_end false }
    ensures { PackedGathered s.now at count sids.old sids.new marks.new result }
{
    // It is, where the memory is in order: no SID is looked up in a table that is not.
    if !table_valid(sids) {
        return Some(Sids::unlisted(count));
    }
    let mut list = Some(Sids::NONE);
    let mut from = at;
    for _ in 0..count {
        let size = size_at(s, from)?;
        let row = row_at(s, from);
        list = note(list, enter(&row, sids), marks);
        from += size;
    }
    list
}
