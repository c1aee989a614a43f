// Request 15: the copy's restricting SIDs, from the source's and the numbers of those given.
ghost use Rattle.std.specs.Prelude.{◌≡◌, ◌≤◌, ◌<◌};
ghost use Rattle.rules.specs.Token.{max_restricting};
ghost use Rattle.rules.specs.State.{token_slots};
ghost use Rattle.restrict_packed.specs.Kept.{stays_by, ListMade};

use crate::gathered::NUMBERS;
use copy::restricting::{Sids, kept};
use token::layout::TOKENS;

// One of a restricted source's SIDs stays: it is given too, or none is given.
fn stays(sid: u64, count: u64, marks: &[bool; NUMBERS]) -> bool
    ensures { result ≡ stays_by count marks.now sid }
{
    count == 0 || (sid < NUMBERS as u64 && marks[sid as usize])
}

// The list of a copy of the token in a slot, which has `own` restricting SIDs; `given` lists the count numbers given, where all had room.
// copy's own lists those that stand in a body: the two are alike in `kept` alone.
#[tactic(auto, using(crate::proofs::Keeping::lists_given, crate::proofs::Keeping::lists_kept))]
pub fn list_of(
    tokens: &[u64; TOKENS],
    slot: usize,
    own: u64,
    count: u64,
    given: Option<Sids>,
    marks: &[bool; NUMBERS],
) -> Sids
    requires { (slot < token_slots) × (own ≤ max_restricting) }
    ensures { ListMade slot own tokens.now count given marks.now result }
{
    if own != 0 {
        return kept(tokens, slot, own, |sid| stays(sid, count, marks));
    }
    // Without room, only how many there are is asked for.
    given.unwrap_or(Sids::unlisted(count))
}
