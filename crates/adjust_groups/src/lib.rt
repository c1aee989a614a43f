// Request 6: a token's groups are changed in its row.
#![tactic(auto)]

ghost use Rattle.std.specs.Prelude.{◌≡◌, length, drop};
ghost use Rattle.rules.specs.Memory.{token_words};
ghost use Rattle.rules.specs.AdjustGroups.{adjust};
ghost use Rattle.state.specs.Parts.{WordsAlone};
ghost use Rattle.decide.specs.EntriesCarried.{EntriesCarriedOut};
ghost use Rattle.adjust_groups.specs.GroupEntries.{RowSwitched};

use answer::{Answer, Refusal};
use body::fields::EntriesFields;
use decide::located::located_by;
use decide::outcome;
use decide::outcome::Outcome;
use privilege::mask::Mask;
use state::parts::Parts;
use token::layout::{GROUP_COUNT, HEAD_WORDS, MAX_GROUPS, TOKEN_WORDS};
use token::row;

mod group_entries;
mod group_words;

// The count entries that stand at a place of a body, on the token in a row.
#[tactic(auto, using(crate::proofs::GroupsEnding::row_switched))]
fn adjust_row(s: &[u8], at: usize, count: u32, words: &mut [u64]) -> Result<Answer, Refusal>
    requires { length words.old ≡ token_words }
    ensures { RowSwitched count (drop at s.now) words.old words.new result }
{
    let identity = row::identity_in(words);
    let end = HEAD_WORDS + row::count_in(words, GROUP_COUNT, MAX_GROUPS);
    let previous = group_entries::adjust(identity.user, s, at, count, &mut words[HEAD_WORDS..end])?;
    row::step_modified(words);
    Ok(Answer::Report(previous))
}

pub fn adjust_groups(
    parts: &mut Parts,
    station: u32,
    f: EntriesFields,
    s: &[u8],
) -> Result<Outcome, Refusal>
    ensures alone { WordsAlone parts.old parts.new }
    ensures carried { EntriesCarriedOut adjust station f.handle s.now f.at f.count parts.old parts.new result }
{
    let x = located_by(parts, station, f.handle, Mask::ADJUST_GROUPS)?;
    let from = x.slot * TOKEN_WORDS;
    let end = from + TOKEN_WORDS;
    let tokens = &mut *parts.tokens;
    let answer = adjust_row(s, f.at, f.count, &mut tokens[from..end])?;
    Ok(outcome::ends(answer))
}
