// Request 5: a token's privileges are changed in its row.
#![tactic(auto)]

ghost use Rattle.std.specs.Prelude.{◌≡◌, length, drop};
ghost use Rattle.rules.specs.Memory.{token_words};
ghost use Rattle.rules.specs.Request.{times, entry};
ghost use Rattle.rules.specs.AdjustPrivileges.{adjust};
ghost use Rattle.state.specs.Parts.{WordsAlone};
ghost use Rattle.decide.specs.Ending.{RowEnds, told};
ghost use Rattle.decide.specs.EntriesCarried.{EntriesCarriedOut};
ghost use Rattle.adjust_privileges.specs.PrivilegeEntries.{privileges_ending};

use answer::{Answer, Refusal};
use body::fields::EntriesFields;
use decide::located::located_by;
use decide::outcome;
use decide::outcome::Outcome;
use privilege::mask::Mask;
use state::parts::Parts;
use token::layout::TOKEN_WORDS;
use token::row;

mod privilege_entries;

// The count entries that stand at a place of a body, on the token in a row.
#[tactic(auto, using(crate::proofs::PrivilegesEnding::bad_entry, crate::proofs::PrivilegesEnding::adjusts))]
fn adjust_row(s: &[u8], at: usize, count: u32, words: &mut [u64]) -> Result<Answer, Refusal>
    requires { length words.old ≡ token_words }
    ensures { RowEnds (privileges_ending (times count entry (drop at s.now))) words.old words.new (told result) }
{
    let before = row::privileges_in(words);
    let Some(adjusted) = privilege_entries::adjust(before, s, at, count) else {
        return Err(Refusal::BadField);
    };
    row::set_privileges(words, adjusted.privileges);
    row::step_modified(words);
    Ok(Answer::Values(adjusted.was_present, adjusted.was_enabled))
}

pub fn adjust_privileges(
    parts: &mut Parts,
    station: u32,
    f: EntriesFields,
    s: &[u8],
) -> Result<Outcome, Refusal>
    ensures alone { WordsAlone parts.old parts.new }
    ensures carried { EntriesCarriedOut adjust station f.handle s.now f.at f.count parts.old parts.new result }
{
    let x = located_by(parts, station, f.handle, Mask::ADJUST_PRIVILEGES)?;
    let from = x.slot * TOKEN_WORDS;
    let end = from + TOKEN_WORDS;
    let tokens = &mut *parts.tokens;
    let answer = adjust_row(s, f.at, f.count, &mut tokens[from..end])?;
    Ok(outcome::ends(answer))
}
