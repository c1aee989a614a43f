// What requests that make a token end with: the token, and a handle on it.
ghost use Rattle.handle.specs.Words.{records_in};
ghost use Rattle.state.specs.Parts.{SameParts};
ghost use Rattle.decide.specs.Issue.{NumbersLeft, IssueRoom, RowIssued};

use crate::outcome::Outcome;
use answer::Answer;
use control::stations::Station;
use state::parts::Parts;
use token::layout::{MAX_DACL, NUMBER, TOKEN_WORDS};

// Both tables have a free slot and a number left.
pub fn can_issue(parts: &Parts) -> bool
    ensures { IssueRoom parts.now.tokens.now (records_in parts.now.handles.now) parts.now.control.now result }
{
    let handle = parts.can_add_handle();
    let token = parts.can_add_token();
    handle & token
}

// A new token by its rows, and a handle on it.
pub fn issue_row(
    parts: &mut Parts,
    station: Station,
    mask: u16,
    words: &[u64; TOKEN_WORDS],
    bytes: &[u8; MAX_DACL],
) -> Outcome
    requires { NumbersLeft parts.old.control.now }
    ensures same { SameParts parts.old parts.new }
    ensures issued { RowIssued station.number mask words.now bytes.now parts.old.tokens.now parts.old.dacls.now (records_in parts.old.handles.now) parts.old.control.now parts.new.tokens.now parts.new.dacls.now parts.new.control.now result }
{
    parts.add_row(words, bytes);
    let change = parts.add_handle(station, words[NUMBER], mask);
    Outcome {
        answer: Answer::Value(change.handle.number as u64),
        change: Some(change),
    }
}
