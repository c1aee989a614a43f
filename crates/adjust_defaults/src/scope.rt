// Request 7: scope.
ghost use Rattle.std.specs.Prelude.{◌≡◌, length};
ghost use Rattle.rules.specs.Memory.{token_words};
ghost use Rattle.rules.specs.AdjustScope as rules;
ghost use Rattle.state.specs.Parts.{WordsAlone};
ghost use Rattle.state.specs.TokenCalls.{WordsChanged};
ghost use Rattle.token.specs.Row.{Becomes};
ghost use Rattle.decide.specs.Carried.{CarriedOut};
ghost use Rattle.adjust_defaults.specs.Scope.{ScopeApplied};

use answer::{Answer, Refusal};
use body::fields::ScopeFields;
use control::stations::Station;
use decide::lookup::looked_up;
use decide::outcome;
use decide::outcome::Outcome;
use privilege::mask::Mask;
use privilege::privileges::Privileges;
use state::parts::Parts;
use token::layout::TOKEN_WORDS;
use token::row;

#[tactic(auto, using(crate::proofs::ScopeEnding::rescoped))]
fn rescope(value: u32, words: &mut [u64])
    requires { length words.old ≡ token_words }
    ensures { Becomes (rules.scoped_token value) words.old words.new }
{
    row::set_scope(words, value);
    row::step_modified(words);
}

// The token of that number gets another scope.
#[tactic(auto, using(crate::proofs::ScopeEnding::scope_set, crate::proofs::ScopeEnding::scope_nowhere))]
fn set_scope(parts: &mut Parts, token: u64, value: u32)
    ensures alone { WordsAlone parts.old parts.new }
    ensures changed { WordsChanged token (rules.scoped_token value) parts.old.tokens.now parts.new.tokens.now }
{
    if let Some(slot) = parts.slot_of(token) {
        let at = slot * TOKEN_WORDS;
        let end = at + TOKEN_WORDS;
        let tokens = &mut *parts.tokens;
        rescope(value, &mut tokens[at..end]);
    }
}

// The effect: the caller's token used TCB, then the token of that number, which may be the same, gets the scope.
#[tactic(auto, using(crate::proofs::ScopeEnding::scope_applied))]
fn apply(parts: &mut Parts, station: Station, token: u64, value: u32)
    ensures alone { WordsAlone parts.old parts.new }
    ensures applied { ScopeApplied station.number token value parts.old.tokens.now parts.old.control.now parts.new.tokens.now }
{
    parts.used(Privileges::TCB, station);
    set_scope(parts, token, value);
}

pub fn scope(parts: &mut Parts, station: Station, f: ScopeFields) -> Result<Outcome, Refusal>
    ensures alone { WordsAlone parts.old parts.new }
    ensures carried { CarriedOut (λ σ. rules.scope σ station.number f.handle f.value) parts.old parts.new result }
{
    let handle = looked_up(parts, station.number, f.handle, Mask::ADJUST_SCOPE)?;
    if !parts.held(Privileges::TCB, station) {
        return Err(Refusal::PrivilegeNotHeld);
    }
    apply(parts, station, handle.token, f.value);
    Ok(outcome::ends(Answer::Done))
}
