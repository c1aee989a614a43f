// Request 8: default owner, primary group and DACL.
ghost use Rattle.std.specs.Prelude.{◌≡◌, [], ◌≤◌, length};
ghost use Rattle.rules.specs.Request.{byte};
ghost use Rattle.rules.specs.AdjustDefaults as rules;
ghost use Rattle.state.specs.Parts.{SameParts};
ghost use Rattle.body.specs.Layout.{values_at, There};
ghost use Rattle.decide.specs.Carried.{CarriedOut};

use crate::default_fields;
use answer::{Answer, Refusal};
use body::fields::DefaultsFields;
use decide::located::located_by;
use decide::outcome;
use decide::outcome::Outcome;
use privilege::mask::Mask;
use state::parts::Parts;
use token::layout::{MAX_DACL, TOKEN_WORDS};

// The size bytes that stand at the end of a body are the DACL.
pub fn adjust_defaults(
    parts: &mut Parts,
    station: u32,
    f: DefaultsFields,
    s: &[u8],
) -> Result<Outcome, Refusal>
    requires { (f.at ≤ length s.now) × There byte s.now f.at f.size [] }
    ensures same { SameParts parts.old parts.new }
    ensures control { parts.new.control.now ≡ parts.old.control.now }
    ensures carried { CarriedOut (λ σ. rules.adjust σ station f.handle f.owner f.group f.flag (values_at byte s.now f.at f.size)) parts.old parts.new result }
{
    let slot = located_by(parts, station, f.handle, Mask::ADJUST_DEFAULT)?.slot;
    let row = slot * TOKEN_WORDS;
    let row_end = row + TOKEN_WORDS;
    let dacl = slot * MAX_DACL;
    let dacl_end = dacl + MAX_DACL;
    let tokens = &mut *parts.tokens;
    let dacls = &mut *parts.dacls;
    default_fields::adjust(f, s, &mut tokens[row..row_end], &mut dacls[dacl..dacl_end])?;
    Ok(outcome::ends(Answer::Done))
}
