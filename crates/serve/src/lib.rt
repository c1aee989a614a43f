// A body is served: its request decided and carried out, its answer written.
#![tactic(auto)]

ghost use Rattle.std.specs.Prelude.{◌≡◌, ◌≤◌, length};
ghost use Rattle.rules.specs.Frame.{max_answer};
ghost use Rattle.handle.specs.Words.{records_in};
ghost use Rattle.state.specs.Parts.{SameParts};
ghost use Rattle.answer.specs.Answer.{answer_of, Fit, WroteFrame};
ghost use Rattle.decide.specs.Carried.{ended};
ghost use Rattle.serve.specs.Served.{Held, BodyCarried, BodyServed};

use answer::{Answer, Refusal};
use body::layout;
use control::stations::Station;
use decide::outcome::{Outcome, ends};
use state::handles::Change;
use state::parts::Parts;

// How many bytes the answer has, and the one handle that changes.
#[derive(Clone, Copy)]
pub struct Reply {
    pub written: usize,
    pub change: Option<Change>,
}

// The request of a body, carried out.
fn carry_out(parts: &mut Parts, station: Station, body: &[u8]) -> Result<Outcome, Refusal>
    ensures same { SameParts parts.old parts.new }
    ensures carried { BodyCarried station.number body.now parts.old parts.new result }
{
    let Some((number, rest)) = layout::request_number(body) else {
        return Err(Refusal::Malformed);
    };
    match number {
        1 => requests::open_own(parts, station, rest),
        2 => requests::close(parts, station, rest),
        3 => requests::create(parts, station, rest),
        4 => requests::query(parts, station, rest),
        5 => requests::privileges(parts, station, rest),
        6 => requests::groups(parts, station, rest),
        7 => requests::scope(parts, station, rest),
        8 => requests::defaults(parts, station, rest),
        9 => requests::duplicate(parts, station, rest),
        10 => requests::restrict(parts, station, rest),
        11 => requests::install(parts, station, rest),
        12 => requests::impersonate(parts, station, rest),
        13 => requests::revert(parts, station, rest),
        14 => requests::create_packed(parts, station, rest),
        15 => requests::restrict_packed(parts, station, rest),
        16 => requests::link(parts, station, rest),
        17 => requests::linked(parts, station, rest),
        18 => requests::evaluate(parts, station, rest),
        _ => Err(Refusal::Malformed),
    }
}

// A refusal is answered, and changes no handle.
fn ended(r: Result<Outcome, Refusal>) -> Outcome
    ensures { result ≡ ended r }
{
    match r {
        Ok(done) => done,
        Err(refusal) => ends(Answer::Refused(refusal)),
    }
}

fn write(parts: &Parts, a: Answer, out: &mut [u8]) -> usize
    requires { (max_answer ≤ length out.old) × Fit parts.now.tokens.now parts.now.dacls.now a }
    ensures { WroteFrame (answer_of parts.now.tokens.now parts.now.dacls.now a) out.old out.new result }
{
    answer::write(a, parts.tokens, parts.dacls, out)
}

pub fn serve(parts: &mut Parts, station: Station, body: &[u8], out: &mut [u8]) -> Reply
    requires { (max_answer ≤ length out.old) × Held parts.old.tokens.now parts.old.dacls.now (records_in parts.old.handles.now) parts.old.control.now }
    ensures same { SameParts parts.old parts.new }
    ensures served { BodyServed station.number body.now parts.old parts.new out.old out.new result }
{
    let Outcome { answer, change } = ended(carry_out(parts, station, body));
    let written = write(parts, answer, out);
    Reply { written, change }
}
