// What a request answers, and the frame that it is written as.
#![tactic(auto)]

ghost use Rattle.std.specs.Prelude.{◌≡◌, true, [], ◌∷◌, ◌-◌, ◌≤◌, ◌<◌, length, replicate};
ghost use Rattle.rules.specs.Number.{encode_all};
ghost use Rattle.rules.specs.Frame.{max_answer};
ghost use Rattle.rules.specs.State.{token_slots};
ghost use Rattle.rules.specs.Memory.{token_at};
ghost use Rattle.rules.specs.Valid.{token_valid};
ghost use Rattle.rules.specs.AdjustGroups.{report_words};
ghost use Rattle.rules.specs.Query.{class_bytes};
ghost use Rattle.number.specs.Answer.{max_fields};
ghost use Rattle.answer.specs.Classes.{group_numbers, sid_numbers, privilege_words};
ghost use Rattle.answer.specs.Class.{class_number};
ghost use Rattle.answer.specs.Refusal.{refusal_of};
ghost use Rattle.answer.specs.Answer.{token_in, answer_of, Fit, Room, WroteFrame};

use class::Class;
use table::WORD_32;
use token::layout::*;
use token::row;

pub mod class;
mod refusal;

pub use refusal::Refusal;

// The status and request 6's sixteen words.
const REPORT: usize = 17;

// The status, a count and the pairs of all groups.
const MAX_NUMBERS: usize = 2 + 2 * MAX_GROUPS;

// The status, a count and all restricting SIDs.
const MAX_SIDS: usize = 2 + MAX_RESTRICTING;

#[derive(Clone, Copy, PartialEq, Eq, Debug)]
pub enum Answer {
    Refused(Refusal),
    // A refusal by its number, which is one byte.
    Numbered(u64),
    // Success, with nothing more.
    Done,
    // Success, with a new handle or request 12's level.
    Value(u64),
    // Success, with the two words of request 5's report, or with what request 13 gave up.
    Values(u64, u64),
    // Success, with the first of request 6's sixteen words; the others are 0, as no token has more than 64 groups.
    Report(u64),
    // Success, with a class of the token in a slot.
    Class { slot: usize, class: Class },
    // The same by the class's number: nothing more where there is none of that number.
    ClassNumbered { slot: usize, class: u64 },
}

// The frame of these numbers.
fn put_all(fields: &[u64], out: &mut [u8]) -> usize
    requires { (length fields.now ≤ max_fields) × Room (encode_all fields.now) out.old }
    ensures { WroteFrame (encode_all fields.now) out.old out.new result }
{
    number::answer(fields, &[], out)
}

// The frame of up to three numbers.
#[tactic(auto, using(crate::proofs::Answers::put_room))]
fn put(fields: &[u64], out: &mut [u8]) -> usize
    requires { (length fields.now ≤ 3) × (max_answer ≤ length out.old) }
    ensures { WroteFrame (encode_all fields.now) out.old out.new result }
{
    put_all(fields, out)
}

// A refusal's number, and what it tells.
fn put_refusal(r: Refusal, out: &mut [u8]) -> usize
    requires { max_answer ≤ length out.old }
    ensures { WroteFrame ((refusal_of r).number ∷ (refusal_of r).report) out.old out.new result }
{
    match r {
        Refusal::CapacityBelow(size) => put(&[r.number(), size], out),
        _ => put(&[r.number()], out),
    }
}

fn put_report(word: u64, out: &mut [u8]) -> usize
    requires { max_answer ≤ length out.old }
    ensures { WroteFrame (encode_all (0 ∷ word ∷ replicate (report_words - 1) 0)) out.old out.new result }
{
    let mut fields = [0u64; REPORT];
    fields[1] = word;
    put_all(&fields, out)
}

// ---- a class of a row

fn put_privileges(words: &[u64; TOKEN_WORDS], out: &mut [u8]) -> usize
    requires { Room (encode_all (0 ∷ privilege_words words.now)) out.old }
    ensures { WroteFrame (encode_all (0 ∷ privilege_words words.now)) out.old out.new result }
{
    let fields = [
        0,
        words[PRESENT],
        words[ENABLED],
        words[BY_DEFAULT],
        words[USED],
    ];
    put_all(&fields, out)
}

fn put_dacl(words: &[u64; TOKEN_WORDS], dacl: &[u8; MAX_DACL], out: &mut [u8]) -> usize
    requires { Room (0 ∷ class_bytes (token_at words.now dacl.now) 6) out.old }
    ensures { WroteFrame (0 ∷ class_bytes (token_at words.now dacl.now) 6) out.old out.new result }
{
    let n = row::count_in(words, DACL_COUNT, MAX_DACL);
    number::answer(&[0, n as u64], &dacl[..n], out)
}

fn put_groups(words: &[u64; TOKEN_WORDS], out: &mut [u8]) -> usize
    requires { Room (encode_all (0 ∷ group_numbers words.now)) out.old }
    ensures { WroteFrame (encode_all (0 ∷ group_numbers words.now)) out.old out.new result }
{
    let groups = class::groups(words);
    let mut fields = [0u64; MAX_NUMBERS];
    fields[1] = groups.len() as u64;
    for (i, w) in groups.iter().enumerate() {
        fields[2 * i + 2] = w % WORD_32;
        fields[2 * i + 3] = w / WORD_32;
    }
    put_all(&fields[..2 * groups.len() + 2], out)
}

fn put_sids(words: &[u64; TOKEN_WORDS], out: &mut [u8]) -> usize
    requires { Room (encode_all (0 ∷ sid_numbers words.now)) out.old }
    ensures { WroteFrame (encode_all (0 ∷ sid_numbers words.now)) out.old out.new result }
{
    let sids = class::restricting(words);
    let mut fields = [0u64; MAX_SIDS];
    fields[1] = sids.len() as u64;
    for (i, w) in sids.iter().enumerate() {
        fields[i + 2] = w % WORD_32;
    }
    put_all(&fields[..sids.len() + 2], out)
}

fn put_class(
    words: &[u64; TOKEN_WORDS],
    dacl: &[u8; MAX_DACL],
    class: Class,
    out: &mut [u8],
) -> usize
    requires { (max_answer ≤ length out.old) × Room (0 ∷ class_bytes (token_at words.now dacl.now) (class_number class)) out.old }
    ensures { WroteFrame (0 ∷ class_bytes (token_at words.now dacl.now) (class_number class)) out.old out.new result }
{
    match class {
        Class::Single(single) => put(&[0, class::one(words, single)], out),
        Class::Groups => put_groups(words, out),
        Class::Privileges => put_privileges(words, out),
        Class::Dacl => put_dacl(words, dacl, out),
        Class::Statistics => put_all(&class::statistics(words), out),
        Class::Restricting => put_sids(words, out),
    }
}

fn put_class_at(
    slot: usize,
    class: Class,
    tokens: &[u64; TOKENS],
    dacls: &[u8; DACLS],
    out: &mut [u8],
) -> usize
    requires { (max_answer ≤ length out.old) × (slot < token_slots) × (token_valid (token_in tokens.now dacls.now slot) ≡ true) }
    ensures { WroteFrame (0 ∷ class_bytes (token_in tokens.now dacls.now slot) (class_number class)) out.old out.new result }
{
    let (rows, _) = tokens.as_chunks::<TOKEN_WORDS>();
    let (dacls, _) = dacls.as_chunks::<MAX_DACL>();
    put_class(&rows[slot], &dacls[slot], class, out)
}

fn put_class_numbered(
    slot: usize,
    class: u64,
    tokens: &[u64; TOKENS],
    dacls: &[u8; DACLS],
    out: &mut [u8],
) -> usize
    requires { (max_answer ≤ length out.old) × (slot < token_slots) × (token_valid (token_in tokens.now dacls.now slot) ≡ true) }
    ensures { WroteFrame (0 ∷ class_bytes (token_in tokens.now dacls.now slot) class) out.old out.new result }
{
    if WORD_32 <= class {
        return put(&[0], out);
    }
    match Class::try_from(class as u32) {
        Ok(known) => put_class_at(slot, known, tokens, dacls, out),
        Err(_) => put(&[0], out),
    }
}

// Writes an answer at the start of out, and leaves the bytes after it.
pub fn write(a: Answer, tokens: &[u64; TOKENS], dacls: &[u8; DACLS], out: &mut [u8]) -> usize
    requires { (max_answer ≤ length out.old) × Fit tokens.now dacls.now a }
    ensures { WroteFrame (answer_of tokens.now dacls.now a) out.old out.new result }
{
    match a {
        Answer::Refused(r) => put_refusal(r, out),
        Answer::Numbered(n) => put(&[n], out),
        Answer::Done => put(&[0], out),
        Answer::Value(v) => put(&[0, v], out),
        Answer::Values(v, w) => put(&[0, v, w], out),
        Answer::Report(w) => put_report(w, out),
        Answer::Class { slot, class } => put_class_at(slot, class, tokens, dacls, out),
        Answer::ClassNumbered { slot, class } => {
            put_class_numbered(slot, class, tokens, dacls, out)
        }
    }
}
