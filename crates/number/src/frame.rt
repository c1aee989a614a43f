// The answer's frame: the length of the body, then the body, which is numbers and then plain bytes.
ghost use Rattle.std.specs.Prelude.{◌≡◌, ◌++◌, ◌*◌, ◌≤◌, length, drop};
ghost use Rattle.rules.specs.Number.{encode_all};
ghost use Rattle.number.specs.Over.{Wrote};
ghost use Rattle.number.specs.Answer.{max_fields, max_plain, body, answered};

use crate::{size, write};
use table::slices::copy;

// How many bytes the fields take.
#[tactic(auto, using(crate::proofs::Fields::fields_few, crate::proofs::Fields::fields_sum))]
pub fn sizes(fields: &[u64]) -> usize
    requires { length fields.now ≤ max_fields }
    ensures { (result ≡ length (encode_all fields.now)) × (result ≤ 10 * max_fields) }
{
    fields.iter().map(|field| size(*field)).sum()
}

// Writes the fields one after the other at the start of out.
fn write_all(fields: &[u64], out: &mut [u8]) -> usize
    requires { length (encode_all fields.now) ≤ length out.old }
    ensures { Wrote (encode_all fields.now) out.old out.new result }
{
    let mut at = 0;
    for field in fields {
        at += write(*field, &mut out[at..]);
    }
    at
}

// Writes a body at the start of out.
#[tactic(auto, using(crate::proofs::Over::both, crate::proofs::Over::copied))]
fn write_body(fields: &[u64], plain: &[u8], out: &mut [u8]) -> usize
    requires { length (body fields.now plain.now) ≤ length out.old }
    ensures { Wrote (body fields.now plain.now) out.old out.new result }
{
    let at = write_all(fields, out);
    let end = at + plain.len();
    copy(plain, &mut out[at..end]);
    end
}

// Writes an answer's frame: the length, and the body into the part after it. The bytes after the frame stay.
pub fn answer(fields: &[u64], plain: &[u8], out: &mut [u8]) -> usize
    requires { (length fields.now ≤ max_fields) × (length plain.now ≤ max_plain) × (length (answered fields.now plain.now) ≤ length out.old) }
    ensures { (result ≡ length (answered fields.now plain.now)) × (out.new ≡ answered fields.now plain.now ++ drop (length (answered fields.now plain.now)) out.old) }
{
    let n = sizes(fields) + plain.len();
    let head = write(n as u64, out);
    head + write_body(fields, plain, &mut out[head..])
}
