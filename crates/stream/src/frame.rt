// What pending bytes come to, by their one or two length bytes and how many they are.
ghost use Rattle.std.specs.Prelude.{◌≡◌, ◌||◌, eqb, leb, ltb, length};
ghost use Rattle.rules.specs.Frame.{max_body};
ghost use Rattle.stream.specs.Join.{Sure};
ghost use Rattle.stream.specs.Meaning.{Announced, FramedAs};

use crate::Framed;

// The largest body.
pub const MAX_BODY: usize = 2048;

// What the first bytes say of the body's length: nothing yet, that no length is valid, or the length, and where the body begins.
// Three answers: no Option or Result.
#[derive(Clone, Copy)]
enum Length {
    Unread,
    Invalid,
    Known { start: usize, size: usize },
}

// No length of a body: the second byte b is not the last of a shortest form, or the length n is too large.
fn invalid(b: usize, n: usize) -> bool
    ensures { result ≡ (eqb b 0 || leb 128 b || ltb max_body n) }
{
    (b == 0) | (128 <= b) | (MAX_BODY < n)
}

// What pending bytes say of the body's length.
#[tactic(auto, using(crate::proofs::Framing::lengths))]
fn announced(pending: &[u8]) -> Length
    ensures { Announced pending.now (length pending.now) result }
{
    let Some(first) = pending.first() else {
        return Length::Unread;
    };
    let a = usize::from(*first);
    if a == 0 {
        return Length::Invalid;
    }
    if a < 128 {
        return Length::Known { start: 1, size: a };
    }
    let Some(second) = pending.get(1) else {
        return Length::Unread;
    };
    let b = usize::from(*second);
    let n = a - 128 + 128 * b;
    if invalid(b, n) {
        return Length::Invalid;
    }
    Length::Known { start: 2, size: n }
}

// What pending bytes come to.
#[tactic(auto, using(crate::proofs::Framing::framings))]
pub fn framed(pending: &[u8]) -> Framed
    ensures { FramedAs pending.now (length pending.now) result }
{
    match announced(pending) {
        Length::Unread => Framed::Part,
        Length::Invalid => Framed::Broken,
        Length::Known { start, size } => {
            if pending.len() - start < size {
                Framed::Part
            } else {
                Framed::Whole { start }
            }
        }
    }
}

// How many bytes may follow pending ones, whatever they are, and leave a part of a frame: all that are missing but one.
#[tactic(auto, using(crate::proofs::Framing::sure_some))]
pub fn sure(pending: &[u8]) -> usize
    ensures { Sure pending.now result }
{
    match announced(pending) {
        Length::Unread | Length::Invalid => 0,
        Length::Known { start, size } => {
            let here = pending.len() - start;
            if here < size { size - here - 1 } else { 0 }
        }
    }
}
