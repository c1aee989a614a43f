// Request 8: the default DACL, written in its row as it stands in a body.
ghost use Rattle.std.specs.Prelude.{◌≡◌, [], ◌+◌, ◌≤◌, length, take, drop};
ghost use Rattle.table.specs.Lists.{pad};
ghost use Rattle.rules.specs.Token.{max_dacl};
ghost use Rattle.rules.specs.Memory.{token_words};
ghost use Rattle.rules.specs.Request.{byte};
ghost use Rattle.body.specs.Layout.{values_at, There};
ghost use Rattle.adjust_defaults.specs.DefaultDacl.{DaclWritten};

use number::bytes_at;
use token::layout::DACL_COUNT;

// The bytes that stand at a place of a body, and then zeros.
#[tactic(auto, using(crate::proofs::DefaultDacl::stored))]
fn store(s: &[u8], at: usize, size: usize, out: &mut [u8])
    requires { (at + size ≤ length s.now) × (size ≤ max_dacl) × (length out.old ≡ max_dacl) }
    ensures { out.new ≡ pad max_dacl (take size (drop at s.now)) }
{
    out.fill(0);
    bytes_at(s, at, &mut out[..size]);
}

// The bytes from a place of a body on, to its end, are the DACL; its length is a word of the token's row.
#[tactic(auto, using(crate::proofs::DefaultDacl::bytes_there))]
pub fn write(s: &[u8], at: usize, size: usize, words: &mut [u64], dacl: &mut [u8])
    requires { (length words.old ≡ token_words) × (length dacl.old ≡ max_dacl) × (size ≤ max_dacl) × (at ≤ length s.now) × There byte s.now at size [] }
    ensures { DaclWritten (values_at byte s.now at size) words.old words.new dacl.new }
{
    words[DACL_COUNT] = size as u64;
    store(s, at, size, dacl);
}
