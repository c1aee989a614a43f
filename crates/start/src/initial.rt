// The start's memory (document 01: 'Start: token 1 ..').
ghost use Rattle.valid.specs.Meaning.{Lent};
ghost use Rattle.start.specs.Initial.{FirstTokens, Begun};

use privilege::privileges::Privileges;
use table::slices::whole;
use token::layout::{DACLS, TOKEN_WORDS, TOKENS};
use token::{Identity, row};

// Token 1 in the first slot: SYSTEM's, with every privilege present, enabled and default. The other slots are free.
fn write_tokens(tokens: &mut [u64; TOKENS], dacls: &mut [u8; DACLS])
    ensures { FirstTokens tokens.new dacls.new }
{
    tokens.fill(0);
    dacls.fill(0);
    let identity = Identity {
        user: 18,
        session: 999,
        kind: Identity::PRIMARY,
        level: 0,
        integrity: 16384,
        root: 1,
    };
    let privileges = Privileges::granted(Privileges::EXISTING, Privileges::EXISTING);
    row::set_head(&mut tokens[0..TOKEN_WORDS], 1, identity, privileges, 0);
}

// Any memory of the right sizes is overwritten.
pub fn write(tokens: &mut [u64], dacls: &mut [u8], control: &mut [u64], pending: &mut [u8])
    requires { Lent tokens.old dacls.old control.old pending.old }
    ensures { Begun tokens.new dacls.new control.new pending.new }
{
    write_tokens(whole(tokens), whole(dacls));
    control::initial::write(whole(control));
    pending.fill(0);
}
