// Tokens in lent memory: a token's row, which requests read and change in place, and the slots of all tokens.
#![tactic(auto)]

ghost use Rattle.std.specs.Prelude.{◌≡◌};
ghost use Rattle.rules.specs.Create.{valid_integrity};

pub mod attributes;
pub mod layout;
pub mod row;
pub mod slots;
pub mod words;

#[derive(Clone, Copy, PartialEq, Eq)]
pub struct Group {
    pub sid: u32,
    pub attributes: u32,
}

// What a token keeps as long as it lives; `kind` is its type. It and the level are numbers: `row::identity_in` reads them from the words of
// any row, valid or not.
#[derive(Clone, Copy, PartialEq, Eq)]
pub struct Identity {
    pub user: u32,
    pub session: u64,
    pub kind: u8,
    pub level: u8,
    pub integrity: u32,
    pub root: u64,
}

impl Identity {
    // The two types.
    pub const PRIMARY: u8 = 1;

    pub const IMPERSONATION: u8 = 2;
}

// One of the five levels.
#[tactic(auto, unfolding(rules::specs::Create::valid_integrity, rules::specs::Basic::member))]
pub fn valid_integrity(i: u64) -> bool
    ensures { result ≡ valid_integrity i }
{
    matches!(i, 0 | 4096 | 8192 | 12288 | 16384)
}
