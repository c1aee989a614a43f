// The mask of a handle: its rights, with their numbers.
#![tactic(auto, unfolding(rules::specs::Bits::within, rules::specs::Mask::permits, rules::specs::Mask::valid_mask))]

ghost use Rattle.std.specs.Prelude.{◌≡◌};
ghost use Rattle.rules.specs.Bits.{within};
ghost use Rattle.rules.specs.Mask.{permits, valid_mask};

// A set of rights, each a bit.
#[derive(Clone, Copy, PartialEq, Eq)]
pub struct Mask(pub u32);

impl Mask {
    pub const ASSIGN_PRIMARY: Mask = Mask(1);

    pub const DUPLICATE: Mask = Mask(2);

    pub const IMPERSONATE: Mask = Mask(4);

    pub const QUERY: Mask = Mask(8);

    pub const ADJUST_PRIVILEGES: Mask = Mask(0x20);

    pub const ADJUST_GROUPS: Mask = Mask(0x40);

    pub const ADJUST_DEFAULT: Mask = Mask(0x80);

    pub const ADJUST_SCOPE: Mask = Mask(0x100);

    pub const ALL: Mask = Mask(
        Mask::ASSIGN_PRIMARY.0
            | Mask::DUPLICATE.0
            | Mask::IMPERSONATE.0
            | Mask::QUERY.0
            | Mask::ADJUST_PRIVILEGES.0
            | Mask::ADJUST_GROUPS.0
            | Mask::ADJUST_DEFAULT.0
            | Mask::ADJUST_SCOPE.0,
    );

    // The other mask has every right of this one.
    pub fn within(self, other: Mask) -> bool
        ensures { result ≡ within self.0 other.0 }
    {
        self.0 & other.0 == self.0
    }

    // It has the right, one of those above.
    pub fn permits(self, right: Mask) -> bool
        ensures { result ≡ permits self.0 right.0 }
    {
        right.within(self)
    }

    // It may be asked for: some right, and nothing that is none.
    pub fn valid(self) -> bool
        ensures { result ≡ valid_mask self.0 }
    {
        (self.0 != 0) & self.within(Mask::ALL)
    }
}
