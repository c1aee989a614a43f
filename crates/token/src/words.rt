// A group and its word, SID + attributes * 2^32.
ghost use Rattle.std.specs.Prelude.{◌≡◌};
ghost use Rattle.rules.specs.Memory.{pack, unpack};

use crate::Group;
use table::WORD_32;

impl From<u64> for Group {
    ghost use Rattle.token.specs.Meaning.{group_of};
    ghost use Rattle.token.specs.Row.{group_in};

    ghost from_gives = { λ w g. (g ≡ group_in w) × (group_of g ≡ unpack w) };

    #[tactic(auto, unfolding(rules::specs::Memory::unpack))]
    fn from(w: u64) -> Group {
        Group {
            sid: (w % WORD_32) as u32,
            attributes: (w / WORD_32) as u32,
        }
    }
}

impl From<Group> for u64 {
    ghost use Rattle.token.specs.Meaning.{group_of};
    ghost use Rattle.token.specs.Row.{word_of};

    ghost from_gives = { λ g w. (w ≡ word_of g) × (w ≡ pack (group_of g)) };

    #[tactic(auto, unfolding(rules::specs::Memory::pack))]
    fn from(g: Group) -> u64 {
        g.sid as u64 + g.attributes as u64 * WORD_32
    }
}
