// Request 10: the indexes of groups to deny, read from a body: they are judged, and then the groups denied in a row.
ghost use Rattle.std.specs.Prelude.{◌≡◌, ◌&&◌, ◌≤◌};
ghost use Rattle.rules.specs.Basic.{all, distinct, is_below};
ghost use Rattle.rules.specs.Group.{denied};
ghost use Rattle.rules.specs.Token.{max_groups};
ghost use Rattle.token.specs.Row.{on_word};
ghost use Rattle.copy.specs.Numbers.{numbers_left};
ghost use Rattle.copy.specs.DeniedGroups.{DeniedAt, GroupsDenied};

use crate::numbers::Numbers;
use privilege::words::{bit, has, with};
use token::Group;
use token::layout::{HEAD_WORDS, TOKEN_WORDS};

// The indexes are those of groups, and none comes twice.
pub fn valid_indexes(size: u64, indexes: Numbers) -> bool
    requires { size ≤ max_groups }
    ensures { result ≡ (all (is_below size) (numbers_left indexes.entry) && distinct (numbers_left indexes.entry)) }
{
    let mut named = 0;
    for index in indexes {
        if (size <= index) | has(named, index) {
            return false;
        }
        named = with(named, bit(index));
    }
    true
}

// The group of a word, denied.
fn denied_word(w: u64) -> u64
    ensures { result ≡ on_word denied w }
{
    Group::from(w).denied().into()
}

// Group `index` of a row that has `size` groups.
fn deny_at(words: &mut [u64; TOKEN_WORDS], size: u64, index: u64)
    requires { size ≤ max_groups }
    ensures { DeniedAt size index words.old words.new }
{
    if index < size {
        let i = HEAD_WORDS + index as usize;
        words[i] = denied_word(words[i]);
    }
}

// The groups of the indexes.
pub fn deny(words: &mut [u64; TOKEN_WORDS], size: u64, indexes: Numbers)
    requires { size ≤ max_groups }
    ensures { GroupsDenied size (numbers_left indexes.entry) words.old words.new }
{
    for index in indexes {
        deny_at(words, size, index);
    }
}
