// A token's groups: which of them are protected, and, in the words of the token's row, ENABLED of one set, all reset, and the report of
// the enabled ones.
#![tactic(auto, unfolding(rules::specs::AdjustGroups::is_protected, rules::specs::AdjustGroups::reset_group))]

ghost use Rattle.std.specs.Prelude.{◌≡◌, map, ◌≤◌, length, if◌then◌else◌};
ghost use Rattle.rules.specs.Basic.{change_at};
ghost use Rattle.rules.specs.Group.{is_enabled, with_enabled};
ghost use Rattle.rules.specs.Token.{max_groups};
ghost use Rattle.rules.specs.Memory.{unpack};
ghost use Rattle.rules.specs.AdjustGroups.{is_protected, reset_group, enabled_bits};
ghost use Rattle.token.specs.Meaning.{group_of};
ghost use Rattle.token.specs.Row.{on_word};
ghost use Rattle.adjust_groups.specs.GroupEntries.{groups_in};

use token::Group;

// ---- one group

// Protected: a mandatory, deny-only or logon group, whichever way an entry points, and a group with the user's SID on disabling.
pub fn is_protected(user: u32, value: u64, g: Group) -> bool
    ensures { result ≡ is_protected user value (group_of g) }
{
    g.is_mandatory() | g.is_deny_only() | g.is_logon() | ((g.sid == user) & (value == 0))
}

// ENABLED from value 2, but in deny-only groups.
fn reset_group(g: Group) -> Group
    ensures { group_of result ≡ reset_group (group_of g) }
{
    if g.is_deny_only() {
        return g;
    }
    g.with_enabled(g.is_enabled_by_default())
}

// ---- one word

fn reset_word(w: u64) -> u64
    ensures { result ≡ on_word reset_group w }
{
    u64::from(reset_group(Group::from(w)))
}

fn with_enabled_word(w: u64, on: bool) -> u64
    ensures { result ≡ on_word (with_enabled on) w }
{
    u64::from(Group::from(w).with_enabled(on))
}

fn enabled_bit(w: u64) -> u64
    ensures { result ≡ (if is_enabled (unpack w) then 1 else 0) }
{
    u64::from(Group::from(w).is_enabled())
}

// ---- the words of a row's groups

pub fn reset_all(groups: &mut [u64])
    ensures { groups.new ≡ map (on_word reset_group) groups.old }
{
    for word in groups.iter_mut() {
        *word = reset_word(*word);
    }
}

// Past the last group there is nothing to set. Not by `get_mut`: std does not say what the slice holds after a write through it.
#[tactic(auto, using(crate::proofs::GroupEntries::word_set, crate::proofs::GroupEntries::word_past))]
pub fn set_enabled_at(key: u64, on: bool, groups: &mut [u64])
    ensures { groups.new ≡ change_at key (on_word (with_enabled on)) groups.old }
{
    let i = key as usize;
    if i < groups.len() {
        groups[i] = with_enabled_word(groups[i], on);
    }
}

// The ENABLED bits, group i at bit i.
#[tactic(auto, using(crate::proofs::GroupReport::all_bits))]
pub fn enabled_word(groups: &[u64]) -> u64
    requires { length groups.now ≤ max_groups }
    ensures { result ≡ enabled_bits (groups_in groups.now) }
{
    groups
        .iter()
        .rev()
        .fold(0, |bits, word| (bits << 1) | enabled_bit(*word))
}
