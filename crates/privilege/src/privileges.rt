// The privileges of a token: four words, privilege n at bit n.
#![tactic(auto, unfolding(rules::specs::Privileges::exists, rules::specs::Privileges::is_enabled, rules::specs::Privileges::enable, rules::specs::Privileges::disable, rules::specs::Privileges::remove, rules::specs::Privileges::reset, rules::specs::Privileges::mark_used, rules::specs::Privileges::granted, rules::specs::AdjustPrivileges::valid_entry, rules::specs::AdjustPrivileges::applied))]

ghost use Rattle.std.specs.Prelude.{◌≡◌, ◌<◌};
ghost use Rattle.rules.specs.Privileges.{exists, is_enabled, enable, disable, remove, reset, mark_used, granted};
ghost use Rattle.rules.specs.AdjustPrivileges.{valid_entry, applied};
ghost use Rattle.privilege.specs.Meaning.{privileges_of, entry_of};

use crate::words;

#[derive(Clone, Copy, PartialEq, Eq)]
pub struct Privileges {
    pub present: u64,
    pub enabled: u64,
    pub by_default: u64,
    pub used: u64,
}

impl Privileges {
    pub const CREATE_TOKEN: u64 = 2;

    pub const ASSIGN_PRIMARY: u64 = 3;

    pub const TCB: u64 = 7;

    pub const IMPERSONATE: u64 = 29;

    // Privileges 2 to 36, as a word.
    pub const EXISTING: u64 = 0x1F_FFFF_FFFC;

    pub fn exists(n: u64) -> bool
        ensures { result ≡ exists n }
    {
        (2..=36).contains(&n)
    }

    // Privilege n is enabled.
    pub fn holds(self, n: u64) -> bool
        ensures { result ≡ is_enabled n (privileges_of self) }
    {
        words::has(self.enabled, n)
    }

    pub fn enable(mut self, w: u64) -> Privileges
        ensures { privileges_of result ≡ enable w (privileges_of self) }
    {
        self.enabled = words::with(self.enabled, w);
        self
    }

    pub fn disable(mut self, w: u64) -> Privileges
        ensures { privileges_of result ≡ disable w (privileges_of self) }
    {
        self.enabled = words::without(self.enabled, w);
        self
    }

    // What was used stays noted.
    pub fn remove(mut self, w: u64) -> Privileges
        ensures { privileges_of result ≡ remove w (privileges_of self) }
    {
        self.present = words::without(self.present, w);
        self.enabled = words::without(self.enabled, w);
        self.by_default = words::without(self.by_default, w);
        self
    }

    pub fn reset(mut self) -> Privileges
        ensures { privileges_of result ≡ reset (privileges_of self) }
    {
        self.enabled = self.by_default;
        self
    }

    // An entry of request 5 is good: 0 disable, 2 enable, 4 remove; an absent privilege is not enabled. What is asked stays a number, as it
    // comes with the request: both functions answer for any.
    pub fn may_adjust(self, n: u64, value: u64) -> bool
        ensures { result ≡ valid_entry (privileges_of self) (entry_of n value) }
    {
        Privileges::exists(n)
            && match value {
                0 | 4 => true,
                2 => words::has(self.present, n),
                _ => false,
            }
    }

    // A good entry is made.
    pub fn adjust(self, n: u64, value: u64) -> Privileges
        requires { n < 64 }
        ensures { privileges_of result ≡ applied (entry_of n value) (privileges_of self) }
    {
        let w = words::bit(n);
        match value {
            2 => self.enable(w),
            4 => self.remove(w),
            _ => self.disable(w),
        }
    }

    pub fn mark_used(mut self, w: u64) -> Privileges
        ensures { privileges_of result ≡ mark_used w (privileges_of self) }
    {
        self.used = words::with(self.used, w);
        self
    }

    // Present ones, of which some are enabled by default and so enabled.
    pub fn granted(present: u64, by_default: u64) -> Privileges
        ensures { privileges_of result ≡ granted present by_default }
    {
        Privileges {
            present,
            enabled: by_default,
            by_default,
            used: 0,
        }
    }
}
