// The attributes of a group: a test for each, and the changes that requests make.
#![tactic(auto, using(crate::proofs::GroupBits::attributes))]

ghost use Rattle.std.specs.Prelude.{◌≡◌};
ghost use Rattle.rules.specs.Bits.{without};
ghost use Rattle.rules.specs.Group.{is_mandatory, is_enabled_by_default, is_enabled, is_owner, is_deny_only, is_logon, is_fixed, with_enabled, denied};
ghost use Rattle.token.specs.Meaning.{group_of};

use crate::Group;

const MANDATORY: u32 = 1;

const ENABLED_BY_DEFAULT: u32 = 2;

const ENABLED: u32 = 4;

const OWNER: u32 = 8;

const DENY_ONLY: u32 = 0x10;

// LOGON_ID is two bits.
const LOGON_ID: u32 = 0xC000_0000;

impl Group {
    pub fn is_mandatory(self) -> bool
        ensures { result ≡ is_mandatory (group_of self) }
    {
        self.attributes & MANDATORY != 0
    }

    pub fn is_enabled_by_default(self) -> bool
        ensures { result ≡ is_enabled_by_default (group_of self) }
    {
        self.attributes & ENABLED_BY_DEFAULT != 0
    }

    pub fn is_enabled(self) -> bool
        ensures { result ≡ is_enabled (group_of self) }
    {
        self.attributes & ENABLED != 0
    }

    pub fn is_owner(self) -> bool
        ensures { result ≡ is_owner (group_of self) }
    {
        self.attributes & OWNER != 0
    }

    pub fn is_deny_only(self) -> bool
        ensures { result ≡ is_deny_only (group_of self) }
    {
        self.attributes & DENY_ONLY != 0
    }

    pub fn is_logon(self) -> bool
        ensures { result ≡ is_logon (group_of self) }
    {
        self.attributes & LOGON_ID == LOGON_ID
    }

    // A mandatory, logon or user-SID group.
    pub fn is_fixed(self, user: u32) -> bool
        ensures { result ≡ is_fixed user (group_of self) }
    {
        self.is_mandatory() | self.is_logon() | (self.sid == user)
    }

    // ENABLED set to a value.
    pub fn with_enabled(self, on: bool) -> Group
        ensures { group_of result ≡ with_enabled on (group_of self) }
    {
        let attributes = if on {
            self.attributes | ENABLED
        } else {
            without_enabled(self.attributes)
        };
        Group { attributes, ..self }
    }

    // DENY_ONLY gained and ENABLED lost.
    pub fn denied(self) -> Group
        ensures { group_of result ≡ denied (group_of self) }
    {
        Group {
            attributes: without_enabled(self.attributes | DENY_ONLY),
            ..self
        }
    }
}

fn without_enabled(attributes: u32) -> u32
    ensures { result ≡ without attributes 4 }
{
    attributes & !ENABLED
}
