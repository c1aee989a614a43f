// The state's tokens, in the parts that hold it.
ghost use Rattle.std.specs.Prelude.{◌≡◌, ◌<◌, length};
ghost use Rattle.rules.specs.Number.{max64};
ghost use Rattle.rules.specs.Token.{with_elevation};
ghost use Rattle.rules.specs.State.{token_slots};
ghost use Rattle.rules.specs.Memory.{token_words, next_token};
ghost use Rattle.control.specs.Sids.{SidsCopied};
ghost use Rattle.control.specs.Stations.{CallerNumber};
ghost use Rattle.state.specs.Parts.{SameParts, WordsAlone};
ghost use Rattle.state.specs.TokenCalls.{lent, RowAt, RowOf, IdentityGiven, IdentityAt, RestrictedGiven, ElevationGiven, PrivilegesGiven, SlotOf, FreeSlot, Held, Marked, CanAdd, WordsChanged, RowAdded, Used};

use crate::parts::Parts;
use control::layout::{MAX_TOKEN, NEXT_TOKEN, SIDS};
use control::stations::Station;
use control::{counters, sids, stations};
use privilege::privileges::Privileges;
use privilege::words;
use token::layout::{ELEVATION, MAX_DACL, RESTRICTING_COUNT, TOKEN_WORDS};
use token::{Identity, row, slots};

// Who the empty token is.
const NOBODY: Identity = Identity {
    user: 0,
    session: 0,
    kind: Identity::PRIMARY,
    level: 0,
    integrity: 0,
    root: 0,
};

const NO_PRIVILEGES: Privileges = Privileges {
    present: 0,
    enabled: 0,
    by_default: 0,
    used: 0,
};

// The elevation of the empty token, Default.
const DEFAULT: u64 = 1;

fn mark_used(bits: u64, words: &mut [u64])
    requires { length words.old ≡ token_words }
    ensures { Marked bits words.old words.new }
{
    let p = row::privileges_in(words);
    row::set_privileges(words, p.mark_used(bits));
}

// ---- looking

impl Parts<'_> {
    // A slot's row.
    pub fn row(&self, slot: usize) -> &[u64; TOKEN_WORDS]
        requires { slot < token_slots }
        ensures { result.now ≡ lent slot self.now.tokens.now }
    {
        let (rows, _) = self.tokens.as_chunks::<TOKEN_WORDS>();
        &rows[slot]
    }

    // The row of the token in a slot; none past the last slot.
    pub fn row_at(&self, slot: usize) -> Option<&[u64; TOKEN_WORDS]>
        ensures { RowAt slot self.now.tokens.now result }
    {
        let (rows, _) = self.tokens.as_chunks::<TOKEN_WORDS>();
        rows.get(slot)
    }

    // The slot of the live token of a number.
    pub fn slot_of(&self, number: u64) -> Option<usize>
        ensures { SlotOf number self.now.tokens.now result }
    {
        slots::find(self.tokens, number)
    }

    // The row of the live token of a number.
    fn row_of(&self, number: u64) -> Option<&[u64; TOKEN_WORDS]>
        ensures { RowOf number self.now.tokens.now result }
    {
        self.row_at(self.slot_of(number)?)
    }

    // Who the token in a slot is; past the last slot, who the empty token is.
    pub fn identity_at(&self, slot: usize) -> Identity
        ensures { IdentityAt slot self.now.tokens.now result }
    {
        match self.row_at(slot) {
            Some(row) => row::identity_in(row),
            None => NOBODY,
        }
    }

    // Who the live token of a number is.
    pub fn identity_of(&self, number: u64) -> Identity
        ensures { IdentityGiven number self.now.tokens.now result }
    {
        match self.row_of(number) {
            Some(row) => row::identity_in(row),
            None => NOBODY,
        }
    }

    // It has restricting SIDs.
    pub fn is_restricted(&self, number: u64) -> bool
        ensures { RestrictedGiven number self.now.tokens.now result }
    {
        match self.row_of(number) {
            Some(row) => row[RESTRICTING_COUNT] != 0,
            None => false,
        }
    }

    pub fn elevation_of(&self, number: u64) -> u64
        ensures { ElevationGiven number self.now.tokens.now result }
    {
        match self.row_of(number) {
            Some(row) => row[ELEVATION],
            None => DEFAULT,
        }
    }

    fn privileges_of(&self, number: u64) -> Privileges
        ensures { PrivilegesGiven number self.now.tokens.now result }
    {
        match self.row_of(number) {
            Some(row) => row::privileges_in(row),
            None => NO_PRIVILEGES,
        }
    }

    // A copy of the SID table, in which SIDs can enter before it is known whether the request is refused.
    pub fn sids(&self) -> [u64; SIDS]
        ensures { SidsCopied self.now.control.now result }
    {
        sids::copied(self.control)
    }

    // The number of a station's primary token.
    pub fn caller_number(&self, station: Station) -> u64
        ensures { CallerNumber station.number self.now.control.now result }
    {
        stations::caller_number(station, self.control)
    }

    // The privilege is enabled on the caller's token.
    pub fn held(&self, privilege: u64, station: Station) -> bool
        ensures { Held privilege station.number self.now.tokens.now self.now.control.now result }
    {
        self.privileges_of(self.caller_number(station))
            .holds(privilege)
    }

    pub fn can_add_token(&self) -> bool
        ensures { CanAdd self.now.tokens.now self.now.control.now result }
    {
        let next = self.next(NEXT_TOKEN);
        slots::free_slot(self.tokens).is_some() & (next < MAX_TOKEN)
    }

    fn free_slot(&self) -> Option<usize>
        ensures { FreeSlot self.now.tokens.now result }
    {
        slots::free_slot(self.tokens)
    }
}

// ---- changes

impl Parts<'_> {
    // A new token by its rows, whose number is the next one.
    pub fn add_row(&mut self, words: &[u64; TOKEN_WORDS], bytes: &[u8; MAX_DACL])
        requires { next_token self.old.control.now < max64 }
        ensures same { SameParts self.old self.new }
        ensures added { RowAdded words.now bytes.now self.old.tokens.now self.old.dacls.now self.old.control.now self.new.tokens.now self.new.dacls.now self.new.control.now }
    {
        let slot = self.free_slot();
        counters::step(NEXT_TOKEN, self.control);
        if let Some(slot) = slot {
            slots::put_at(words, bytes, self.tokens, self.dacls, slot);
        }
    }

    // The token of that number gets another elevation.
    pub fn elevate(&mut self, number: u64, elevation: u64)
        ensures alone { WordsAlone self.old self.new }
        ensures changed { WordsChanged number (with_elevation elevation) self.old.tokens.now self.new.tokens.now }
    {
        if let Some(slot) = self.slot_of(number) {
            let at = slot * TOKEN_WORDS;
            let end = at + TOKEN_WORDS;
            let tokens = &mut *self.tokens;
            row::set_elevation(&mut tokens[at..end], elevation);
        }
    }

    // A success needed the privilege: its used bit is set on the caller's token.
    pub fn used(&mut self, privilege: u64, station: Station)
        requires { privilege < 64 }
        ensures alone { WordsAlone self.old self.new }
        ensures used { Used privilege station.number self.old.tokens.now self.old.control.now self.new.tokens.now }
    {
        let caller = self.caller_number(station);
        if let Some(slot) = self.slot_of(caller) {
            let at = slot * TOKEN_WORDS;
            let end = at + TOKEN_WORDS;
            let tokens = &mut *self.tokens;
            mark_used(words::bit(privilege), &mut tokens[at..end]);
        }
    }
}
