// A token lives while a handle, a station or a linked pair refers to it: the changes that take a reference away free the token that lost it.
ghost use Rattle.std.specs.Prelude.{◌≡◌, ◌<◌, set, unwrap_or};
ghost use Rattle.rules.specs.State.{pair_slots, handle_slots};
ghost use Rattle.handle.specs.Meaning.{none};
ghost use Rattle.handle.specs.Words.{records_in};
ghost use Rattle.control.specs.Stations.{ClientGiven};
ghost use Rattle.control.specs.Pairs.{RowGiven};
ghost use Rattle.state.specs.Parts.{SameParts};
ghost use Rattle.state.specs.ReleaseFacts.{Referred, TokenFreed, Closed, Installed, ActsFrom, PairLinked};

use crate::handles::Change;
use crate::parts::Parts;
use control::pairs::Pair;
use control::stations::{Client, Station};
use control::{pairs, references, stations};
use handle::{NONE, SLOTS};
use token::slots;

impl Parts<'_> {
    // The token that the station acts for and the level in force.
    pub fn client_of(&self, station: Station) -> Client
        ensures { ClientGiven station.number self.now.control.now result }
    {
        stations::client_of(station, self.control)
    }

    // The row of a pair's place.
    pub fn pair_at(&self, place: usize) -> Pair
        requires { place < pair_slots }
        ensures { RowGiven place self.now.control.now result }
    {
        pairs::row(place, self.control)
    }

    // Some handle, but for the one in a slot that is freed, some station or some pair refers to the token.
    fn refers(&self, token: u64, freed: Option<usize>) -> bool
        ensures { Referred token (set (records_in self.now.handles.now) (unwrap_or freed handle_slots) none) self.now.control.now result }
    {
        let by_handle = handle::refers(self.handles, freed.unwrap_or(SLOTS), token);
        by_handle | references::refer(token, self.control)
    }

    // The token is freed if nothing refers to it, but for the handle in a slot that is freed.
    pub fn free_unreferenced(&mut self, token: u64, freed: Option<usize>)
        ensures same { SameParts self.old self.new }
        ensures control { self.new.control.now ≡ self.old.control.now }
        ensures freed { TokenFreed token self.old.tokens.now self.old.dacls.now (set (records_in self.old.handles.now) (unwrap_or freed handle_slots) none) self.old.control.now self.new.tokens.now self.new.dacls.now }
    {
        if self.refers(token, freed) {
            return;
        }
        if let Some(slot) = self.slot_of(token) {
            slots::clear_at(self.tokens, self.dacls, slot);
        }
    }

    // The station's live handle of that number is dropped, and its token freed if it was the last reference.
    pub fn close(&mut self, station: u32, number: u32) -> Option<Change>
        ensures same { SameParts self.old self.new }
        ensures control { self.new.control.now ≡ self.old.control.now }
        ensures closed { Closed station number self.old.tokens.now self.old.dacls.now (records_in self.old.handles.now) self.old.control.now self.new.tokens.now self.new.dacls.now result }
    {
        let slot = handle::find(self.handles, station, number)?;
        let closed = handle::at(self.handles, slot);
        self.free_unreferenced(closed.token, Some(slot));
        Some(Change { slot, handle: NONE })
    }

    // The station gets another primary token, and the one before is freed if that was its last reference.
    pub fn install(&mut self, station: Station, number: u64)
        ensures same { SameParts self.old self.new }
        ensures installed { Installed station.number number self.old.tokens.now self.old.dacls.now (records_in self.old.handles.now) self.old.control.now self.new.tokens.now self.new.dacls.now self.new.control.now }
    {
        let before = self.caller_number(station);
        stations::set_token(station, number, self.control);
        self.free_unreferenced(before, None);
    }

    // The station acts for a token at a level, or with 0 and 0 for none, and the token that it acted for is freed if that was its last reference.
    pub fn act_for(&mut self, station: Station, token: u64, level: u64)
        ensures same { SameParts self.old self.new }
        ensures acts { ActsFrom station.number token level self.old.tokens.now self.old.dacls.now (records_in self.old.handles.now) self.old.control.now self.new.tokens.now self.new.dacls.now self.new.control.now }
    {
        let before = self.client_of(station);
        stations::set_client(station, token, level, self.control);
        self.free_unreferenced(before.token, None);
    }

    // A pair takes a place, and the tokens of the pair that stood there are freed where that was their last reference.
    pub fn link(&mut self, place: usize, pair: Pair)
        requires { place < pair_slots }
        ensures same { SameParts self.old self.new }
        ensures linked { PairLinked place pair.session pair.elevated pair.filtered self.old.tokens.now self.old.dacls.now (records_in self.old.handles.now) self.old.control.now self.new.tokens.now self.new.dacls.now self.new.control.now }
    {
        let before = self.pair_at(place);
        pairs::set_pair(place, pair, self.control);
        self.free_unreferenced(before.elevated, None);
        self.free_unreferenced(before.filtered, None);
    }
}
