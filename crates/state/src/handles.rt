// The handles, which come as words: a request changes one of them at most.
ghost use Rattle.std.specs.Prelude.{◌≡◌, ◌≢◌, ◌<◌, IfSome, unwrap_or};
ghost use Rattle.rules.specs.Number.{max32};
ghost use Rattle.rules.specs.Memory.{counter_words, next_handle};
ghost use Rattle.handle.specs.Meaning.{none};
ghost use Rattle.handle.specs.Words.{records_in};
ghost use Rattle.control.specs.Counters.{NextGiven};
ghost use Rattle.state.specs.Parts.{SameParts};
ghost use Rattle.state.specs.HandleFacts.{HandleGiven, HandleRoom, HandleAdded};

use crate::parts::Parts;
use control::counters;
use control::layout::{MAX_HANDLE, NEXT_HANDLE};
use control::stations::Station;
use handle::{Handle, SLOTS};

// What a request leaves in one slot of the handles.
#[derive(Clone, Copy)]
pub struct Change {
    pub slot: usize,
    pub handle: Handle,
}

impl Parts<'_> {
    // The number that the next record of a table gets.
    pub fn next(&self, counter: usize) -> u64
        requires { counter < counter_words }
        ensures { NextGiven counter self.now.control.now result }
    {
        counters::next(counter, self.control)
    }

    // The station's live handle of that number.
    pub fn find_handle(&self, station: u32, number: u32) -> Option<Handle>
        ensures given { HandleGiven station number (records_in self.now.handles.now) (unwrap_or result none) }
        ensures live { IfSome result (λ h. h.number ≢ 0) }
    {
        let slot = handle::find(self.handles, station, number)?;
        Some(handle::at(self.handles, slot))
    }

    // A slot is free, and a number is left.
    pub fn can_add_handle(&self) -> bool
        ensures { HandleRoom (records_in self.now.handles.now) self.now.control.now result }
    {
        let next = self.next(NEXT_HANDLE);
        handle::free_slot(self.handles).is_some() & (next < MAX_HANDLE)
    }

    // A new handle in the lowest free slot, with the next number.
    pub fn add_handle(&mut self, station: Station, token: u64, mask: u16) -> Change
        requires { next_handle self.old.control.now < max32 }
        ensures same { SameParts self.old self.new }
        ensures tokens { self.new.tokens.now ≡ self.old.tokens.now }
        ensures dacls { self.new.dacls.now ≡ self.old.dacls.now }
        ensures added { HandleAdded station.number token mask (records_in self.old.handles.now) self.old.control.now self.new.control.now result }
    {
        let slot = handle::free_slot(self.handles).unwrap_or(SLOTS);
        let next = self.next(NEXT_HANDLE);
        counters::step(NEXT_HANDLE, self.control);
        Change {
            slot,
            handle: Handle {
                station: station.number as u16,
                mask,
                number: next as u32,
                token,
            },
        }
    }
}
