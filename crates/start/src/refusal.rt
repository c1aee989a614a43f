// The refusals of whole calls, with document 01's numbers: nothing is used, answered or written.
ghost use Rattle.std.specs.Prelude.{◌≡◌};
ghost use Rattle.start.specs.Refusal.{number_of};

#[derive(Clone, Copy, PartialEq, Eq, Debug)]
pub enum CallRefusal {
    // The station is above 7.
    NoStation,
    // The answer buffer is too short for some answer.
    ShortBuffer,
    // The memory is not in order.
    InvalidMemory,
}

impl CallRefusal {
    pub fn number(self) -> u32
        ensures { result ≡ number_of self }
    {
        match self {
            CallRefusal::NoStation => 11,
            CallRefusal::ShortBuffer => 12,
            CallRefusal::InvalidMemory => 13,
        }
    }
}
