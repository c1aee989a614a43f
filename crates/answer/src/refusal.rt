// The refusals of requests, with document 01's numbers.
ghost use Rattle.std.specs.Prelude.{◌≡◌};
ghost use Rattle.answer.specs.Refusal.{number_of};

#[derive(Clone, Copy, PartialEq, Eq, Debug)]
pub enum Refusal {
    // Unknown request, body not in its layout, or bytes left.
    Malformed,
    // The handle isn't this station's live one.
    NotALiveHandle,
    RightMissing,
    PrivilegeNotHeld,
    // A field or entry bad, unknown class, installing a token that isn't primary, acting for one that is, or linking two that make no pair.
    BadField,
    ProtectedGroup,
    // Installing a token of another user or session.
    InstallMismatch,
    // The server is restricted, its client isn't, and the gate does not pass.
    RestrictedServer,
    // A needed slot is not free, a needed next number is unusable, over 16 restricting SIDs, or a fifth session would have a linked pair.
    TableFull,
    // The capacity given is below the query's size, which is told.
    CapacityBelow(u64),
    // No frame can begin as the stream's bytes do.
    StreamBroken,
    // The token is in no linked pair.
    NotLinked,
}

impl Refusal {
    // Two refusals share number 7.
    #[tactic(auto, unfolding(rules::specs::Refusal::refusal, rules::specs::Refusal::capacity_below))]
    pub fn number(self) -> u64
        ensures { result ≡ number_of self }
    {
        match self {
            Refusal::Malformed => 1,
            Refusal::NotALiveHandle => 2,
            Refusal::RightMissing => 3,
            Refusal::PrivilegeNotHeld => 4,
            Refusal::BadField => 5,
            Refusal::ProtectedGroup => 6,
            Refusal::InstallMismatch | Refusal::RestrictedServer => 7,
            Refusal::TableFull => 8,
            Refusal::CapacityBelow(_) => 9,
            Refusal::StreamBroken => 10,
            Refusal::NotLinked => 14,
        }
    }
}
