// Where a test may hold a party up.

/// A place that a party comes to, outside the desk lock.
#[derive(Clone, Copy, Debug, PartialEq, Eq)]
pub enum Place {
    /// Before the party compiles the job of item `node` in the round up to `front`.
    BeforeJob { front: u64, node: u16 },
    /// After the party read the release of `front`.
    AfterRead { front: u64 },
}

/// What each party calls at a place. It changes nothing that a contract names.
pub trait Gate: Sync {
    /// Party `party` (desks from 1, workers from 17) is at `place`.
    fn at(&self, party: u16, place: Place);
}

/// The gate that does nothing.
#[derive(Clone, Copy, Debug, PartialEq, Eq)]
pub struct OpenGate;

impl Gate for OpenGate {
    fn at(&self, _party: u16, _place: Place) {}
}
