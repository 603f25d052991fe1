//! Where workers pass on their way, for tests that set their order.

/// A point of a worker's way: before it takes a piece, or with its pieces in hand.
#[derive(Clone, Copy, Debug, PartialEq, Eq)]
pub enum Spot {
    /// It has seen where its pieces are, and has taken none.
    Seen,
    /// It has its pieces in hand.
    Held,
}

/// What a worker passes at each spot. A gate always returns.
pub trait Gate: Sync {
    /// Worker `worker`, from 1, stands at `spot` in its turn number `turn`.
    fn pass(&self, worker: u32, turn: u64, spot: Spot);
}

/// The gate that is always open: it does nothing.
#[derive(Clone, Copy, Debug, PartialEq, Eq)]
pub struct OpenGate;

impl Gate for OpenGate {
    fn pass(&self, _worker: u32, _turn: u64, _spot: Spot) {}
}
