//! Which slots a thread goes round, and what it counts there.

ghost use Rattle.std.specs.Prelude.{◌+◌, ◌<◌, ◌≤◌};

/// How many slots there are.
pub(crate) const SLOTS: u32 = 16;

/// Whether threads share a slot.
#[derive(Clone, Copy, PartialEq, Eq)]
pub(crate) enum Shape {
    /// Each thread has four slots of its own.
    Own,
    /// All threads have the slot 0.
    Common,
}

/// How many threads there are.
#[derive(Clone, Copy)]
pub(crate) enum Crew {
    One,
    Two,
    Four,
}

/// Slots that follow each other.
#[derive(Clone, Copy)]
pub(crate) struct Round {
    first: u32,
    slots: u32,
    ghost some: { 0 < slots },
    ghost within: { first + slots ≤ 16 },
}

impl Round {
    /// The slots of a thread.
    pub(crate) fn of(shape: Shape, thread: u32) -> Round
        requires { thread < 4 }
    {
        match shape {
            Shape::Own => Round {
                first: 4 * thread,
                slots: 4,
            },
            Shape::Common => Round { first: 0, slots: 1 },
        }
    }

    /// The slot of a turn.
    pub(crate) fn slot(&self, turn: u32) -> u32
        ensures { result < 16 }
    {
        self.first + turn % self.slots
    }
}

/// How often a piece was taken, and how often none was at home.
#[derive(Clone, Copy)]
pub(crate) struct Tally {
    pub takes: u64,
    pub busy: u64,
}

impl Tally {
    pub(crate) fn new() -> Tally {
        Tally { takes: 0, busy: 0 }
    }

    pub(crate) fn plus(self, other: Tally) -> Tally {
        Tally {
            takes: self.takes.wrapping_add(other.takes),
            busy: self.busy.wrapping_add(other.busy),
        }
    }

    /// One take more.
    pub(crate) fn taken(&mut self) {
        self.takes = self.takes.wrapping_add(1);
    }

    /// One more that found no piece at home.
    pub(crate) fn missed(&mut self) {
        self.busy = self.busy.wrapping_add(1);
    }
}
