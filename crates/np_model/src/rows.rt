//! The rows of arithmetic, and where an operation of one overflowed.

ghost use Rattle.std.specs.Prelude.{◌≡◌};

use np_frac::Past;

/// A row of the solver's arithmetic.
#[derive(Clone, Copy, Debug, PartialEq, Eq)]
pub enum Row {
    /// The residual of a node: its supply less what the lower bounds carry away.
    A1,
    /// The reduced cost of an arc.
    A2,
    /// The products of the gains round a cycle.
    A3,
    /// The direction of the flows when an arc enters.
    A4,
    /// How far a direction can be followed.
    A5,
    /// The flows after a step.
    A6,
    /// The potentials of a basis.
    A7,
    /// The sums of the finished plan, which the checker makes too.
    A8,
}

impl Row {
    ghost use Rattle.np_model.specs.Scheme.Verdicts.{row_word};

    /// Its name, as it is printed.
    #[tactic(auto, unfolding(crate::specs::Scheme::Verdicts::row_word))]
    pub fn word(self) -> &'static [u8]
        ensures { result.now ≡ row_word self }
    {
        match self {
            Row::A1 => b"A1",
            Row::A2 => b"A2",
            Row::A3 => b"A3",
            Row::A4 => b"A4",
            Row::A5 => b"A5",
            Row::A6 => b"A6",
            Row::A7 => b"A7",
            Row::A8 => b"A8",
        }
    }
}

/// A row of the checker's arithmetic.
#[derive(Clone, Copy, Debug, PartialEq, Eq)]
pub enum CheckRow {
    /// The amount of a staged arc, from the flows of its segments.
    C0,
    /// The balance of the flows at a node.
    C1,
    /// The ends of the segments of a staged arc.
    C2,
    /// The reduced cost of a staged arc at a slope.
    C3,
    /// The cost of the flows.
    C4,
    /// The gap of the prices.
    C5,
    /// The balance and the cost of the ray.
    C6,
}

impl CheckRow {
    ghost use Rattle.np_model.specs.Scheme.Verdicts.{check_row_word};

    /// Its name, as it is printed.
    #[tactic(auto, unfolding(crate::specs::Scheme::Verdicts::check_row_word))]
    pub fn word(self) -> &'static [u8]
        ensures { result.now ≡ check_row_word self }
    {
        match self {
            CheckRow::C0 => b"C0",
            CheckRow::C1 => b"C1",
            CheckRow::C2 => b"C2",
            CheckRow::C3 => b"C3",
            CheckRow::C4 => b"C4",
            CheckRow::C5 => b"C5",
            CheckRow::C6 => b"C6",
        }
    }
}

/// Where an operation overflowed: at a node, at an arc, at the turn to the second stage, or in the checker's walk.
#[derive(Clone, Copy, Debug, PartialEq, Eq)]
pub enum Place {
    Node(u32),
    Arc(u32),
    Turn,
    Check(CheckRow),
}

/// An operation whose exact result does not fit a fraction of 128 bits, with its row and place.
#[derive(Clone, Copy, Debug, PartialEq, Eq)]
pub struct Overflow {
    pub row: Row,
    pub place: Place,
    pub past: Past,
}
