//! The shapes, sizes and numbers of the networks that are solved.

ghost use Rattle.std.specs.Prelude.{◌<◌, ◌≤◌};

use np_frac::Frac;

/// What the pivots are made on that are timed. Each of them moves the flow of all links of a chain, and the arc that enters is taken out again
/// by the next one.
#[derive(Clone, Copy, PartialEq, Eq)]
pub(crate) enum Shape {
    /// A chain with a drain, by turns at its first and at its last node.
    Tree,
    /// A chain that a link closes, of one gain and another by turns.
    Cycle,
    /// A chain that is joined by a link and taken apart by a drain, by turns.
    Joined,
}

/// How many nodes there are.
#[derive(Clone, Copy)]
pub(crate) enum Size {
    Ten,
    Hundred,
    Thousand,
    TenThousand,
}

/// A network.
#[derive(Clone, Copy)]
pub(crate) struct Case {
    /// The shape of its piece.
    pub(crate) shape: Shape,
    /// The number of nodes.
    pub(crate) nodes: u32,
    /// The greatest power of two below the number of nodes: the last node of the chain has this number or a greater one.
    pub(crate) top: u32,
    /// How many units at the last node are one at the first one: two to the number of ones that the last node's number is written with in
    /// base two.
    pub(crate) loss: u32,
    /// What supplies and costs are multiples of.
    pub(crate) unit: Frac,
}

// A 1, or a fraction whose parts have 60 bits each.
fn unit(wide: bool) -> Frac {
    let one = Frac::whole(1);
    if wide {
        Frac::new(1_000_000_000_000_000_003, 1_000_000_000_000_000_009).unwrap_or(one)
    } else {
        one
    }
}

/// The case of this shape and size, with a narrow unit or a wide one.
pub(crate) fn case_of(shape: Shape, size: Size, wide: bool) -> Case
    ensures some { 0 < result.top }
    ensures inside { result.top < result.nodes }
    ensures few { result.nodes ≤ 10000 }
{
    let (nodes, top, loss) = match size {
        Size::Ten => (10, 8, 4),
        Size::Hundred => (100, 64, 16),
        Size::Thousand => (1_000, 512, 256),
        Size::TenThousand => (10_000, 8_192, 256),
    };
    Case {
        shape,
        nodes,
        top,
        loss,
        unit: unit(wide),
    }
}
