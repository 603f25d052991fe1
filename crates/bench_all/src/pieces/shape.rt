//! The three shapes, and their arcs.

ghost use Rattle.std.specs.Prelude.{◌≡◌, ◌<◌};
ghost use Rattle.bench_all.specs.declared.pieces.shape.Shape.TheVariants as shapes;
ghost use Rattle.bench_all.specs.Shapes.{arc_ends};

use np_frac::Frac;
use np_model::Ends;

/// The shape of a network with as many arcs as nodes.
#[derive(Clone, Copy)]
pub(crate) enum Shape {
    /// A drain at node 0, and a link from each node to the next.
    Chain,
    /// A drain at node 0, and a link from it to each other node.
    Star,
    /// A link from each node to the next, and from the last one to node 0.
    Cycle,
}

// The ends of the arc that leads along a cycle from this node.
fn cycle_ends(nodes: u32, node: u32) -> Ends
    requires { node < nodes }
    ensures { result ≡ arc_ends shapes.Cycle nodes node }
{
    let to = if node + 1 == nodes { 0 } else { node + 1 };
    let gain = Frac::whole(if node == 0 { 2 } else { 1 });
    Ends::Link {
        from: node,
        to,
        gain,
    }
}

/// The ends of the arc of a node, among so many nodes.
pub(crate) fn ends_of(shape: Shape, nodes: u32, node: u32) -> Ends
    requires { node < nodes }
    ensures { result ≡ arc_ends shape nodes node }
{
    let gain = Frac::whole(1);
    match shape {
        Shape::Cycle => cycle_ends(nodes, node),
        _ if node == 0 => Ends::Drain(0),
        Shape::Chain => Ends::Link {
            from: node - 1,
            to: node,
            gain,
        },
        Shape::Star => Ends::Link {
            from: 0,
            to: node,
            gain,
        },
    }
}
