//! The laws of quasi-trees and of pieces, over any field, as the clauses of functions that do nothing.
//!
//! Arcs have numbers, and `ends` tells the ends of each. A list of nodes and one of arcs are a quasi-tree where `IsQuasiTree` says so of
//! the nodes and the ends of the arcs.

ghost use Rattle.gain_graphs.specs.Field.{Field};
ghost use Rattle.gain_graphs.specs.Laws.{PullIsSum, PotentialsExist, PotentialsAreUnique, WeightsExist, FlowExists, FlowIsUnique, NoCirculation, ExtraExists, OneEndIsUnique, NotBoth, CycleIsUnique, LeastFirstExists, LeastFirstIsUnique, CycleIsNotBreakeven, OneOfTwoRoots, PieceExists, PieceIsUnique, PieceIsKept, BasesAreForests, DirectionExists, DirectionIsUnique, ExchangeKeepsBasis, RootedExample, CycleExample, FieldExample};

/// The pull of node weights on an arc, `w(i) - g * w(j)` for a link from i to j, `w(v)` for a drain and `-w(v)` for a feed, is their
/// sum over the nodes, each times the arc's incidence coefficient there.
pub fn pulls<Scalar>()
    ensures { (field : Field Scalar) → PullIsSum field }
{}

/// For any costs a quasi-tree has potentials with which each arc has the reduced cost 0, and no others.
pub fn potentials<Scalar>()
    ensures exist { (field : Field Scalar) → PotentialsExist field }
    ensures unique { (field : Field Scalar) → PotentialsAreUnique field }
{}

/// Each arc of a quasi-tree has node weights whose pull is 1 on it and 0 on every other.
pub fn weights<Scalar>()
    ensures { (field : Field Scalar) → WeightsExist field }
{}

/// For any supplies of its nodes a quasi-tree has a flow that takes them, and no other; so a flow that takes nothing is 0.
pub fn flows<Scalar>()
    ensures exist { (field : Field Scalar) → FlowExists field }
    ensures unique { (field : Field Scalar) → FlowIsUnique field }
    ensures rigid { (field : Field Scalar) → NoCirculation field }
{}

/// A quasi-tree without loops has one arc with one end or one cycle, and not both.
pub fn extra<Scalar>()
    ensures exists { (field : Field Scalar) → ExtraExists field }
    ensures one_end { (field : Field Scalar) → OneEndIsUnique field }
    ensures not_both { (field : Field Scalar) → NotBoth field }
{}

/// The cycle of a quasi-tree is one: all its walks are over the same arcs, from its least node along the lower of its two arcs there
/// there is one walk, and the product of the gains is not 1, from whatever node and in whichever direction it is walked.
pub fn cycle<Scalar>()
    ensures unique { (field : Field Scalar) → CycleIsUnique field }
    ensures least_first { (field : Field Scalar) → LeastFirstExists field }
    ensures in_one_way { (field : Field Scalar) → LeastFirstIsUnique field }
    ensures not_breakeven { (field : Field Scalar) → CycleIsNotBreakeven field }
{}

/// Where an arc leaves a quasi-tree, there are two nodes to one of which each node is still joined by links of the others.
pub fn leaving<Scalar>()
    ensures { (field : Field Scalar) → OneOfTwoRoots field }
{}

/// Each node lies in one piece of the basic arcs, and in no other. Where the basic arcs that touch a piece stay the same, it stays a piece.
pub fn pieces<Scalar>()
    ensures exist { (field : Field Scalar) → PieceExists field }
    ensures unique { (field : Field Scalar) → PieceIsUnique field }
    ensures kept { (field : Field Scalar) → PieceIsKept field }
{}

/// The bases of a network are its augmented forests: n arcs on which no flow but 0 takes nothing from every node are those whose pieces are
/// quasi-trees.
pub fn bases<Scalar>()
    ensures { (field : Field Scalar) → BasesAreForests field }
{}

/// An arc outside of a basis has one direction: a flow on it and the basic arcs, with a given amount on it, that takes nothing from any node.
pub fn directions<Scalar>()
    ensures exist { (field : Field Scalar) → DirectionExists field }
    ensures unique { (field : Field Scalar) → DirectionIsUnique field }
{}

/// Where an arc enters a basis, and one leaves on which the direction of the first is not 0, the basic arcs are a basis again: after a pivot
/// they are an augmented forest.
pub fn exchange<Scalar>()
    ensures { (field : Field Scalar) → ExchangeKeepsBasis field }
{}

/// There are quasi-trees of both kinds: a node with a drain, and two nodes with two links, one of gain 1 and one of another gain. And there
/// is a field with another gain, that of three elements.
pub fn examples<Scalar>()
    ensures rooted { (field : Field Scalar) → RootedExample field }
    ensures cycle { (field : Field Scalar) → CycleExample field }
    ensures field { FieldExample }
{}
