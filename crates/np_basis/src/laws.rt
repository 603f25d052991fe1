//! The laws of states, of their pieces and of the rows of a piece, as the clauses of functions that do nothing.

ghost use Rattle.np_basis.specs.Laws.{FullIsSound, FullNetIsSound, StartIsArtificial, StartIsState, StartIsSingles, SingleIsPart, StartPieceHasShape, StartPieceIsPiece, PieceExists, PieceIsUnique, PiecesAreSound, PiecesAgree, RowsAreLocal, PotentialsExist, PotentialsAreUnique, WeightsExist, PriceIsReduced, LinksAreNoLoops, ExtraExists, ExtraIsUnique, PotentialsDivisor, DirectionsDivisor, StateExample, RoundExample};
ghost use Rattle.np_basis.specs.PivotLaws.{DirectionExists, DirectionIsUnique, WholeDirectionExists, WholeDirectionIsUnique, DirectionIsLocal, MoveExists, MoveIsUnique, OthersAreKept, PiecesHold, AtMostTwo, AfterIsExactly, PivotReplaces, PivotIsUnique, AfterIsUnique, TreesAfter, PartAfterExists, TwoRoots, NoRayAtNonnegativeCosts, NoRayInStageOne, MoveInStageOne, DirectionIsRay, HasPivot};

/// A full network is valid in each phase: with sound real arcs and an artificial arc at each node, all its arcs are sound. So they are in
/// every [`FullNet`](np_model::FullNet), by its type.
pub fn full_networks()
    ensures sound { FullIsSound }
    ensures by_type { FullNetIsSound }
{}

/// Where the residual of each node fits, the start is a state of stage one. Its artificial arcs are one at each node, and its pieces are the
/// nodes alone, each with its artificial arc: the lists of such a piece have its shape, and are its lists in the start state.
pub fn start()
    ensures artificial { StartIsArtificial }
    ensures is_state { StartIsState }
    ensures singles { StartIsSingles }
    ensures parts { SingleIsPart }
    ensures shape { StartPieceHasShape }
    ensures piece { StartPieceIsPiece }
{}

/// Each node lies in exactly one piece of what a state says, and pieces of a state that share no node are sound. Pieces say of their nodes
/// and of the arcs that touch them what the state says.
pub fn pieces()
    ensures exist { PieceExists }
    ensures unique { PieceIsUnique }
    ensures sound { PiecesAreSound }
    ensures agree { PiecesAgree }
{}

/// For any costs a piece has potentials with which each of its basic arcs has the reduced cost 0, and one list of them on its nodes. Whether
/// an operation of their rows overflows depends on the potentials of its nodes alone.
pub fn potentials()
    ensures exist { PotentialsExist }
    ensures unique { PotentialsAreUnique }
    ensures local { RowsAreLocal }
{}

/// Each basic arc of a piece has node weights whose sum, each times the arc's incidence coefficient at its node, is 1 on it and 0 on
/// every other basic arc.
pub fn weights()
    ensures { WeightsExist }
{}

/// The reduced cost of an arc by the potentials at its ends is the one by the sum over all nodes.
pub fn prices()
    ensures { PriceIsReduced }
{}

/// A piece has one extra arc: an arc with one end, or a cycle, from its least node along the lower of its two arcs there; and never both. The
/// ends of a link are two nodes.
pub fn extra()
    ensures no_loops { LinksAreNoLoops }
    ensures exists { ExtraExists }
    ensures unique { ExtraIsUnique }
{}

/// The divisors on the cycle of a piece are not 0: that of its potentials, 1 less the product of the gains, and that of its directions.
pub fn divisors()
    ensures potentials { PotentialsDivisor }
    ensures directions { DirectionsDivisor }
{}

/// An arc whose ends are nodes of some pieces, and that is basic in none of them, has one direction with a given amount on it: amounts on it
/// and on their basic arcs that take nothing from any of their nodes. So has an arc outside of a whole basis, over all nodes and arcs; and
/// that direction of a state is the one of the pieces that hold the ends of the arc, and 0 off them.
pub fn directions()
    ensures exist { DirectionExists }
    ensures unique { DirectionIsUnique }
    ensures whole_exist { WholeDirectionExists }
    ensures whole_unique { WholeDirectionIsUnique }
    ensures local { DirectionIsLocal }
{}

/// Where a bound stands ahead of some arc of a direction, its flows can go a greatest step within their bounds, and an arc leaves: the
/// entering one where it stops them, else the one with the least number among those that do. The entering arc determines the step, the
/// leaving arc and its bound.
pub fn moves()
    ensures exist { MoveExists }
    ensures unique { MoveIsUnique }
{}

/// A pivot touches no other pieces than those that hold the ends of its entering arc: every other piece stays one, with its potentials,
/// flows and marks. Each arc needs one or two pieces, and a pivot on them gives one or two in order. Pieces become others by a pivot exactly
/// where the state whose pieces they are does; the state after is the one before with the new pieces in place of the old ones. State and
/// entry determine the state after, and pieces of the state the pieces after.
pub fn pivots()
    ensures kept { OthersAreKept }
    ensures needed { PiecesHold }
    ensures few { AtMostTwo }
    ensures of_pieces { AfterIsExactly }
    ensures replaces { PivotReplaces }
    ensures unique { PivotIsUnique }
    ensures one_after { AfterIsUnique }
{}

/// With no state at hand: where an arc enters some pieces and one leaves that its direction moves, each part of what is basic then that has
/// one of their nodes is a quasi-tree. Each of their nodes lies in such a part, within their nodes, and there are one or two.
pub fn pieces_after()
    ensures trees { TreesAfter }
    ensures parts { PartAfterExists }
    ensures roots { TwoRoots }
{}

/// Where no arc costs less than 0, as in stage one, the direction of an eligible arc comes to a bound: on some arc it falls, and some
/// step along it goes below the lower bound there. So there is no ray in stage one,
/// and each eligible arc has a move.
pub fn no_ray_in_stage_one()
    ensures costs { NoRayAtNonnegativeCosts }
    ensures stage { NoRayInStageOne }
    ensures moves { MoveInStageOne }
{}

/// Where no bound stands ahead of any arc, the direction of an eligible arc of a state is a ray: the cost falls along it without end.
pub fn rays()
    ensures { DirectionIsRay }
{}

/// There are states, and pieces with a cycle: a node alone has a state of stage one, with any supply that fits; and two nodes with two
/// links between them, of gain 1 and of another gain above 0, are a piece whose extra arc is the cycle of both. And there is a pivot: at a node
/// with two drains the cheap one takes the place of the dear one.
pub fn examples()
    ensures state { StateExample }
    ensures round { RoundExample }
    ensures pivot { HasPivot }
{}
