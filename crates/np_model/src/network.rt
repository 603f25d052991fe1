//! Plain networks: supplies and arcs, with no periods and no bands; and full networks, which have one artificial arc for each node too.

ghost use Rattle.std.specs.Prelude.{length};
ghost use Rattle.np_model.specs.Network.Nets.{IsNet, IsNet-prop};
ghost use Rattle.np_model.specs.Basis.Artificial.{AreArtificial, AreArtificial-prop};

use crate::lists::{EndsList, Fracs, NetArcs};

/// A valid network: the supply of each node, and arcs between these nodes. There are at most 20,000 nodes and 100,000
/// arcs, the ends of a link differ, gains are above 0, and a finite upper bound is at least the lower one.
#[derive(Debug, Drop)]
pub struct Net {
    pub supply: Fracs,
    pub arcs: NetArcs,
    pub ghost valid: { IsNet supply arcs } by { IsNet-prop supply arcs },
}

/// A network and its artificial arcs: with m real arcs, that of node v has the number m + v and is a drain or a feed there.
#[derive(Debug, Drop)]
pub struct FullNet {
    pub net: Net,
    pub artificial: EndsList,
    pub ghost valid: { AreArtificial (length net.supply) artificial } by { AreArtificial-prop (length net.supply) artificial },
}

/// What stage one starts from: a full network and the flows of all its arcs, the artificial ones after the real ones.
#[derive(Debug, Drop)]
pub struct StartBasis {
    pub full: FullNet,
    pub flows: Fracs,
}
