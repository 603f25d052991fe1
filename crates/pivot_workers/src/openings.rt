//! The slots of all nodes at the opening of a round.

ghost use Rattle.std.specs.Prelude.{◌≡◌, ◌<◌, length, map, IfOk};
ghost use Rattle.std.specs.List.{All};
ghost use Rattle.np_model.specs.Network.Flows.{Network};
ghost use Rattle.np_model.specs.Basis.Pieces.{nodes_in, least_node};
ghost use Rattle.pivot_workers.specs.Forests.{AreForest};
ghost use Rattle.pivot_workers.specs.Openings.{AreOpenings};
ghost use Rattle.pivot_workers.specs.Steps.Given.{AreGiven};

use np_frac::Memory;
use np_model::{Nums, Piece};
use std::alloc::Global;

// Names the least node of the piece for each of its nodes.
fn name_nodes<T: Piece>(openings: &mut [u32], piece: &T)
    requires some { 0 < length (T.lists piece.now).nodes }
    requires below { All (λ v. v < length openings.old) (nodes_in (T.lists piece.now)) }
    ensures { AreGiven (nodes_in (T.lists piece.now)) (least_node (T.lists piece.now)) openings.old openings.new }
{
    let least = piece.least();
    for place in 0..piece.size() {
        let node = piece.node_at(place);
        openings[node as usize] = least;
    }
}

/// For each node, by its number, the least node of its piece. It asks that the pieces are all pieces of a state with so many nodes. It takes time in
/// proportion to the nodes of all pieces. The one refusal is want of memory.
pub fn opening_slots<T: Piece>(alloc: Global, pieces: &[T], nodes: u32) -> Result<Nums, Memory>
    requires forest { (net : Network) × (length net.supply ≡ nodes) × AreForest net (map T.lists pieces.now) }
    ensures { IfOk result (λ list. AreOpenings nodes (map T.lists pieces.now) list) }
{
    let mut items = vec![in alloc; 0; nodes as usize]?;
    for piece in pieces {
        name_nodes(items.as_mut_slice(), piece);
    }
    Ok(Nums { items })
}
