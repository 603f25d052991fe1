//! Where each node is at home. It is found anew at each step, from the pieces that there are then, and no pivot keeps it up.

ghost use Rattle.std.specs.Prelude.{◌≡◌, ◌<◌, length, IfOk};
ghost use Rattle.std.specs.List.{All};
ghost use Rattle.np_model.specs.Network.Flows.{Network};
ghost use Rattle.simplex_driver.specs.Homes.{homes_of, AreHomes};
ghost use Rattle.simplex_driver.specs.Store.{written, IsKept};

use crate::forest::Forest;
use np_frac::Memory;
use np_model::Piece;
use quasi_tree::Quasi;
use std::alloc::Global;

// Writes where the nodes of the piece are at home.
fn write_homes(homes: &mut [u32], piece: &Quasi)
    requires some { 0 < length piece.now.lists.nodes }
    requires within { All (λ n. n.0 < length homes.old) piece.now.lists.nodes }
    ensures { homes.new ≡ written (homes_of piece.now.lists) homes.old }
{
    let least = piece.least();
    for (node, _) in &piece.lists().nodes.items {
        homes[*node as usize] = least;
    }
}

impl Forest {
    /// The home of each node: the least node of its piece, which is the number of that piece's slot. Takes time in proportion to the nodes.
    pub(crate) fn homes(&self, alloc: Global) -> Result<Vec<u32>, Memory>
        requires { (net : Network) × IsKept net self.now }
        ensures { IfOk result (λ homes. AreHomes self.now.slots.items homes.items) }
    {
        let mut homes = vec![in alloc; 0; self.slots.len()]?;
        for node in 0..self.slots.len() {
            if let Some(piece) = &self.slots[node] {
                write_homes(&mut homes, piece);
            }
        }
        Ok(homes)
    }
}
