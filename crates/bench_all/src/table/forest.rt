//! The forest of the table: 16 nodes, each alone.

ghost use Rattle.std.specs.Prelude.{◌≡◌, map, length, IfOk};
ghost use Rattle.bench_all.specs.Visits.{IsVisitor, alone, alones};

use crate::nodes::{drains_of, supplies_of};
use crate::table::alone::Alone;
use crate::table::round::SLOTS;
use np_frac::Memory;
use np_model::{EndsList, Fracs, FullNet, Net, NetArcs, Phase};
use std::alloc::{AllocError, Global};
use tree_table::{Pass, TreeTable};

// Nodes with an artificial drain each, and no other arcs.
fn network_of(alloc: Global) -> Result<FullNet, AllocError>
    ensures { IfOk result (λ full. length full.net.supply ≡ 16) }
{
    let supply = supplies_of(alloc, SLOTS)?;
    let arcs = NetArcs {
        items: Vec::new(alloc),
    };
    let drains = drains_of(alloc, SLOTS)?;
    Ok(FullNet {
        net: Net {
            supply: Fracs { items: supply },
            arcs,
        },
        artificial: EndsList { items: drains },
    })
}

/// Each node alone.
pub(crate) fn pieces_of(alloc: Global) -> Result<Vec<Alone>, AllocError>
    ensures { IfOk result (λ pieces. map (λ p. alone p.node) pieces.items ≡ alones 0 16) }
{
    let mut pieces = Vec::new(alloc);
    for node in 0..SLOTS {
        pieces.push(Alone { node })?;
    }
    Ok(pieces)
}

/// The table of these pieces, and its first pass.
pub(crate) fn table_of(alloc: Global) -> Result<(TreeTable<Alone>, Pass<Alone>), Memory>
    ensures { IfOk result (λ made. IsVisitor made.0 made.1 × (made.1.view.shares ≡ 64)) }
{
    let full = network_of(alloc)?;
    let pieces = pieces_of(alloc)?;
    match TreeTable::set_up(alloc, &full, Phase::One, pieces, 0) {
        Ok(made) => Ok(made),
        Err(_) => Err(Memory),
    }
}

/// How many of these pieces stand at the place of their node.
pub(crate) fn home(pieces: &[Alone]) -> u32 {
    let mut count = 0u32;
    for slot in 0..SLOTS {
        if let Some(piece) = pieces.get(slot as usize)
            && piece.node == slot
        {
            count = count.wrapping_add(1);
        }
    }
    count
}
