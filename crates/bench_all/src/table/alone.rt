//! The least piece that there can be.

use np_frac::Frac;
use np_model::{Mark, Piece};

/// A node alone, with a drain of the same number.
#[derive(Debug, Drop)]
pub(crate) struct Alone {
    pub node: u32,
}

impl Piece for Alone {
    ghost use Rattle.bench_all.specs.Visits.{alone};

    ghost lists = { λ p. alone p.node };

    fn least(&self) -> u32 {
        self.node
    }

    fn size(&self) -> u32 {
        1
    }

    fn node_at(&self, _place: u32) -> u32 {
        self.node
    }

    fn contains(&self, node: u32) -> bool {
        node == self.node
    }

    fn potential_of(&self, _node: u32) -> Frac {
        Frac::whole(0)
    }

    fn mark_of(&self, _arc: u32) -> Mark {
        Mark::Basic
    }

    fn flow_of(&self, _arc: u32) -> Frac {
        Frac::whole(0)
    }
}
