//! The arcs of a piece, by places in its lists.

/// The ends of an arc, by places in the list of nodes. An arc with one end has its node twice.
#[derive(Clone, Copy, Debug, PartialEq, Eq)]
pub struct Joint {
    pub from: u32,
    pub to: u32,
}

/// An arc as a search goes over it, away from the extra arc: its place in the list of arcs, and in the list of nodes the place of the
/// node that it is left from and of the one that it leads to.
#[derive(Clone, Copy, Debug, PartialEq, Eq)]
pub struct Step {
    pub arc: u32,
    pub near: u32,
    pub far: u32,
}

/// The extra arc of a piece, by places: an arc with one end, or the cycle from its least node along the lower of its two arcs there.
#[derive(Debug, Drop)]
pub enum ExtraArc {
    OneEnd { arc: u32 },
    Round { cycle: Vec<Step> },
}
