//! Supplies as records give them.

use np_frac::Frac;

/// An amount that a record gives to a node, in one period or, with `None`, in every period.
#[derive(Clone, Copy, PartialEq, Eq)]
pub(crate) struct Given {
    pub node: u32,
    pub period: Option<u32>,
    pub amount: Frac,
}
