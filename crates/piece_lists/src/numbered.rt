//! Ascending lists of what has a number: nodes, basic arcs and marks.

ghost use Rattle.std.specs.Prelude.{◌≡◌, ◌==◌, ◌↔◌, ℕ, map, not, IsTrue, IfOk};
ghost use Rattle.std.specs.List.{filter};
ghost use Rattle.std.specs.List.Sorted.{IsStrictlyIncreasing};
ghost use Rattle.gain_graphs.specs.Arcs.{IsIn};
ghost use Rattle.piece_lists.specs.Merged.{IsMerged, ArePicked, StandsAtPlace};

use np_frac::{Frac, Memory};
use np_model::{Ends, Mark};
use std::alloc::Global;

/// An entry of a list of a piece: a node, a basic arc or a mark.
pub trait Numbered: Copy {
    ghost number_of: { Self → ℕ };

    /// The number of the node or of the arc.
    fn number(&self) -> u32
        ensures { result ≡ number_of self.now };
}

impl Numbered for (u32, Frac) {
    ghost number_of = { λ x. x.0 };

    fn number(&self) -> u32 {
        self.0
    }
}

impl Numbered for (u32, Ends, Frac) {
    ghost number_of = { λ x. x.0 };

    fn number(&self) -> u32 {
        self.0
    }
}

impl Numbered for (u32, Mark) {
    ghost number_of = { λ x. x.0 };

    fn number(&self) -> u32 {
        self.0
    }
}

/// The entries of two ascending lists in ascending order; an entry that stands in both stands in it once. In one pass over both.
pub fn merged<T: Numbered>(alloc: Global, xs: &[T], ys: &[T]) -> Result<Vec<T>, Memory>
    requires first_ascends { IsStrictlyIncreasing (map T.number_of xs.now) }
    requires second_ascends { IsStrictlyIncreasing (map T.number_of ys.now) }
    requires same { (x y : T) → IsIn x xs.now → IsIn y ys.now → T.number_of x ≡ T.number_of y → x ≡ y }
    ensures { IfOk result (λ both. IsMerged T.number_of xs.now ys.now both.items) }
{
    let mut both = Vec::with_capacity(alloc, xs.len().saturating_add(ys.len()))?;
    let mut i = 0;
    let mut j = 0;
    while i < xs.len() && j < ys.len() {
        let x = xs[i];
        let y = ys[j];
        let a = x.number();
        let b = y.number();
        if a < b {
            both.push(x)?;
            i += 1;
            continue;
        }
        if b < a {
            both.push(y)?;
            j += 1;
            continue;
        }
        both.push(x)?;
        i += 1;
        j += 1;
    }
    both.extend_from_slice(&xs[i..])?;
    both.extend_from_slice(&ys[j..])?;
    Ok(both)
}

/// The entries of a list but that with this number.
pub fn without<T: Numbered>(alloc: Global, xs: &[T], number: u32) -> Result<Vec<T>, Memory>
    ensures { IfOk result (λ rest. rest.items ≡ filter (λ x. not (T.number_of x == number)) xs.now) }
{
    let mut rest = Vec::with_capacity(alloc, xs.len())?;
    for x in xs {
        if x.number() != number {
            rest.push(*x)?;
        }
    }
    Ok(rest)
}

// Whether there is an entry at this place, and has this number.
fn stands_at<T: Numbered>(xs: &[T], place: usize, number: u32) -> bool
    ensures { IsTrue result ↔ StandsAtPlace T.number_of xs.now place number }
{
    if place >= xs.len() {
        return false;
    }
    xs[place].number() == number
}

/// The entries of an ascending list that have the numbers of another one, which are all in it. In one pass over both.
pub fn picked<T: Numbered>(alloc: Global, xs: &[T], like: &[T]) -> Result<Vec<T>, Memory>
    requires ascends { IsStrictlyIncreasing (map T.number_of xs.now) }
    requires like_ascends { IsStrictlyIncreasing (map T.number_of like.now) }
    requires has { (n : ℕ) → IsIn n (map T.number_of like.now) → IsIn n (map T.number_of xs.now) }
    ensures { IfOk result (λ picked. ArePicked T.number_of xs.now like.now picked.items) }
{
    let mut picked = Vec::with_capacity(alloc, like.len())?;
    for x in xs {
        if stands_at(like, picked.len(), x.number()) {
            picked.push(*x)?;
        }
    }
    Ok(picked)
}
