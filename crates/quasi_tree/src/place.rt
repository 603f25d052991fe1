//! Look-ups in ascending lists, by binary search, and other values beside the numbers of a list.

ghost use Rattle.std.specs.Prelude.{◌≡◌, length, map};
ghost use Rattle.std.specs.List.{zip};
ghost use Rattle.std.specs.List.Sorted.{IsStrictlyIncreasing};
ghost use Rattle.quasi_tree.specs.Place.{IsPlace};

use np_frac::Frac;
use np_model::{Ends, Mark};

/// The place of a node in an ascending list.
pub(crate) fn node_place(nodes: &[(u32, Frac)], node: u32) -> Option<usize>
    requires { IsStrictlyIncreasing (map (λ n. n.0) nodes.now) }
    ensures { IsPlace (λ n. n.0) nodes.now node result }
{
    nodes.binary_search_by_key(&node, |entry| entry.0).ok()
}

/// The place of a basic arc in an ascending list.
pub(crate) fn basic_place(basics: &[(u32, Ends, Frac)], arc: u32) -> Option<usize>
    requires { IsStrictlyIncreasing (map (λ b. b.0) basics.now) }
    ensures { IsPlace (λ b. b.0) basics.now arc result }
{
    basics.binary_search_by_key(&arc, |entry| entry.0).ok()
}

/// The place of an arc in an ascending list of marks.
pub(crate) fn mark_place(marks: &[(u32, Mark)], arc: u32) -> Option<usize>
    requires { IsStrictlyIncreasing (map (λ m. m.0) marks.now) }
    ensures { IsPlace (λ m. m.0) marks.now arc result }
{
    marks.binary_search_by_key(&arc, |entry| entry.0).ok()
}

/// Puts these values beside the numbers of a list, in order.
pub(crate) fn put_values(entries: &mut Vec<(u32, Frac)>, values: &[Frac])
    requires { length values.now ≡ length entries.old.items }
    ensures items { entries.new.items ≡ zip (map (λ n. n.0) entries.old.items) values.now }
    ensures length { entries.new.len ≡ entries.old.len }
    ensures capacity { entries.new.cap ≡ entries.old.cap }
{
    for place in 0..values.len() {
        entries[place].1 = values[place];
    }
}
