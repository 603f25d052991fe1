//! Names, numbered in the order in which they were defined.

ghost use Rattle.std.specs.Prelude.{◌≡◌, ◌↔◌, ◌<◌, ◌++◌, ◌∷◌, [], IfSome, IsTrue, OnOk, OnErr, length, map, slice_get};
ghost use Rattle.np_records.specs.Names.{place_of};

use indexmap::IndexSet;
use np_frac::Memory;
use std::alloc::Global;
use std::marker::Model;

/// The names that were defined, none of them twice. A contract sees them as the list of the names
/// in the order in which they were defined. Names are found by their hashes.
#[derive(Drop)]
pub struct NameTable {
    names: IndexSet<Vec<u8>>,
}

impl Model for NameTable {
    ghost use Rattle.std.specs.Prelude.{ℕ, List, map};

    ghost Value = { List (List ℕ) };

    ghost view = { λ s. map (λ k. k.items) s.names.keys };
}

impl NameTable {
    /// No name.
    pub fn new(alloc: Global) -> NameTable
        ensures { result ≡ [] }
    {
        NameTable {
            names: IndexSet::new(alloc),
        }
    }

    /// How many names there are.
    pub fn len(&self) -> usize
        ensures { result ≡ length self.now }
    {
        self.names.len()
    }

    /// Whether there is no name.
    pub fn is_empty(&self) -> bool
        ensures { IsTrue result ↔ (self.now ≡ []) }
    {
        self.names.is_empty()
    }

    /// The number of a name, from 0, or `None` where it was not defined.
    pub fn index_of(&self, name: &[u8]) -> Option<usize>
        ensures place { result ≡ place_of self.now name.now }
        ensures within { IfSome result (λ index. index < length self.now) }
    {
        self.names.get_index_of(name)
    }

    /// The name with this number.
    pub fn name_at(&self, index: usize) -> &[u8]
        requires { index < length self.now }
        ensures name { slice_get self.now index ≡ Some result.now }
        ensures place { place_of self.now result.now ≡ Some index }
    {
        self.names.as_slice()[index].as_slice()
    }

    /// Defines a name, which gets the next number. `Memory` comes where memory ran out, and the
    /// names are then unchanged.
    pub fn push(&mut self, alloc: Global, name: &[u8]) -> Result<(), Memory>
        requires { place_of self.old name.now ≡ None }
        ensures ok { OnOk result (self.new ≡ self.old ++ name.now ∷ []) }
        ensures err { OnErr result (self.new ≡ self.old) }
    {
        let name = Vec::from_slice(alloc, name)?;
        self.names.insert(name)?;
        Ok(())
    }
}
