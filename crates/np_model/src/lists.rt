//! The list types: each is its `Vec`, and a contract sees the list of its elements.

ghost use Rattle.std.specs.Prelude.{◌≡◌, ◌<◌, ℕ, length, IfOk};
ghost use Rattle.np_frac.specs.Ratio.{zero_ratio};
ghost use Rattle.np_model.specs.Network.Flows.{at};

use crate::arc::{Ends, NetArc};
use crate::log::{Entry, Mark};
use crate::scheme::{Band, Flow};
use np_frac::{Frac, Memory};
use std::alloc::Global;
use std::marker::Model;

/// Fractions in order: one a node, one an arc, as the field that holds them says.
#[derive(Debug, Drop)]
pub struct Fracs {
    pub items: Vec<Frac>,
}

impl Model for Fracs {
    ghost use Rattle.std.specs.Prelude.{List};
    ghost use Rattle.np_frac.specs.Ratio.{Ratio};

    ghost Value = { List Ratio };

    ghost view = { λ list. list.items.items };
}

impl Fracs {
    /// The fractions.
    pub fn as_slice(&self) -> &[Frac]
        ensures { result.now ≡ self.now }
    {
        self.items.as_slice()
    }
}

/// So many fractions, each 0: what amounts, sums and potentials start from.
pub fn zeros(alloc: Global, count: usize) -> Result<Vec<Frac>, Memory>
    ensures long { IfOk result (λ list. length list.items ≡ count) }
    ensures zeros { IfOk result (λ list. (i : ℕ) → i < count → at list.items i ≡ zero_ratio) }
{
    let mut list = Vec::with_capacity(alloc, count)?;
    for _ in 0..count {
        list.push(Frac::whole(0))?;
    }
    Ok(list)
}

/// The bytes of one name.
#[derive(Debug, Drop)]
pub struct Name {
    pub items: Vec<u8>,
}

impl Model for Name {
    ghost use Rattle.std.specs.Prelude.{List, ℕ};

    ghost Value = { List ℕ };

    ghost view = { λ name. name.items.items };
}

impl Name {
    /// The bytes.
    pub fn as_slice(&self) -> &[u8]
        ensures { result.now ≡ self.now }
    {
        self.items.as_slice()
    }
}

/// Names in order.
#[derive(Debug, Drop)]
pub struct Names {
    pub items: Vec<Name>,
}

impl Model for Names {
    ghost use Rattle.std.specs.Prelude.{List, ℕ};

    ghost Value = { List (List ℕ) };

    ghost view = { λ list. list.items.items };
}

impl Names {
    ghost use Rattle.np_model.specs.Scheme.Names.{name_at};

    /// The names.
    pub fn as_slice(&self) -> &[Name]
        ensures { result.now ≡ self.now }
    {
        self.items.as_slice()
    }

    /// The name with this number, from 0, and the empty name where there is none.
    pub fn name_at(&self, number: usize) -> &[u8]
        ensures { result.now ≡ name_at self.now number }
    {
        let names = self.items.as_slice();
        if number < names.len() {
            names[number].as_slice()
        } else {
            b""
        }
    }
}

/// Arcs in order.
#[derive(Debug, Drop)]
pub struct NetArcs {
    pub items: Vec<NetArc>,
}

impl Model for NetArcs {
    ghost use Rattle.std.specs.Prelude.{List};
    ghost use Rattle.np_model.specs.declared.arc.NetArc.{NetArc};

    ghost Value = { List NetArc };

    ghost view = { λ list. list.items.items };
}

impl NetArcs {
    /// The arcs.
    pub fn as_slice(&self) -> &[NetArc]
        ensures { result.now ≡ self.now }
    {
        self.items.as_slice()
    }
}

/// Bands in order, from the flow's own upper bound outwards.
#[derive(Debug, Drop)]
pub struct Bands {
    pub items: Vec<Band>,
}

impl Model for Bands {
    ghost use Rattle.std.specs.Prelude.{List};
    ghost use Rattle.np_model.specs.declared.scheme.Band.{Band};

    ghost Value = { List Band };

    ghost view = { λ list. list.items.items };
}

impl Bands {
    /// The bands.
    pub fn as_slice(&self) -> &[Band]
        ensures { result.now ≡ self.now }
    {
        self.items.as_slice()
    }
}

/// Flows in order.
#[derive(Debug, Drop)]
pub struct Flows {
    pub items: Vec<Flow>,
}

impl Model for Flows {
    ghost use Rattle.std.specs.Prelude.{List};
    ghost use Rattle.np_model.specs.declared.scheme.Flow.{Flow};

    ghost Value = { List Flow };

    ghost view = { λ list. list.items.items };
}

impl Flows {
    ghost use Rattle.np_model.specs.Scheme.Names.{name_at, flow_names};

    /// The flows.
    pub fn as_slice(&self) -> &[Flow]
        ensures { result.now ≡ self.now }
    {
        self.items.as_slice()
    }

    /// The name of the flow with this number, from 0, and the empty name where there is none.
    pub fn name_at(&self, number: usize) -> &[u8]
        ensures { result.now ≡ name_at (flow_names self.now) number }
    {
        let flows = self.items.as_slice();
        if number < flows.len() {
            flows[number].name.as_slice()
        } else {
            b""
        }
    }
}

/// Pivots in order.
#[derive(Debug, Drop)]
pub struct Entries {
    pub items: Vec<Entry>,
}

impl Model for Entries {
    ghost use Rattle.std.specs.Prelude.{List};
    ghost use Rattle.np_model.specs.declared.log.Entry.{Entry};

    ghost Value = { List Entry };

    ghost view = { λ list. list.items.items };
}

impl Entries {
    /// The pivots.
    pub fn as_slice(&self) -> &[Entry]
        ensures { result.now ≡ self.now }
    {
        self.items.as_slice()
    }
}

/// The ends of arcs in order.
#[derive(Debug, Drop)]
pub struct EndsList {
    pub items: Vec<Ends>,
}

impl Model for EndsList {
    ghost use Rattle.std.specs.Prelude.{List};
    ghost use Rattle.np_model.specs.declared.arc.Ends.{Ends};

    ghost Value = { List Ends };

    ghost view = { λ list. list.items.items };
}

impl EndsList {
    /// The ends.
    pub fn as_slice(&self) -> &[Ends]
        ensures { result.now ≡ self.now }
    {
        self.items.as_slice()
    }
}

/// The marks of arcs in order.
#[derive(Debug, Drop)]
pub struct Marks {
    pub items: Vec<Mark>,
}

impl Model for Marks {
    ghost use Rattle.std.specs.Prelude.{List};
    ghost use Rattle.np_model.specs.declared.log.Mark.{Mark};

    ghost Value = { List Mark };

    ghost view = { λ list. list.items.items };
}

impl Marks {
    /// The marks.
    pub fn as_slice(&self) -> &[Mark]
        ensures { result.now ≡ self.now }
    {
        self.items.as_slice()
    }
}

/// Numbers of arcs or nodes, in order.
#[derive(Debug, Drop)]
pub struct Nums {
    pub items: Vec<u32>,
}

impl Model for Nums {
    ghost use Rattle.std.specs.Prelude.{List, ℕ};

    ghost Value = { List ℕ };

    ghost view = { λ list. list.items.items };
}

impl Nums {
    /// The numbers.
    pub fn as_slice(&self) -> &[u32]
        ensures { result.now ≡ self.now }
    {
        self.items.as_slice()
    }
}

/// Arcs by number, in order, each with an amount.
#[derive(Debug, Drop)]
pub struct Steps {
    pub items: Vec<(u32, Frac)>,
}

impl Model for Steps {
    ghost use Rattle.std.specs.Prelude.{List, ℕ};
    ghost use Rattle.np_frac.specs.Ratio.{Ratio};

    ghost Value = { List (ℕ × Ratio) };

    ghost view = { λ list. list.items.items };
}

impl Steps {
    /// The arcs with their amounts.
    pub fn as_slice(&self) -> &[(u32, Frac)]
        ensures { result.now ≡ self.now }
    {
        self.items.as_slice()
    }
}
