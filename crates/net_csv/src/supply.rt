//! The supply of a scheme, from the amounts that records give.

ghost use Rattle.std.specs.Prelude.{◌≡◌, ◌*◌, ◌<◌, ◌≤◌, ◌∷◌, List, IfOk, map};
ghost use Rattle.std.specs.List.{All, range_with_len};
ghost use Rattle.net_csv.specs.declared.given.Given.{Given as TheGiven};
ghost use Rattle.net_csv.specs.Network.{supply_from};
ghost use Rattle.net_csv.specs.Steps.Tables.{IsGiven};
ghost use Rattle.net_csv.specs.Steps.Supply.{HasSupplyPlaces, IsFilled};

use crate::given::Given;
use np_frac::{Frac, Memory};
use np_model::Fracs;
use std::alloc::Global;
use std::vec;

// What the amounts that were taken give, which are taken from the last one backwards: `each` has a place for each node
// in each period, as a scheme's supply, and `all` one for each node, for what is given to it in every period.
#[derive(Drop)]
struct Amounts {
    periods: u32,
    nodes: usize,
    each: Vec<Option<Frac>>,
    all: Vec<Option<Frac>>,
}

impl Amounts {
    // Takes an amount that is given before all those that were taken: it counts where none of them covers its place.
    fn take(&mut self, given: &Given)
        requires places { HasSupplyPlaces self.old }
        requires given { IsGiven self.old.nodes self.old.periods given.now }
        ensures filled { (later : List TheGiven) → IsFilled self.old later → IsFilled self.new (given.now ∷ later) }
        ensures periods { self.new.periods ≡ self.old.periods }
        ensures nodes { self.new.nodes ≡ self.old.nodes }
    {
        let node = given.node as usize;
        if self.all[node].is_some() {
            return;
        }
        match given.period {
            None => self.all[node] = Some(given.amount),
            Some(period) => {
                let place = (period as usize - 1) * self.nodes + node;
                if self.each[place].is_none() {
                    self.each[place] = Some(given.amount);
                }
            }
        }
    }

    // The amount at a place: what is given there, else what is given in every period, else 0.
    fn at(&self, place: usize) -> Frac
        requires places { HasSupplyPlaces self.now }
        requires within { place < self.now.periods * self.now.nodes }
        ensures { (supplies : List TheGiven) → IsFilled self.now supplies → result ≡ supply_from self.now.nodes supplies place }
    {
        let given = match self.each[place] {
            None => self.all[place % self.nodes],
            Some(amount) => Some(amount),
        };
        given.unwrap_or(Frac::whole(0))
    }
}

// Takes all amounts.
fn take_all(
    alloc: Global,
    periods: u32,
    nodes: usize,
    supplies: &[Given],
) -> Result<Amounts, Memory>
    requires few { nodes * periods ≤ 20000 }
    requires given { All (IsGiven nodes periods) supplies.now }
    ensures filled { IfOk result (λ amounts. IsFilled amounts supplies.now) }
    ensures periods { IfOk result (λ amounts. amounts.periods ≡ periods) }
    ensures nodes { IfOk result (λ amounts. amounts.nodes ≡ nodes) }
{
    let each = vec![in alloc; None; nodes * periods as usize]?;
    let all = vec![in alloc; None; nodes]?;
    let mut amounts = Amounts {
        periods,
        nodes,
        each,
        all,
    };
    for place in (0..supplies.len()).rev() {
        amounts.take(&supplies[place]);
    }
    Ok(amounts)
}

/// The supply where these amounts are given in order, of which the last one that covers a place counts. It takes time
/// and memory in proportion to the amounts and the places.
pub(crate) fn supply_of(
    alloc: Global,
    periods: u32,
    nodes: usize,
    supplies: &[Given],
) -> Result<Fracs, Memory>
    requires few { nodes * periods ≤ 20000 }
    requires given { All (IsGiven nodes periods) supplies.now }
    ensures { IfOk result (λ supply. supply ≡ map (supply_from nodes supplies.now) (range_with_len 0 (periods * nodes))) }
{
    let amounts = take_all(alloc, periods, nodes, supplies)?;
    let mut items = Vec::new(alloc);
    for place in 0..nodes * periods as usize {
        items.push(amounts.at(place))?;
    }
    Ok(Fracs { items })
}
