//! Whether a plan fits a scheme, tested.

ghost use Rattle.std.specs.Prelude.{◌≡◌, ◌↔◌, ◌<◌, IsTrue, IfSome, IsSome, IsSomeAnd, length};
ghost use Rattle.std.specs.List.{All};
ghost use Rattle.np_model.specs.declared.log.Mark.TheVariants as mark;
ghost use Rattle.np_model.specs.declared.plan.Verdict.{Verdict as TheVerdict};
ghost use Rattle.np_model.specs.Scheme.Plans.{staged};
ghost use Rattle.np_model.specs.Scheme.Fits.{IsShortNumber, LogFits, PlaceFits, FitsAs, PlanFits};
ghost use Rattle.np_model.specs.Steps.Tests.{EntryFits};

use crate::log::{Entry, Log, Mark};
use crate::plan::{Plan, Verdict};
use crate::rows::{Overflow, Place, Row};
use crate::scheme::Scheme;

// Whether a number has at most nine digits.
fn is_short(number: u32) -> bool
    ensures { IsTrue result ↔ IsShortNumber number }
{
    number < 1_000_000_000
}

fn is_none_or_short(number: Option<u32>) -> bool
    ensures { IsTrue result ↔ IfSome number IsShortNumber }
{
    match number {
        Some(number) => is_short(number),
        None => true,
    }
}

fn is_some_and_short(number: Option<u32>) -> bool
    ensures { IsTrue result ↔ IsSomeAnd number IsShortNumber }
{
    match number {
        Some(number) => is_short(number),
        None => false,
    }
}

fn entry_fits(entry: Entry) -> bool
    ensures { IsTrue result ↔ EntryFits entry }
{
    is_short(entry.enter) && is_short(entry.leave) && entry.leave_at != Mark::Basic
}

fn entries_fit(entries: &[Entry]) -> bool
    ensures { IsTrue result ↔ All EntryFits entries.now }
{
    for i in 0..entries.len() {
        if !entry_fits(entries[i]) {
            return false;
        }
    }
    true
}

fn log_fits(log: &Log) -> bool
    ensures { IsTrue result ↔ LogFits log.now }
{
    let entries = log.entries.as_slice();
    is_none_or_short(log.turned) && entries.len() <= 1_000_000 && entries_fit(entries)
}

fn place_fits(row: Row, place: Place) -> bool
    ensures { IsTrue result ↔ PlaceFits row place }
{
    match place {
        Place::Node(node) => row == Row::A1 && is_short(node),
        Place::Arc(arc) => row != Row::A1 && row != Row::A8 && is_short(arc),
        Place::Turn => row == Row::A3 || row == Row::A7,
        Place::Check(_) => row == Row::A8,
    }
}

fn overflow_fits(overflow: &Option<Overflow>) -> bool
    ensures { IsTrue result ↔ IsSomeAnd overflow.now (λ overflow. PlaceFits overflow.row overflow.place) }
{
    match overflow {
        Some(overflow) => place_fits(overflow.row, overflow.place),
        None => false,
    }
}

// How many staged arcs a scheme has.
fn staged_arcs(scheme: &Scheme) -> usize
    ensures { result ≡ length (staged scheme.now) }
{
    let flows = scheme.flows.as_slice();
    let mut arcs = 0;
    for i in 0..flows.len() {
        arcs += flows[i].kind.periods(scheme.periods) as usize;
    }
    arcs
}

impl Plan {
    /// Whether the plan fits the scheme: the parts that its verdict prints are there, with one amount for each staged arc
    /// and one price for each node in each period; the place of an overflow is one of its row; numbers have at most nine
    /// digits; and the log has at most 1,000,000 pivots, none of which leaves an arc in the basis. Takes time in
    /// proportion to the flows and the log.
    pub fn fits(&self, scheme: &Scheme) -> bool
        ensures { IsTrue result ↔ PlanFits scheme.now self.now }
    {
        let parts = self.verdict.parts();
        let arcs = staged_arcs(scheme);
        (!(parts.cost || parts.gap) || self.amount.is_some())
            && (!parts.arc || is_some_and_short(self.arc))
            && (!parts.overflow || overflow_fits(&self.overflow))
            && (!parts.flows || self.flows.as_slice().len() == arcs)
            && (!parts.prices || self.prices.as_slice().len() == scheme.supply.as_slice().len())
            && (!parts.ray || self.ray.as_slice().len() == arcs)
            && log_fits(&self.log)
    }
}
