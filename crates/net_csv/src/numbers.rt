//! The numbers of a flow, and whether they fit each other.

ghost use Rattle.std.specs.Prelude.{◌≡◌, ◌<◌, ◌≤◌, ◌+◌, ◌*◌, not};
ghost use Rattle.csv.specs.Records.{fields_of};
ghost use Rattle.np_model.specs.Scheme.Kinds.{periods_of};
ghost use Rattle.net_csv.specs.declared.refused.Code.TheVariants as code;
ghost use Rattle.np_records.specs.Faults.{Reads, unless};
ghost use Rattle.np_model.specs.Network.Arcs.{is_at_most};
ghost use Rattle.net_csv.specs.Faults.{numbers_fault, nodes_fault, arcs_fault};
ghost use Rattle.net_csv.specs.Steps.Tables.{numbers_of};

use crate::fields::{amount, upper};
use crate::refused::Code;
use np_frac::Frac;
use np_model::{FlowKind, Upper};
use np_records::{ByteRecord, field};

// How many nodes, and how many arcs, there are at most over all periods.
const MAX_NODES: usize = 20_000;

const MAX_ARCS: usize = 100_000;

/// The bounds of a flow, and what a unit of it costs.
#[derive(Clone, Copy)]
pub(crate) struct Numbers {
    pub lower: Frac,
    pub upper: Upper,
    pub cost: Frac,
}

/// Reads the numbers of a flow, the first of which stands at this place.
pub(crate) fn read_numbers(row: &ByteRecord, place: usize) -> Result<Numbers, Code>
    requires { place ≤ 5 }
    ensures { Reads result (numbers_fault (fields_of row.now) place) (numbers_of (fields_of row.now) place) }
{
    let lower = amount(field(row, place))?;
    let upper = upper(field(row, place + 1))?;
    let cost = amount(field(row, place + 2))?;
    Ok(Numbers { lower, upper, cost })
}

/// Looks whether the lower bound is at most the upper one.
pub(crate) fn bounds(numbers: &Numbers) -> Result<(), Code>
    ensures { Reads result (unless (is_at_most numbers.now.lower numbers.now.upper) code.BadBounds) tt }
{
    if !numbers.upper.is_at_least(numbers.lower) {
        return Err(Code::BadBounds);
    }
    Ok(())
}

/// How many arcs a flow of this kind has over so many periods, without bands.
pub(crate) fn arcs_of(periods: u32, kind: &FlowKind) -> usize
    ensures { result ≡ periods_of periods kind.now }
{
    kind.periods(periods) as usize
}

/// Looks whether so many nodes are not too many.
pub(crate) fn room_of_nodes(periods: u32, nodes: usize) -> Result<(), Code>
    requires periods { periods ≤ 20000 }
    requires nodes { nodes ≤ 20001 }
    ensures { Reads result (nodes_fault periods nodes) tt }
{
    if MAX_NODES < nodes * periods as usize {
        return Err(Code::TooMany);
    }
    Ok(())
}

/// Looks whether so many arcs are not too many.
pub(crate) fn room_of_arcs(arcs: usize) -> Result<(), Code>
    ensures { Reads result (arcs_fault arcs) tt }
{
    if MAX_ARCS < arcs {
        return Err(Code::TooMany);
    }
    Ok(())
}
