//! The reduced costs of the flows.

ghost use Rattle.std.specs.Prelude.{◌≡◌, length, map};
ghost use Rattle.std.specs.List.{All, zip};
ghost use Rattle.np_model.specs.Scheme.Segments.{segments, segments_beyond};
ghost use Rattle.cert_checker.specs.Walk.{reduced_of, reduced_clause, first_refusal, goes_on_unless};
ghost use Rattle.cert_checker.specs.Steps.Parts.{EndsFit, as_segment, is_beside, has_wrong_sign, side_test};
ghost use Rattle.np_model.specs.Network.Arcs.{AreNodes};
ghost use Rattle.cert_checker.specs.Steps.Arcs.{as_stage};

use crate::answer::{CheckRefusal, Clause};
use crate::segment::{Segment, segment_beyond};
use crate::staged::StagedArc;
use np_frac::{Frac, Past};
use np_model::{CheckRow, Ends};

/// A side of an amount: towards less, or towards more.
#[derive(Clone, Copy, Debug, PartialEq, Eq)]
pub enum Side {
    Left,
    Right,
}

/// The reduced cost at these prices of an arc with these ends and this slope.
pub fn reduced_of(prices: &[Frac], ends: &Ends, slope: Frac) -> Result<Frac, Past>
    requires { AreNodes (length prices.now) ends.now }
    ensures { result ≡ reduced_of prices.now ends.now slope }
{
    let first = prices[ends.tail() as usize];
    let second = prices[ends.head() as usize];
    ends.reduced_cost(slope, first, second)
}

// Whether a segment is the one on this side of the amount: on the left it begins below the amount and ends no lower, on the
// right it begins no higher and ends above the amount.
fn is_beside(side: Side, amount: Frac, segment: &Segment) -> bool
    ensures { result ≡ is_beside side amount (as_segment segment.now) }
{
    match side {
        Side::Left => segment.start.is_below(amount) && segment.end.is_at_least(amount),
        Side::Right => !amount.is_below(segment.start) && segment.end.is_above(amount),
    }
}

// Whether a reduced cost may not stand on this side: above 0 on the left, where the flow could fall, or below 0 on the right,
// where it could rise.
fn has_wrong_sign(side: Side, reduced: Frac) -> bool
    ensures { result ≡ has_wrong_sign side reduced }
{
    let zero = Frac::whole(0);
    match side {
        Side::Left => zero.is_below(reduced),
        Side::Right => reduced.is_below(zero),
    }
}

// Whether the reduced cost in a segment has the sign that the amount asks for on this side.
fn check_segment(
    side: Side,
    prices: &[Frac],
    arc: &StagedArc,
    amount: Frac,
    segment: &Segment,
) -> Result<(), CheckRefusal>
    requires { AreNodes (length prices.now) (as_stage arc.now).ends }
    ensures { result ≡ goes_on_unless (side_test side prices.now (as_stage arc.now) amount (as_segment segment.now)) }
{
    if !is_beside(side, amount, segment) {
        return Ok(());
    }
    match reduced_of(prices, &arc.ends(), segment.slope) {
        Ok(reduced) => {
            if has_wrong_sign(side, reduced) {
                return Err(arc.reject(Clause::Reduced));
            }
            Ok(())
        }
        Err(past) => Err(CheckRefusal::Past {
            row: CheckRow::C3,
            past,
        }),
    }
}

// Whether the reduced costs in the segments of a flow have the signs that its amount asks for on this side.
fn check_side(
    side: Side,
    prices: &[Frac],
    arc: &StagedArc,
    amount: Frac,
) -> Result<(), CheckRefusal>
    requires joined { AreNodes (length prices.now) (as_stage arc.now).ends }
    requires ends { EndsFit (as_stage arc.now) }
    ensures { result ≡ goes_on_unless (first_refusal (side_test side prices.now (as_stage arc.now) amount) (segments (as_stage arc.now))) }
{
    let flow = arc.flow;
    let first = Segment {
        start: flow.lower,
        end: flow.upper,
        slope: flow.cost,
    };
    check_segment(side, prices, arc, amount, &first)?;
    check_beyond(side, prices, arc, amount)
}

// Whether they have them in the segments beyond the first.
fn check_beyond(
    side: Side,
    prices: &[Frac],
    arc: &StagedArc,
    amount: Frac,
) -> Result<(), CheckRefusal>
    requires joined { AreNodes (length prices.now) (as_stage arc.now).ends }
    requires ends { EndsFit (as_stage arc.now) }
    ensures { result ≡ goes_on_unless (first_refusal (side_test side prices.now (as_stage arc.now) amount) (segments_beyond arc.now.flow.now.upper arc.now.flow.now.bands)) }
{
    let bands = arc.flow.bands.as_slice();
    let mut end = arc.flow.upper;
    for i in 0..bands.len() {
        match segment_beyond(end, bands[i]) {
            Some(segment) => {
                check_segment(side, prices, arc, amount, &segment)?;
                end = segment.end;
            }
            None => return Ok(()),
        }
    }
    Ok(())
}

// Whether the reduced costs of a flow have the signs that its amount asks for: first on its left, then on its right.
fn check_arc(prices: &[Frac], arc: &StagedArc, amount: Frac) -> Result<(), CheckRefusal>
    requires joined { AreNodes (length prices.now) (as_stage arc.now).ends }
    requires ends { EndsFit (as_stage arc.now) }
    ensures { result ≡ goes_on_unless (reduced_clause prices.now (as_stage arc.now, amount)) }
{
    check_side(Side::Left, prices, arc, amount)?;
    check_side(Side::Right, prices, arc, amount)
}

/// Whether the prices show all amounts optimal: the first flow of which they do not, or at which an operation overflows.
pub fn check_reduced(
    prices: &[Frac],
    arcs: &[StagedArc],
    amounts: &[Frac],
) -> Result<(), CheckRefusal>
    requires long { length amounts.now ≡ length arcs.now }
    requires joined { All (λ arc. AreNodes (length prices.now) (as_stage arc).ends) arcs.now }
    requires ends { All EndsFit (map as_stage arcs.now) }
    ensures { result ≡ goes_on_unless (first_refusal (reduced_clause prices.now) (zip (map as_stage arcs.now) amounts.now)) }
{
    for i in 0..arcs.len() {
        check_arc(prices, &arcs[i], amounts[i])?;
    }
    Ok(())
}
