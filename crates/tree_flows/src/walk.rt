//! The amounts on the basic arcs of a piece.

ghost use Rattle.std.specs.Prelude.{◌≡◌, ◌≢◌, ◌<◌, ◌^◌, ℕ, length, slice_index_or, Ok, Err, MatchResult, IfOk};
ghost use Rattle.std.specs.List.{All};
ghost use Rattle.tree_search.specs.Search.{IsIncidence};
ghost use Rattle.tree_search.specs.Places.{loose};
ghost use Rattle.tree_flows.specs.Along.{HaveGains, IsWithin, AreJoined, AreStill};
ghost use Rattle.tree_flows.specs.Walks.{HasDivisor, close_end, close_round, close_extra, walk_in, CanClose};

use crate::cycle::{Round, are_nothing, turn_amounts};
use crate::inwards::{gather_amounts, sums_round};
use crate::refusal::at_arc;
use crate::sums::Rows;
use crate::terms::turn;
use np_frac::{Frac, Past};
use np_model::{Overflow, Row};
use tree_search::{ExtraArc, Step, node_of};

// The amounts with that on the extra arc, which has one end.
fn end_amounts(rows: &Rows<'_>, arc: u32, amounts: Vec<Frac>) -> Result<Vec<Frac>, Past>
    requires lists { IsIncidence rows.now.joints.now (length rows.now.nodes.now) rows.now.incidence.now }
    requires long { length rows.now.joints.now ≡ length rows.now.basics.now }
    requires one_each { length amounts.items ≡ length rows.now.basics.now }
    requires few { length rows.now.basics.now < 2 ^ 32 }
    requires gains { HaveGains rows.now.basics.now }
    requires inside { arc < length rows.now.basics.now }
    requires below { (slice_index_or rows.now.joints.now arc loose).from < length rows.now.nodes.now }
    ensures kept { IfOk result (λ found. length found.items ≡ length rows.now.basics.now) }
    ensures made { let answer = close_end rows.now.nodes.now rows.now.basics.now rows.now.joints.now rows.now.before rows.now.entering.now arc amounts.items in
        MatchResult result (λ found. answer ≡ Ok found.items) (λ past. answer ≡ Err past) }
{
    let mut amounts = amounts;
    let place = rows.joints[arc as usize].from;
    let sum = rows.sum_at(amounts.as_slice(), place)?;
    let amount = turn(rows.basics[arc as usize].1, node_of(rows.nodes, place), sum)?;
    amounts[arc as usize] = amount;
    Ok(amounts)
}

// The amounts with those on the arcs of the cycle. Where nothing comes to any of its nodes they stay 0.
fn cycle_amounts(
    rows: &Rows<'_>,
    cycle: &[Step],
    amounts: Vec<Frac>,
    sums: Vec<Frac>,
) -> Result<Vec<Frac>, Overflow>
    requires lists { IsIncidence rows.now.joints.now (length rows.now.nodes.now) rows.now.incidence.now }
    requires long { length rows.now.joints.now ≡ length rows.now.basics.now }
    requires one_each { length amounts.items ≡ length rows.now.basics.now }
    requires each_node { length sums.items ≡ length rows.now.nodes.now }
    requires few { length rows.now.basics.now < 2 ^ 32 }
    requires gains { HaveGains rows.now.basics.now }
    requires some { 0 < length cycle.now }
    requires within { All (λ step. IsWithin rows.now.nodes.now rows.now.basics.now step) cycle.now }
    requires apart { HasDivisor rows.now.nodes.now rows.now.basics.now cycle.now }
    ensures kept { IfOk result (λ found. length found.items ≡ length rows.now.basics.now) }
    ensures made { let answer = close_round rows.now.nodes.now rows.now.basics.now rows.now.joints.now rows.now.before rows.now.entering.now cycle.now sums.items amounts.items in
        MatchResult result (λ found. answer ≡ Ok found.items) (λ overflow. answer ≡ Err overflow) }
{
    let found = match sums_round(rows, cycle, amounts.as_slice(), sums) {
        Ok(found) => found,
        Err(past) => return Err(at_arc(rows.entering.arc, Row::A4, past)),
    };
    if are_nothing(cycle, found.as_slice()) {
        return Ok(amounts);
    }
    let round = Round {
        nodes: rows.nodes,
        basics: rows.basics,
        sums: found.as_slice(),
    };
    turn_amounts(&round, rows.entering.arc, cycle[0], &cycle[1..], amounts)
}

// The amounts with those of the extra arc.
fn extra_amounts(
    rows: &Rows<'_>,
    extra: &ExtraArc,
    amounts: Vec<Frac>,
    sums: Vec<Frac>,
) -> Result<Vec<Frac>, Overflow>
    requires lists { IsIncidence rows.now.joints.now (length rows.now.nodes.now) rows.now.incidence.now }
    requires long { length rows.now.joints.now ≡ length rows.now.basics.now }
    requires one_each { length amounts.items ≡ length rows.now.basics.now }
    requires each_node { length sums.items ≡ length rows.now.nodes.now }
    requires few { length rows.now.basics.now < 2 ^ 32 }
    requires gains { HaveGains rows.now.basics.now }
    requires closes { CanClose rows.now.nodes.now rows.now.basics.now rows.now.joints.now extra.now }
    ensures kept { IfOk result (λ found. length found.items ≡ length rows.now.basics.now) }
    ensures made { let answer = close_extra rows.now.nodes.now rows.now.basics.now rows.now.joints.now rows.now.before rows.now.entering.now extra.now sums.items amounts.items in
        MatchResult result (λ found. answer ≡ Ok found.items) (λ overflow. answer ≡ Err overflow) }
{
    match extra {
        ExtraArc::OneEnd { arc } => match end_amounts(rows, *arc, amounts) {
            Ok(found) => Ok(found),
            Err(past) => Err(at_arc(rows.entering.arc, Row::A4, past)),
        },
        ExtraArc::Round { cycle } => cycle_amounts(rows, cycle.as_slice(), amounts, sums),
    }
}

// The amounts on all basic arcs of a piece: on the links off the extra arc from the far nodes inwards, and then on that.
pub(crate) fn amounts_on(
    rows: &Rows<'_>,
    steps: &[Step],
    extra: &ExtraArc,
    amounts: Vec<Frac>,
    sums: Vec<Frac>,
    reached: Vec<bool>,
) -> Result<Vec<Frac>, Overflow>
    requires lists { IsIncidence rows.now.joints.now (length rows.now.nodes.now) rows.now.incidence.now }
    requires long { length rows.now.joints.now ≡ length rows.now.basics.now }
    requires one_each { length amounts.items ≡ length rows.now.basics.now }
    requires each_node { length sums.items ≡ length rows.now.nodes.now }
    requires few { length rows.now.basics.now < 2 ^ 32 }
    requires gains { HaveGains rows.now.basics.now }
    requires within { All (λ step. IsWithin rows.now.nodes.now rows.now.basics.now step) steps.now }
    requires joined { AreJoined rows.now.joints.now steps.now }
    requires one_mark { length reached.items ≡ length rows.now.nodes.now }
    requires still { AreStill rows.now.joints.now amounts.items reached.items }
    requires closes { CanClose rows.now.nodes.now rows.now.basics.now rows.now.joints.now extra.now }
    ensures kept { IfOk result (λ found. length found.items ≡ length rows.now.basics.now) }
    ensures made { let answer = walk_in rows.now.nodes.now rows.now.basics.now rows.now.joints.now rows.now.before rows.now.entering.now steps.now extra.now sums.items amounts.items in
        MatchResult result (λ found. answer ≡ Ok found.items) (λ overflow. answer ≡ Err overflow) }
{
    match gather_amounts(rows, steps, amounts, reached) {
        Ok(found) => extra_amounts(rows, extra, found, sums),
        Err(past) => Err(at_arc(rows.entering.arc, Row::A4, past)),
    }
}
