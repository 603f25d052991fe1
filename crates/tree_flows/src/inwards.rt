//! Amounts and sums inwards along steps.

ghost use Rattle.std.specs.Prelude.{◌≡◌, ◌<◌, ◌^◌, length, reverse, Ok, Err, MatchResult, IfOk};
ghost use Rattle.std.specs.List.{All};
ghost use Rattle.tree_search.specs.Search.{IsIncidence};
ghost use Rattle.tree_flows.specs.Along.{HaveGains, IsWithin, AreJoined, AreStill, MarksStep, amount_of, gather, gather_sums};

use crate::sums::Rows;
use crate::terms::{is_nothing, turn};
use np_frac::{Frac, Past};
use tree_search::{Step, node_of};

// The amount on the arc of a step, which settles the sum at its far node. Where nothing comes to that it is 0, and no sum is made.
fn amount_over(
    rows: &Rows<'_>,
    amounts: &[Frac],
    reached: &[bool],
    step: Step,
) -> Result<Frac, Past>
    requires lists { IsIncidence rows.now.joints.now (length rows.now.nodes.now) rows.now.incidence.now }
    requires long { length rows.now.joints.now ≡ length rows.now.basics.now }
    requires one_each { length amounts.now ≡ length rows.now.basics.now }
    requires few { length rows.now.basics.now < 2 ^ 32 }
    requires gains { HaveGains rows.now.basics.now }
    requires within { IsWithin rows.now.nodes.now rows.now.basics.now step }
    requires one_mark { length reached.now ≡ length rows.now.nodes.now }
    requires still { AreStill rows.now.joints.now amounts.now reached.now }
    ensures { result ≡ amount_of rows.now.nodes.now rows.now.basics.now rows.now.joints.now rows.now.before rows.now.entering.now.ends rows.now.entering.now.amount amounts.now step }
{
    if !rows.is_reached(reached, step.far) {
        return Ok(Frac::whole(0));
    }
    let sum = rows.sum_at(amounts, step.far)?;
    turn(
        rows.basics[step.arc as usize].1,
        node_of(rows.nodes, step.far),
        sum,
    )
}

// The marks with those of the ends of a step's arc, unless its amount is 0.
fn with_marks(reached: Vec<bool>, step: Step, amount: Frac) -> Vec<bool>
    requires near { step.near < length reached.items }
    requires far { step.far < length reached.items }
    ensures kept { length result.items ≡ length reached.items }
    ensures marks { MarksStep reached.items step amount result.items }
{
    let mut reached = reached;
    if !is_nothing(amount) {
        reached[step.near as usize] = true;
        reached[step.far as usize] = true;
    }
    reached
}

// The amounts on the arcs of the steps, from the last one on.
pub(crate) fn gather_amounts(
    rows: &Rows<'_>,
    steps: &[Step],
    amounts: Vec<Frac>,
    reached: Vec<bool>,
) -> Result<Vec<Frac>, Past>
    requires lists { IsIncidence rows.now.joints.now (length rows.now.nodes.now) rows.now.incidence.now }
    requires long { length rows.now.joints.now ≡ length rows.now.basics.now }
    requires one_each { length amounts.items ≡ length rows.now.basics.now }
    requires few { length rows.now.basics.now < 2 ^ 32 }
    requires gains { HaveGains rows.now.basics.now }
    requires within { All (λ step. IsWithin rows.now.nodes.now rows.now.basics.now step) steps.now }
    requires joined { AreJoined rows.now.joints.now steps.now }
    requires one_mark { length reached.items ≡ length rows.now.nodes.now }
    requires still { AreStill rows.now.joints.now amounts.items reached.items }
    ensures kept { IfOk result (λ found. length found.items ≡ length rows.now.basics.now) }
    ensures gathered { let answer = gather rows.now.nodes.now rows.now.basics.now rows.now.joints.now rows.now.before rows.now.entering.now.ends rows.now.entering.now.amount (reverse steps.now) amounts.items in
        MatchResult result (λ found. answer ≡ Ok found.items) (λ past. answer ≡ Err past) }
{
    let mut amounts = amounts;
    let mut reached = reached;
    let mut left = steps.len();
    while left > 0 {
        left -= 1;
        let step = steps[left];
        let amount = amount_over(rows, amounts.as_slice(), reached.as_slice(), step)?;
        amounts[step.arc as usize] = amount;
        reached = with_marks(reached, step, amount);
    }
    Ok(amounts)
}

// The sums at the nodes of a cycle, each written at the place of its node.
pub(crate) fn sums_round(
    rows: &Rows<'_>,
    cycle: &[Step],
    amounts: &[Frac],
    sums: Vec<Frac>,
) -> Result<Vec<Frac>, Past>
    requires lists { IsIncidence rows.now.joints.now (length rows.now.nodes.now) rows.now.incidence.now }
    requires long { length rows.now.joints.now ≡ length rows.now.basics.now }
    requires one_each { length amounts.now ≡ length rows.now.basics.now }
    requires each_node { length sums.items ≡ length rows.now.nodes.now }
    requires few { length rows.now.basics.now < 2 ^ 32 }
    requires within { All (λ step. IsWithin rows.now.nodes.now rows.now.basics.now step) cycle.now }
    ensures kept { IfOk result (λ found. length found.items ≡ length rows.now.nodes.now) }
    ensures gathered { let answer = gather_sums rows.now.nodes.now rows.now.basics.now rows.now.joints.now rows.now.before rows.now.entering.now.ends rows.now.entering.now.amount amounts.now cycle.now sums.items in
        MatchResult result (λ found. answer ≡ Ok found.items) (λ past. answer ≡ Err past) }
{
    let mut sums = sums;
    for step in cycle {
        let sum = rows.sum_at(amounts, step.far)?;
        sums[step.far as usize] = sum;
    }
    Ok(sums)
}
