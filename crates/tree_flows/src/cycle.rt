//! The amounts on the arcs of a cycle.

ghost use Rattle.std.specs.Prelude.{◌≡◌, ◌≢◌, ◌<◌, ◌↔◌, true, length, Ok, Err, MatchResult, IfOk, pos, slice_index};
ghost use Rattle.std.specs.List.{All};
ghost use Rattle.np_frac.specs.Ratio.{Ratio, zero_ratio, one_ratio};
ghost use Rattle.np_model.specs.Rows.Directions.{mixed};
ghost use Rattle.tree_search.specs.Places.{numbers_of_nodes, ends_by_place};
ghost use Rattle.tree_flows.specs.Along.{HaveGains, IsWithin, are_zero, next_amount, next_share, amount_behind, share_behind, last_of, divisor_of, closing_of, mix_after, mix_all, mix_of, turn_round};

use crate::refusal::at_arc;
use crate::terms::{is_nothing, plus_first, term_of, turn};
use np_frac::{Frac, Past};
use np_model::{Ends, Overflow, Row};
use tree_search::{Step, node_of};

// The nodes and basic arcs of a piece with a cycle, and the sums at its nodes.
#[derive(Clone, Copy)]
pub(crate) struct Round<'a> {
    pub nodes: &'a [(u32, Frac)],
    pub basics: &'a [(u32, Ends, Frac)],
    pub sums: &'a [Frac],
}

impl<'a> Round<'a> {
    ghost use Rattle.np_model.specs.Network.Flows.{at};

    // The amount on the arc of the next step, with the sum at the node between.
    fn next_amount(&self, step: Step, next: Step, amount: Frac) -> Result<Frac, Past>
        requires gains { HaveGains self.now.basics.now }
        requires each_node { length self.now.sums.now ≡ length self.now.nodes.now }
        requires within { IsWithin self.now.nodes.now self.now.basics.now step }
        requires within_too { IsWithin self.now.nodes.now self.now.basics.now next }
        ensures { result ≡ next_amount self.now.nodes.now self.now.basics.now self.now.sums.now step next amount }
    {
        let node = node_of(self.nodes, step.far);
        let more = term_of(self.basics[step.arc as usize].1, node, amount)?;
        let sum = more.plus(self.sums[step.far as usize])?;
        turn(self.basics[next.arc as usize].1, node, sum)
    }

    // The amount on the arc of the next step, with nothing at the node between.
    fn next_share(&self, step: Step, next: Step, share: Frac) -> Result<Frac, Past>
        requires gains { HaveGains self.now.basics.now }
        requires within { IsWithin self.now.nodes.now self.now.basics.now step }
        requires within_too { IsWithin self.now.nodes.now self.now.basics.now next }
        ensures { result ≡ next_share self.now.nodes.now self.now.basics.now step next share }
    {
        let node = node_of(self.nodes, step.far);
        let more = term_of(self.basics[step.arc as usize].1, node, share)?;
        turn(self.basics[next.arc as usize].1, node, more)
    }
}

// The amount on the last arc, from that on the first, with the sums at the nodes between.
fn amount_along(round: &Round<'_>, first: Step, rest: &[Step], amount: Frac) -> Result<Frac, Past>
    requires gains { HaveGains round.now.basics.now }
    requires each_node { length round.now.sums.now ≡ length round.now.nodes.now }
    requires within { IsWithin round.now.nodes.now round.now.basics.now first }
    requires within_too { All (λ step. IsWithin round.now.nodes.now round.now.basics.now step) rest.now }
    ensures { result ≡ amount_behind round.now.nodes.now round.now.basics.now round.now.sums.now first rest.now amount }
{
    let mut step = first;
    let mut value = amount;
    for next in rest {
        value = round.next_amount(step, *next, value)?;
        step = *next;
    }
    Ok(value)
}

// The amount on the last arc, from that on the first, with nothing at the nodes between.
fn share_along(round: &Round<'_>, first: Step, rest: &[Step], share: Frac) -> Result<Frac, Past>
    requires gains { HaveGains round.now.basics.now }
    requires within { IsWithin round.now.nodes.now round.now.basics.now first }
    requires within_too { All (λ step. IsWithin round.now.nodes.now round.now.basics.now step) rest.now }
    ensures { result ≡ share_behind round.now.nodes.now round.now.basics.now first rest.now share }
{
    let mut step = first;
    let mut value = share;
    for next in rest {
        value = round.next_share(step, *next, value)?;
        step = *next;
    }
    Ok(value)
}

// The last step.
fn last_step(first: Step, rest: &[Step]) -> Step
    ensures { result ≡ last_of first rest.now }
{
    let mut last = first;
    for next in rest {
        last = *next;
    }
    last
}

// What an amount of 1 on the first arc leaves at the least node.
fn divisor(round: &Round<'_>, first: Step, rest: &[Step], last: Step) -> Result<Frac, Past>
    requires gains { HaveGains round.now.basics.now }
    requires within { IsWithin round.now.nodes.now round.now.basics.now first }
    requires within_too { All (λ step. IsWithin round.now.nodes.now round.now.basics.now step) rest.now }
    requires within_last { IsWithin round.now.nodes.now round.now.basics.now last }
    requires is_last { last ≡ last_of first rest.now }
    ensures { result ≡ divisor_of round.now.nodes.now round.now.basics.now first rest.now }
{
    let share = share_along(round, first, rest, Frac::whole(1))?;
    let node = node_of(round.nodes, last.far);
    let total = term_of(round.basics[last.arc as usize].1, node, share)?;
    plus_first(round.basics[first.arc as usize].1, node, total)
}

// What an amount of 0 on the first arc leaves at the least node.
fn closing_sum(round: &Round<'_>, first: Step, rest: &[Step], last: Step) -> Result<Frac, Past>
    requires gains { HaveGains round.now.basics.now }
    requires each_node { length round.now.sums.now ≡ length round.now.nodes.now }
    requires within { IsWithin round.now.nodes.now round.now.basics.now first }
    requires within_too { All (λ step. IsWithin round.now.nodes.now round.now.basics.now step) rest.now }
    requires within_last { IsWithin round.now.nodes.now round.now.basics.now last }
    requires is_last { last ≡ last_of first rest.now }
    ensures { result ≡ closing_of round.now.nodes.now round.now.basics.now round.now.sums.now first rest.now }
{
    let amount = amount_along(round, first, rest, Frac::whole(0))?;
    let node = node_of(round.nodes, last.far);
    let ending = term_of(round.basics[last.arc as usize].1, node, amount)?;
    ending.plus(round.sums[last.far as usize])
}

// The amount on an arc, by its parts and the amount on the first arc.
fn mix(first: Frac, part: Frac, share: Frac) -> Result<Frac, Past>
    ensures { result ≡ mixed first part share }
{
    let product = share.times(first)?;
    part.plus(product)
}

// The amounts on the arcs after the first.
fn mix_rest(
    round: &Round<'_>,
    start: Frac,
    first: Step,
    rest: &[Step],
    amounts: Vec<Frac>,
) -> Result<Vec<Frac>, Past>
    requires gains { HaveGains round.now.basics.now }
    requires each_node { length round.now.sums.now ≡ length round.now.nodes.now }
    requires within { IsWithin round.now.nodes.now round.now.basics.now first }
    requires within_too { All (λ step. IsWithin round.now.nodes.now round.now.basics.now step) rest.now }
    requires one_each { length amounts.items ≡ length round.now.basics.now }
    ensures kept { IfOk result (λ found. length found.items ≡ length round.now.basics.now) }
    ensures made { let answer = mix_after round.now.nodes.now round.now.basics.now round.now.sums.now start first rest.now zero_ratio one_ratio amounts.items in
        MatchResult result (λ found. answer ≡ Ok found.items) (λ past. answer ≡ Err past) }
{
    let mut step = first;
    let mut part = Frac::whole(0);
    let mut share = Frac::whole(1);
    let mut amounts = amounts;
    for next in rest {
        part = round.next_amount(step, *next, part)?;
        share = round.next_share(step, *next, share)?;
        let amount = mix(start, part, share)?;
        amounts[next.arc as usize] = amount;
        step = *next;
    }
    Ok(amounts)
}

// The amounts on all arcs of the cycle.
fn mix_round(
    round: &Round<'_>,
    start: Frac,
    first: Step,
    rest: &[Step],
    amounts: Vec<Frac>,
) -> Result<Vec<Frac>, Past>
    requires gains { HaveGains round.now.basics.now }
    requires each_node { length round.now.sums.now ≡ length round.now.nodes.now }
    requires within { IsWithin round.now.nodes.now round.now.basics.now first }
    requires within_too { All (λ step. IsWithin round.now.nodes.now round.now.basics.now step) rest.now }
    requires one_each { length amounts.items ≡ length round.now.basics.now }
    ensures kept { IfOk result (λ found. length found.items ≡ length round.now.basics.now) }
    ensures made { let answer = mix_all round.now.nodes.now round.now.basics.now round.now.sums.now start first rest.now amounts.items in
        MatchResult result (λ found. answer ≡ Ok found.items) (λ past. answer ≡ Err past) }
{
    let amount = mix(start, Frac::whole(0), Frac::whole(1))?;
    let mut amounts = amounts;
    amounts[first.arc as usize] = amount;
    mix_rest(round, start, first, rest, amounts)
}

// Whether the sums at all nodes of the cycle are 0.
pub(crate) fn are_nothing(cycle: &[Step], sums: &[Frac]) -> bool
    requires below { All (λ step. step.far < length sums.now) cycle.now }
    ensures { result ≡ are_zero sums.now cycle.now }
{
    for step in cycle {
        if !is_nothing(sums[step.far as usize]) {
            return false;
        }
    }
    true
}

// The amounts with those on the arcs of a cycle that is not breakeven.
#[tactic(auto, using(crate::proofs::Needs::last_within))]
pub(crate) fn turn_amounts(
    round: &Round<'_>,
    enter: u32,
    first: Step,
    rest: &[Step],
    amounts: Vec<Frac>,
) -> Result<Vec<Frac>, Overflow>
    requires gains { HaveGains round.now.basics.now }
    requires each_node { length round.now.sums.now ≡ length round.now.nodes.now }
    requires within { IsWithin round.now.nodes.now round.now.basics.now first }
    requires within_too { All (λ step. IsWithin round.now.nodes.now round.now.basics.now step) rest.now }
    requires one_each { length amounts.items ≡ length round.now.basics.now }
    requires apart { (last : Ratio) → divisor_of round.now.nodes.now round.now.basics.now first rest.now ≡ Ok last → last.num ≢ pos 0 }
    ensures kept { IfOk result (λ found. length found.items ≡ length round.now.basics.now) }
    ensures made { let answer = turn_round enter round.now.nodes.now round.now.basics.now round.now.sums.now first rest.now amounts.items in
        MatchResult result (λ found. answer ≡ Ok found.items) (λ overflow. answer ≡ Err overflow) }
{
    let last = last_step(first, rest);
    let divisor = match divisor(round, first, rest, last) {
        Ok(divisor) => divisor,
        Err(past) => return Err(at_arc(enter, Row::A3, past)),
    };
    match round_amounts(round, first, rest, last, divisor, amounts) {
        Ok(found) => Ok(found),
        Err(past) => Err(at_arc(enter, Row::A4, past)),
    }
}

// The amounts with those on the arcs of the cycle, by its divisor.
fn round_amounts(
    round: &Round<'_>,
    first: Step,
    rest: &[Step],
    last: Step,
    divisor: Frac,
    amounts: Vec<Frac>,
) -> Result<Vec<Frac>, Past>
    requires gains { HaveGains round.now.basics.now }
    requires each_node { length round.now.sums.now ≡ length round.now.nodes.now }
    requires within { IsWithin round.now.nodes.now round.now.basics.now first }
    requires within_too { All (λ step. IsWithin round.now.nodes.now round.now.basics.now step) rest.now }
    requires within_last { IsWithin round.now.nodes.now round.now.basics.now last }
    requires is_last { last ≡ last_of first rest.now }
    requires one_each { length amounts.items ≡ length round.now.basics.now }
    requires apart { divisor.num ≢ pos 0 }
    ensures kept { IfOk result (λ found. length found.items ≡ length round.now.basics.now) }
    ensures made { let answer = mix_of round.now.nodes.now round.now.basics.now round.now.sums.now divisor first rest.now amounts.items in
        MatchResult result (λ found. answer ≡ Ok found.items) (λ past. answer ≡ Err past) }
{
    let whole = closing_sum(round, first, rest, last)?;
    let start = whole.negated().over(divisor)?;
    mix_round(round, start, first, rest, amounts)
}
