//! Pieces that several files of tests take.

ghost use Rattle.std.specs.Prelude.{◌≡◌, ◌≢◌, ◌&&◌, [], ◌∷◌, true, IfOk};
ghost use Rattle.np_frac.specs.Ratio.{zero_ratio, is_below, ◌*ᵣ◌};
ghost use Rattle.np_model.specs.declared.arc.Ends.TheVariants.{Link as LinkEnds};
ghost use Rattle.np_model.specs.declared.arc.Upper.TheVariants.{Infinite as NoUpper};
ghost use Rattle.np_model.specs.declared.log.Mark.TheVariants.{Lower as AtLower};
ghost use Rattle.np_model.specs.declared.phase.Phase.{Phase as ThePhase};
ghost use Rattle.np_model.specs.Basis.Phases.{phase_net};
ghost use Rattle.np_model.specs.Basis.Sound.{IsInNet};
ghost use Rattle.tree_flows.specs.Answers.{CanEnter};

use np_frac::{Frac, Memory};
use np_model::{Ends, EndsList, Fracs, FullNet, Mark, Net, NetArc, NetArcs, Upper};
use quasi_tree::{FlowList, Lists, MarkList, NodeList, Quasi};
use std::alloc::Global;

// A fraction of whole numbers, or 0 where it is none.
pub(crate) fn over(num: i128, den: i128) -> Frac {
    match Frac::new(num, den) {
        Some(value) => value,
        None => Frac::whole(0),
    }
}

// A link with no upper bound.
pub(crate) fn link(from: u32, to: u32, gain: Frac, cost: Frac) -> NetArc
    ensures { result ≡ record { ends = LinkEnds from to gain; lower = zero_ratio; upper = NoUpper; cost = cost } }
{
    NetArc {
        ends: Ends::Link { from, to, gain },
        lower: Frac::whole(0),
        upper: Upper::Infinite,
        cost,
    }
}

// The lists of a piece.
pub(crate) fn lists_of(
    alloc: Global,
    nodes: &[(u32, Frac)],
    basics: &[(u32, Ends, Frac)],
    marks: &[(u32, Mark)],
) -> Result<Lists, Memory>
    ensures nodes { IfOk result (λ made. made.lists.nodes ≡ nodes.now) }
    ensures basics { IfOk result (λ made. made.lists.basics ≡ basics.now) }
    ensures marks { IfOk result (λ made. made.lists.marks ≡ marks.now) }
{
    Ok(Lists {
        nodes: NodeList {
            items: Vec::from_slice(alloc, nodes)?,
        },
        basics: FlowList {
            items: Vec::from_slice(alloc, basics)?,
        },
        marks: MarkList {
            items: Vec::from_slice(alloc, marks)?,
        },
    })
}

// A gain or a cost for each of five links.
#[derive(Drop)]
pub(crate) struct Five {
    pub(crate) first: Frac,
    pub(crate) second: Frac,
    pub(crate) third: Frac,
    pub(crate) fourth: Frac,
    pub(crate) fifth: Frac,
}

// Five whole numbers.
pub(crate) fn whole(first: i64, second: i64, third: i64, fourth: i64, fifth: i64) -> Five {
    Five {
        first: Frac::whole(first),
        second: Frac::whole(second),
        third: Frac::whole(third),
        fourth: Frac::whole(fourth),
        fifth: Frac::whole(fifth),
    }
}

// Whether the gains are above 0.
fn are_gains(gains: &Five) -> bool
    ensures { result ≡ (is_below zero_ratio gains.now.first && is_below zero_ratio gains.now.second && is_below zero_ratio gains.now.third && is_below zero_ratio gains.now.fourth && is_below zero_ratio gains.now.fifth) }
{
    let zero = Frac::whole(0);
    zero.is_below(gains.first)
        && zero.is_below(gains.second)
        && zero.is_below(gains.third)
        && zero.is_below(gains.fourth)
        && zero.is_below(gains.fifth)
}

// Whether the first three links are not breakeven.
fn are_apart(gains: &Five) -> bool
    ensures { result ≡ true → gains.now.first *ᵣ gains.now.third ≢ gains.now.second }
{
    match gains.first.times(gains.third) {
        Ok(product) => !product.is_same(gains.second),
        Err(_) => false,
    }
}

// A full network, and a piece of it.
#[derive(Drop)]
pub(crate) struct FiveNodes {
    pub(crate) full: FullNet,
    pub(crate) piece: Quasi,
}

// Five nodes. Links lead from 0 to 1, from 2 to 1 and from 2 to 0, and are a cycle; from 3 to 1; and from 3 to 4. A sixth, which is not basic,
// is like the fifth.
pub(crate) fn five_nodes(alloc: Global, gains: &Five, costs: &Five) -> Result<FiveNodes, Memory>
    ensures in_net { IfOk result (λ made. (phase : ThePhase) → IsInNet (phase_net phase made.full) made.piece.lists) }
    ensures parallel { IfOk result (λ made. (phase : ThePhase) → CanEnter (phase_net phase made.full) (made.piece.lists ∷ []) 5) }
    ensures drained { IfOk result (λ made. (phase : ThePhase) → CanEnter (phase_net phase made.full) (made.piece.lists ∷ []) 9) }
{
    if !are_gains(gains) || !are_apart(gains) {
        return Err(Memory);
    }
    let zero = Frac::whole(0);
    let arcs = Vec::from_slice(
        alloc,
        &[
            link(0, 1, gains.first, costs.first),
            link(2, 1, gains.second, costs.second),
            link(2, 0, gains.third, costs.third),
            link(3, 1, gains.fourth, costs.fourth),
            link(3, 4, gains.fifth, costs.fifth),
            link(3, 4, gains.fifth, costs.fifth),
        ],
    )?;
    let supply = Vec::from_slice(alloc, &[zero, zero, zero, zero, zero])?;
    let artificial = Vec::from_slice(
        alloc,
        &[
            Ends::Drain(0),
            Ends::Drain(1),
            Ends::Drain(2),
            Ends::Drain(3),
            Ends::Drain(4),
        ],
    )?;
    let full = FullNet {
        net: Net {
            supply: Fracs { items: supply },
            arcs: NetArcs { items: arcs },
        },
        artificial: EndsList { items: artificial },
    };
    let piece = Quasi::of_lists(links_piece(alloc, gains)?);
    Ok(FiveNodes { full, piece })
}

// The piece of the first five links.
fn links_piece(alloc: Global, gains: &Five) -> Result<Lists, Memory>
    ensures nodes { IfOk result (λ made. made.lists.nodes ≡ (0, zero_ratio) ∷ (1, zero_ratio) ∷ (2, zero_ratio) ∷ (3, zero_ratio) ∷ (4, zero_ratio) ∷ []) }
    ensures basics { IfOk result (λ made. made.lists.basics ≡ (0, LinkEnds 0 1 gains.now.first, zero_ratio) ∷ (1, LinkEnds 2 1 gains.now.second, zero_ratio)
        ∷ (2, LinkEnds 2 0 gains.now.third, zero_ratio) ∷ (3, LinkEnds 3 1 gains.now.fourth, zero_ratio) ∷ (4, LinkEnds 3 4 gains.now.fifth, zero_ratio) ∷ []) }
    ensures marks { IfOk result (λ made. made.lists.marks ≡ (5, AtLower) ∷ (6, AtLower) ∷ (7, AtLower) ∷ (8, AtLower) ∷ (9, AtLower) ∷ (10, AtLower) ∷ []) }
{
    let zero = Frac::whole(0);
    let nodes = [(0, zero), (1, zero), (2, zero), (3, zero), (4, zero)];
    let basics = [
        (0, link(0, 1, gains.first, zero).ends, zero),
        (1, link(2, 1, gains.second, zero).ends, zero),
        (2, link(2, 0, gains.third, zero).ends, zero),
        (3, link(3, 1, gains.fourth, zero).ends, zero),
        (4, link(3, 4, gains.fifth, zero).ends, zero),
    ];
    let marks = [
        (5, Mark::Lower),
        (6, Mark::Lower),
        (7, Mark::Lower),
        (8, Mark::Lower),
        (9, Mark::Lower),
        (10, Mark::Lower),
    ];
    lists_of(alloc, &nodes, &basics, &marks)
}
