//! Whether an arc may enter.

ghost use Rattle.std.specs.Prelude.{◌≡◌, ◌<◌, ◌⊎◌, Err, MatchResult};
ghost use Rattle.std.specs.Option.{option_copied};
ghost use Rattle.gain_graphs.specs.Arcs.{IsIn};
ghost use Rattle.np_frac.specs.Ratio.{zero_ratio};
ghost use Rattle.np_model.specs.Basis.Graphs.{arc_at, ends_at};
ghost use Rattle.np_model.specs.Basis.Phases.{phase_net, real_arcs, all_arcs};
ghost use Rattle.np_model.specs.Basis.Pieces.{beside, nodes_of};
ghost use Rattle.np_model.specs.Basis.Sound.{bound_at, values_in, AreSound};
ghost use Rattle.np_model.specs.Basis.Needed.{AreNeededFor, lists_of};
ghost use Rattle.np_model.specs.Rows.Prices.{price_of};
ghost use Rattle.piece_lists.specs.Joining.{all_nodes};
ghost use Rattle.pivot_step.specs.Asked.{IsTested};

use arc_pricing::{eligible, price};
use np_frac::Frac;
use np_model::{FullNet, Mark, Overflow, Phase, Piece, Upper};
use quasi_tree::Quasi;

// The bound at which an arc stands, and its flow there.
#[derive(Clone, Copy)]
pub(crate) struct Standing {
    pub(crate) mark: Mark,
    pub(crate) flow: Frac,
}

// The potential of a node of the pieces.
fn potential_in(first: &Quasi, second: Option<&Quasi>, node: u32) -> Frac
    requires { IsIn node (nodes_of (lists_of (λ s. s.lists) first.now.lists (option_copied second))) }
    ensures { result ≡ beside zero_ratio (all_nodes (lists_of (λ s. s.lists) first.now.lists (option_copied second.entry))) node }
{
    if first.contains(node) {
        return first.potential_of(node);
    }
    match second {
        Some(other) => other.potential_of(node),
        None => Frac::whole(0),
    }
}

/// The flow of an arc outside the basis with this mark: that of its bound.
pub fn flow_at(full: &FullNet, phase: Phase, arc: u32, mark: Mark) -> Frac
    requires { arc < all_arcs full.now }
    ensures { result ≡ bound_at (arc_at (phase_net phase full.now).arcs arc) mark }
{
    match mark {
        Mark::Lower => full.lower(arc),
        Mark::Upper => match full.upper(phase, arc) {
            Upper::Finite(bound) => bound,
            Upper::Infinite => Frac::whole(0),
        },
        Mark::Basic => Frac::whole(0),
    }
}

// Tests whether an arc may enter, by its price and its mark: where it stands, if it may; or the overflow of its price.
pub(crate) fn test(
    full: &FullNet,
    phase: Phase,
    first: &Quasi,
    second: Option<&Quasi>,
    arc: u32,
) -> Result<Option<Standing>, Overflow>
    requires is_arc { arc < all_arcs full.now }
    requires sound { AreSound (phase_net phase full.now) (lists_of (λ s. s.lists) first.now.lists (option_copied second)) }
    requires needed { AreNeededFor (lists_of (λ s. s.lists) first.now.lists (option_copied second)) (ends_at (phase_net phase full.now).arcs arc) }
    ensures { MatchResult result (IsTested (phase_net phase full.now) (real_arcs full.now) (lists_of (λ s. s.lists) first.now.lists (option_copied second.entry)) arc) (λ overflow. price_of (phase_net phase full.now) (values_in (phase_net phase full.now) (lists_of (λ s. s.lists) first.now.lists (option_copied second.entry))).potential arc ≡ Err overflow) }
{
    let ends = &full.ends(arc);
    let tail = potential_in(first, second, ends.tail());
    let head = potential_in(first, second, ends.head());
    let reduced = match price(full, phase, arc, tail, head) {
        Ok(reduced) => reduced,
        Err(overflow) => return Err(overflow),
    };
    let mark = first.mark_of(arc);
    if !eligible(full, arc, mark, reduced) {
        return Ok(None);
    }
    Ok(Some(Standing {
        mark,
        flow: flow_at(full, phase, arc, mark),
    }))
}
