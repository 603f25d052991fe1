//! Row A5 of one arc.

ghost use Rattle.std.specs.Prelude.{◌≡◌, ◌≢◌, ◌<◌, pos};
ghost use Rattle.np_frac.specs.Exact.{minus_of, over_of, ◌▷◌};
ghost use Rattle.np_model.specs.Basis.Graphs.{arc_at};
ghost use Rattle.np_model.specs.Basis.Phases.{phase_net, all_arcs};
ghost use Rattle.np_model.specs.Rows.Arcs.{limit_up, limit_of};

use np_frac::{Frac, Past};
use np_model::{FullNet, Phase, Upper};

// How far a flow can go up by this amount a step until it is at the bound.
fn limit_up(upper: Upper, flow: Frac, amount: Frac) -> Result<Option<Frac>, Past>
    requires { amount.num ≢ pos 0 }
    ensures { result ≡ limit_up upper flow amount }
{
    match upper {
        Upper::Finite(bound) => {
            let room = bound.minus(flow)?;
            let step = room.over(amount)?;
            Ok(Some(step))
        }
        Upper::Infinite => Ok(None),
    }
}

// How far a flow can go down by this amount a step until it is at the bound.
fn limit_down(lower: Frac, flow: Frac, amount: Frac) -> Result<Frac, Past>
    requires { amount.num ≢ pos 0 }
    ensures { result ≡ minus_of flow lower ▷ (λ room. over_of room amount) }
{
    let room = flow.minus(lower)?;
    room.over(amount)
}

/// How far the flow of an arc can go by this amount a step.
pub(crate) fn limit_of(
    full: &FullNet,
    phase: Phase,
    arc: u32,
    flow: Frac,
    amount: Frac,
) -> Result<Option<Frac>, Past>
    requires { arc < all_arcs full.now }
    ensures { result ≡ limit_of (arc_at (phase_net phase full.now).arcs arc) flow amount }
{
    let zero = Frac::whole(0);
    if zero.is_below(amount) {
        return limit_up(full.upper(phase, arc), flow, amount);
    }
    if amount.is_below(zero) {
        let step = limit_down(full.lower(arc), flow, amount.negated())?;
        return Ok(Some(step));
    }
    Ok(None)
}
