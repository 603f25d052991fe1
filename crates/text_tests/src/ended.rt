//! A test of the plan of what a run has ended in.

ghost use Rattle.std.specs.Prelude.{◌≡◌, IfOk, negsuc};
ghost use Rattle.np_frac.specs.Ratio.{whole};
ghost use Rattle.np_basis.specs.Laws.{node_alone};
ghost use Rattle.convex_arcs.specs.Schemes.{net_of};
ghost use Rattle.certificates.specs.Certificates.{HasEnded};

use certificates::certify;
use np_frac::{Frac, Memory};
use np_model::{Entries, Flows, Fracs, Log, Name, Names, Outcome, Plan, Scheme, Verdict};
use np_runs::laws::examples;
use period_expand::expand_periods;
use std::alloc::Global;
use std::test::Fail;

// A network of one node alone, with this supply.
pub(crate) fn alone(alloc: Global, supply: i64) -> Result<Scheme, Fail>
    ensures { IfOk result (λ scheme. net_of scheme ≡ node_alone (whole supply)) }
{
    let mut nodes = Vec::new(alloc);
    nodes.push(Name {
        items: Vec::from_slice(alloc, b"A")?,
    })?;
    let supplies = Vec::from_slice(alloc, &[Frac::whole(supply)])?;
    let flows = Vec::new(alloc);
    let made = Scheme::new(
        alloc,
        1,
        Names { items: nodes },
        Fracs { items: supplies },
        Flows { items: flows },
    )?;
    Ok(made.ok_or("not a valid scheme")?)
}

// What its run ends in with no pivot.
fn ended_at_once(alloc: Global, scheme: &Scheme) -> Result<Outcome, Memory>
    requires { net_of scheme.now ≡ node_alone (whole (negsuc 4)) }
    ensures { IfOk result (HasEnded scheme.now) }
{
    examples();
    let potentials = Vec::from_slice(alloc, &[Frac::whole(-1)])?;
    let entries = Vec::new(alloc);
    Ok(Outcome::Infeasible {
        potentials: Fracs { items: potentials },
        log: Log {
            turned: None,
            entries: Entries { items: entries },
        },
    })
}

// Whether a plan says that 5 are lacking, at a price of -1.
fn lacks_them(plan: &Plan) -> bool {
    plan.verdict == Verdict::Infeasible
        && plan.amount == Some(Frac::whole(5))
        && plan.prices.as_slice() == [Frac::whole(-1)].as_slice()
        && plan.flows.as_slice().is_empty()
        && plan.ray.as_slice().is_empty()
}

// What nothing brings is the gap, at a price of -1.
#[test]
fn lacks_five(rt: HostRuntime) -> Result<(), Fail> {
    let alloc = rt.alloc();
    let scheme = alone(alloc, -5)?;
    let outcome = ended_at_once(alloc, &scheme)?;
    let expanded = expand_periods(alloc, &scheme)?;
    match certify(alloc, &scheme, &expanded, &outcome) {
        Ok(plan) => {
            assert!(rt; lacks_them(&plan));
            Ok(())
        }
        Err(_) => Err(Fail::from("refused")),
    }
}
