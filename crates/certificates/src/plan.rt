//! The plan of what a plan text claims.

ghost use Rattle.std.specs.Prelude.{◌≡◌, IfOk};
ghost use Rattle.certificates.specs.Grammar.{IsMadeOf, claimed_amount, claimed_flows, claimed_prices, claimed_ray, claimed_arc, claimed_overflow};

use crate::amounts::{no_fracs, node_amounts, staged_amounts};
use crate::claims::Draft;
use np_frac::{Frac, Memory};
use np_model::{Entries, Fracs, Log, Overflow, Plan, Scheme, Verdict};
use std::alloc::Global;

impl Draft {
    // The cost or the gap of a verdict.
    fn claimed_amount(&self, verdict: Verdict) -> Option<Frac>
        ensures { result ≡ claimed_amount verdict self.now }
    {
        let parts = verdict.parts();
        if parts.cost {
            return self.cost;
        }
        if parts.gap { self.gap } else { None }
    }

    // The flows of a verdict.
    fn claimed_flows(
        &self,
        alloc: Global,
        verdict: Verdict,
        scheme: &Scheme,
    ) -> Result<Fracs, Memory>
        ensures { IfOk result (λ flows. flows ≡ claimed_flows verdict scheme.now self.now) }
    {
        if !verdict.parts().flows {
            return Ok(no_fracs(alloc));
        }
        staged_amounts(alloc, scheme, &self.flows)
    }

    // The prices of a verdict.
    fn claimed_prices(&self, alloc: Global, verdict: Verdict) -> Result<Fracs, Memory>
        ensures { IfOk result (λ prices. prices ≡ claimed_prices verdict self.now) }
    {
        if !verdict.parts().prices {
            return Ok(no_fracs(alloc));
        }
        node_amounts(alloc, &self.prices)
    }

    // The ray of a verdict.
    fn claimed_ray(&self, alloc: Global, verdict: Verdict, scheme: &Scheme) -> Result<Fracs, Memory>
        ensures { IfOk result (λ ray. ray ≡ claimed_ray verdict scheme.now self.now) }
    {
        if !verdict.parts().ray {
            return Ok(no_fracs(alloc));
        }
        staged_amounts(alloc, scheme, &self.ray)
    }

    // The eligible arc of a verdict.
    fn claimed_arc(&self, verdict: Verdict) -> Option<u32>
        ensures { result ≡ claimed_arc verdict self.now }
    {
        if verdict.parts().arc { self.arc } else { None }
    }

    // The operation of a verdict that overflowed.
    fn claimed_overflow(&self, verdict: Verdict) -> Option<Overflow>
        ensures { result ≡ claimed_overflow verdict self.now }
    {
        if !verdict.parts().overflow {
            return None;
        }
        self.overflow
    }

    /// The plan of what was taken.
    pub(crate) fn into_plan(
        self,
        alloc: Global,
        verdict: Verdict,
        scheme: &Scheme,
    ) -> Result<Plan, Memory>
        ensures verdict { IfOk result (λ plan. plan.verdict ≡ verdict) }
        ensures made { IfOk result (λ plan. IsMadeOf scheme.now self plan) }
    {
        let flows = self.claimed_flows(alloc, verdict, scheme)?;
        let prices = self.claimed_prices(alloc, verdict)?;
        let ray = self.claimed_ray(alloc, verdict, scheme)?;
        Ok(Plan {
            verdict,
            amount: self.claimed_amount(verdict),
            flows,
            prices,
            ray,
            arc: self.claimed_arc(verdict),
            overflow: self.claimed_overflow(verdict),
            log: Log {
                turned: self.turned,
                entries: Entries {
                    items: self.entries,
                },
            },
        })
    }
}
