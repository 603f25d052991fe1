//! Nodes that supply nothing, each with an artificial drain: what the networks of several timings begin with.

ghost use Rattle.std.specs.Prelude.{◌≡◌, length, IfOk};
ghost use Rattle.np_model.specs.Basis.Artificial.{AreArtificial};
ghost use Rattle.bench_all.specs.Nodes.{supplies, drains};

use np_frac::Frac;
use np_model::Ends;
use std::alloc::{AllocError, Global};

/// The supply 0 of each node.
pub(crate) fn supplies_of(alloc: Global, nodes: u32) -> Result<Vec<Frac>, AllocError>
    ensures zeros { IfOk result (λ list. list.items ≡ supplies nodes) }
    ensures each { IfOk result (λ list. length list.items ≡ nodes) }
{
    let mut list = Vec::new(alloc);
    for _ in 0..nodes {
        list.push(Frac::whole(0))?;
    }
    Ok(list)
}

/// The artificial arc of each node.
pub(crate) fn drains_of(alloc: Global, nodes: u32) -> Result<Vec<Ends>, AllocError>
    ensures drains { IfOk result (λ list. list.items ≡ drains nodes) }
    ensures artificial { IfOk result (λ list. AreArtificial nodes list.items) }
{
    let mut list = Vec::new(alloc);
    for node in 0..nodes {
        list.push(Ends::Drain(node))?;
    }
    Ok(list)
}
