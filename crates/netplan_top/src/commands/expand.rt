//! `expand`: the expanded network.

ghost use Rattle.std.specs.Prelude.{◌≡◌, ◌<◌, ◌^◌, IfOk, length};
ghost use Rattle.netplan_top.specs.Commands.Expand.{IsExpandAnswer};
ghost use Rattle.netplan_top.specs.Texts.Network.{net_text};

use crate::commands::Answer;
use crate::commands::stop::{network_stop, stopped};
use crate::texts::net_text;
use net_csv::{Tail, read_scheme};
use np_frac::Memory;
use np_model::Scheme;
use std::alloc::Global;

// What is said of a scheme that stands alone.
fn expanded(alloc: Global, scheme: &Scheme) -> Result<Answer, Memory>
    ensures { IfOk result (λ answer. (answer.status ≡ 0) × (answer.text.items ≡ net_text scheme.now)) }
{
    let text = net_text(alloc, scheme)?;
    Ok(Answer { status: 0, text })
}

/// What `expand` says of an input.
pub fn expand_answer(alloc: Global, bytes: &[u8]) -> Result<Answer, Memory>
    requires { length bytes.now < 2 ^ 32 }
    ensures { IfOk result (λ answer. IsExpandAnswer bytes.now answer.status answer.text.items) }
{
    match read_scheme(alloc, bytes, Tail::Nothing) {
        Ok(read) => expanded(alloc, &read.0),
        Err(refused) => stopped(alloc, network_stop(refused)),
    }
}
