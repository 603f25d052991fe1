//! The summary of a demo.

ghost use Rattle.std.specs.Prelude.{◌≡◌, ◌++◌, ◌∷◌, [], IfOk, OnOk, codes, decimal};
ghost use Rattle.np_frac.specs.Text.{printed};
ghost use Rattle.np_records.specs.Texts.{records_text};
ghost use Rattle.netplan_top.specs.Texts.Demo.{summary_text};

use np_frac::{Frac, Memory};
use np_records::Text;
use std::alloc::Global;

// Writes the two records at the head.
fn push_head(text: &mut Text, number: u32) -> Result<(), Memory>
    requires { text.old.fields ≡ [] }
    ensures text { OnOk result (text.new.bytes ≡ text.old.bytes ++ records_text ((codes "netplan-demo" ∷ codes "1" ∷ []) ∷ (codes "demo" ∷ decimal number ∷ []) ∷ [])) }
    ensures closed { OnOk result (text.new.fields ≡ []) }
{
    text.word(b"netplan-demo")?;
    text.word(b"1")?;
    text.end()?;
    text.word(b"demo")?;
    text.number(u64::from(number))?;
    text.end()
}

// Writes the size and the verdict.
fn push_size(text: &mut Text, nodes: usize, arcs: usize) -> Result<(), Memory>
    requires { text.old.fields ≡ [] }
    ensures text { OnOk result (text.new.bytes ≡ text.old.bytes ++ records_text ((codes "size" ∷ decimal nodes ∷ decimal arcs ∷ []) ∷ (codes "verdict" ∷ codes "optimal" ∷ []) ∷ [])) }
    ensures closed { OnOk result (text.new.fields ≡ []) }
{
    text.word(b"size")?;
    text.number(nodes as u64)?;
    text.number(arcs as u64)?;
    text.end()?;
    text.word(b"verdict")?;
    text.word(b"optimal")?;
    text.end()
}

// Writes the cost and the last record.
fn push_cost(text: &mut Text, cost: Frac) -> Result<(), Memory>
    requires { text.old.fields ≡ [] }
    ensures { OnOk result (text.new.bytes ≡ text.old.bytes ++ records_text ((codes "cost" ∷ printed cost ∷ []) ∷ (codes "end" ∷ []) ∷ [])) }
{
    text.word(b"cost")?;
    text.fraction(cost)?;
    text.end()?;
    text.word(b"end")?;
    text.end()
}

/// The summary of the demo of this number: so many nodes and arcs over all periods, and its least cost.
#[tactic(auto, unfolding(crate::specs::Texts::Demo::summary_text))]
pub fn summary_text(
    alloc: Global,
    number: u32,
    nodes: usize,
    arcs: usize,
    cost: Frac,
) -> Result<Vec<u8>, Memory>
    ensures { IfOk result (λ text. text.items ≡ summary_text number nodes arcs cost) }
{
    let mut text = Text::new(alloc);
    push_head(&mut text, number)?;
    push_size(&mut text, nodes, arcs)?;
    push_cost(&mut text, cost)?;
    text.into_bytes()
}
