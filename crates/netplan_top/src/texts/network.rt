//! The text of an expanded network.

ghost use Rattle.std.specs.Prelude.{◌≡◌, ◌+◌, ◌<◌, ◌≤◌, ◌++◌, ◌∷◌, [], IfOk, OnOk, codes, decimal, length, map, sum_by};
ghost use Rattle.std.specs.List.{flat_map, enumerate_from};
ghost use Rattle.np_records.specs.Texts.{record_text, records_text};
ghost use Rattle.period_expand.specs.Expansion.{segment_count};
ghost use Rattle.convex_arcs.specs.Segments.{segment_arcs, flat_arcs};
ghost use Rattle.netplan_top.specs.Texts.Network.{ends_fields, upper_field, arc_fields, arc_record, node_record, node_records, numbered_arcs, numbered_segments, net_text};

use convex_arcs::flatten;
use np_frac::{Frac, Memory};
use np_model::{Ends, NetArc, Scheme, Upper};
use np_records::Text;
use period_expand::{Staged, expand_periods};
use std::alloc::Global;

// ---- nodes

// Writes the record of the node with this number, which stands at its place among the supplies.
fn push_node(text: &mut Text, scheme: &Scheme, number: usize, supply: Frac) -> Result<(), Memory>
    requires some { 0 < length scheme.now.nodes }
    requires few { number < 20000 }
    requires closed { text.old.fields ≡ [] }
    ensures text { OnOk result (text.new.bytes ≡ text.old.bytes ++ record_text (node_record scheme.now.nodes (number, supply))) }
    ensures closed { OnOk result (text.new.fields ≡ []) }
{
    let count = scheme.nodes.as_slice().len();
    text.word(b"node")?;
    text.number(number as u64)?;
    text.word(scheme.nodes.name_at(number % count))?;
    text.number((number / count + 1) as u64)?;
    text.fraction(supply)?;
    text.end()
}

// Writes a record for each node.
fn push_nodes(text: &mut Text, scheme: &Scheme) -> Result<(), Memory>
    requires { text.old.fields ≡ [] }
    ensures text { OnOk result (text.new.bytes ≡ text.old.bytes ++ records_text (node_records scheme.now)) }
    ensures closed { OnOk result (text.new.fields ≡ []) }
{
    for (number, supply) in scheme.supply.as_slice().iter().enumerate() {
        push_node(text, scheme, number, *supply)?;
    }
    Ok(())
}

// ---- arcs

// Adds the fields of the ends and the gain of an arc; `-` stands for an end outside of the network, and for the gain of an arc
// with such an end.
#[tactic(auto, unfolding(crate::specs::Texts::Network::ends_fields))]
fn add_ends(text: &mut Text, ends: &Ends) -> Result<(), Memory>
    ensures fields { OnOk result (text.new.fields ≡ text.old.fields ++ ends_fields ends.now) }
    ensures bytes { OnOk result (text.new.bytes ≡ text.old.bytes) }
{
    match ends {
        Ends::Link { from, to, gain } => {
            text.number(u64::from(*from))?;
            text.number(u64::from(*to))?;
            text.fraction(*gain)
        }
        Ends::Drain(node) => {
            text.number(u64::from(*node))?;
            text.word(b"-")?;
            text.word(b"-")
        }
        Ends::Feed(node) => {
            text.word(b"-")?;
            text.number(u64::from(*node))?;
            text.word(b"-")
        }
    }
}

// Adds the field of an upper bound.
fn add_upper(text: &mut Text, upper: &Upper) -> Result<(), Memory>
    ensures fields { OnOk result (text.new.fields ≡ text.old.fields ++ upper_field upper.now ∷ []) }
    ensures bytes { OnOk result (text.new.bytes ≡ text.old.bytes) }
{
    match upper {
        Upper::Finite(value) => text.fraction(*value),
        Upper::Infinite => text.word(b"inf"),
    }
}

// Adds the fields of an arc.
fn add_arc(text: &mut Text, arc: &NetArc) -> Result<(), Memory>
    ensures fields { OnOk result (text.new.fields ≡ text.old.fields ++ arc_fields arc.now) }
    ensures bytes { OnOk result (text.new.bytes ≡ text.old.bytes) }
{
    add_ends(text, &arc.ends)?;
    text.fraction(arc.lower)?;
    add_upper(text, &arc.upper)?;
    text.fraction(arc.cost)
}

// Writes the record of the arc with this number, which is this segment of a staged arc.
fn push_arc(
    text: &mut Text,
    scheme: &Scheme,
    staged: &Staged,
    number: usize,
    segment: usize,
    arc: &NetArc,
) -> Result<(), Memory>
    requires { text.old.fields ≡ [] }
    ensures text { OnOk result (text.new.bytes ≡ text.old.bytes ++ record_text (arc_record scheme.now.flows (number, (staged.now, (segment, arc.now))))) }
    ensures closed { OnOk result (text.new.fields ≡ []) }
{
    text.word(b"arc")?;
    text.number(number as u64)?;
    text.word(scheme.flows.name_at(staged.flow as usize))?;
    text.number(u64::from(staged.period))?;
    text.number(segment as u64)?;
    add_arc(text, arc)?;
    text.end()
}

// Writes the records of these arcs, which are the segments of a staged arc, the first with this number.
fn push_segments(
    text: &mut Text,
    scheme: &Scheme,
    staged: &Staged,
    first: usize,
    arcs: &[NetArc],
) -> Result<(), Memory>
    requires few { first + length arcs.now ≤ 100000 }
    requires closed { text.old.fields ≡ [] }
    ensures text { OnOk result (text.new.bytes ≡ text.old.bytes ++ records_text (map (arc_record scheme.now.flows) (enumerate_from first (numbered_arcs staged.now arcs.now)))) }
    ensures closed { OnOk result (text.new.fields ≡ []) }
{
    for segment in 0..arcs.len() {
        push_arc(
            text,
            scheme,
            staged,
            first + segment,
            segment,
            &arcs[segment],
        )?;
    }
    Ok(())
}

// Writes the records of all arcs, which are the segments of these staged arcs, numbered from 0.
fn push_arcs(
    text: &mut Text,
    scheme: &Scheme,
    staged: &[Staged],
    arcs: &[NetArc],
) -> Result<(), Memory>
    requires arcs { arcs.now ≡ flat_arcs staged.now }
    requires few { length arcs.now ≤ 100000 }
    requires closed { text.old.fields ≡ [] }
    ensures text { OnOk result (text.new.bytes ≡ text.old.bytes ++ records_text (map (arc_record scheme.now.flows) (enumerate_from 0 (flat_map numbered_segments staged.now)))) }
    ensures closed { OnOk result (text.new.fields ≡ []) }
{
    let mut number = 0;
    let mut rest = arcs;
    for stage in staged {
        let (own, later) = rest.split_at(1 + stage.bands.as_slice().len());
        push_segments(text, scheme, stage, number, own)?;
        number += own.len();
        rest = later;
    }
    Ok(())
}

// ---- the whole

// Writes the two records at the head.
fn push_head(text: &mut Text, nodes: usize, arcs: usize) -> Result<(), Memory>
    requires { text.old.fields ≡ [] }
    ensures text { OnOk result (text.new.bytes ≡ text.old.bytes ++ records_text ((codes "netplan-net" ∷ codes "1" ∷ []) ∷ (codes "size" ∷ decimal nodes ∷ decimal arcs ∷ []) ∷ [])) }
    ensures closed { OnOk result (text.new.fields ≡ []) }
{
    text.word(b"netplan-net")?;
    text.word(b"1")?;
    text.end()?;
    text.word(b"size")?;
    text.number(nodes as u64)?;
    text.number(arcs as u64)?;
    text.end()
}

/// The text of the expanded network of a scheme: its arcs are those that [`flatten`] answers.
///
/// It takes time and memory in proportion to the text. `Memory` comes where memory ran out.
#[tactic(auto, unfolding(crate::specs::Texts::Network::net_text))]
pub fn net_text(alloc: Global, scheme: &Scheme) -> Result<Vec<u8>, Memory>
    ensures { IfOk result (λ text. text.items ≡ net_text scheme.now) }
{
    let expanded = expand_periods(alloc, scheme)?;
    let net = flatten(alloc, &expanded)?;
    let arcs = net.arcs.as_slice();
    let mut text = Text::new(alloc);
    push_head(&mut text, scheme.supply.as_slice().len(), arcs.len())?;
    push_nodes(&mut text, scheme)?;
    push_arcs(&mut text, scheme, expanded.staged.as_slice(), arcs)?;
    text.word(b"end")?;
    text.end()?;
    text.into_bytes()
}
