//! What a flow joins, and its gain, as its record tells.

ghost use Rattle.std.specs.Prelude.{◌≡◌, ◌≤◌, ◌&&◌, length};
ghost use Rattle.csv.specs.Records.{fields_of};
ghost use Rattle.np_records.specs.Faults.{Reads};
ghost use Rattle.np_records.specs.Rows.{is_kind};
ghost use Rattle.net_csv.specs.Network.{is_flow, kind_in, bounds_place};
ghost use Rattle.net_csv.specs.Faults.{kind_fault, ends_fault};

use crate::fields::{gain, used_name};
use crate::refused::Code;
use np_model::FlowKind;
use np_records::{ByteRecord, NameTable, field, is_kind};

/// Whether the record gives a flow.
pub(crate) fn is_flow(row: &ByteRecord) -> bool
    ensures { result ≡ is_flow (fields_of row.now) }
{
    is_kind(row, b"arc") || is_kind(row, b"hold") || is_kind(row, b"drain") || is_kind(row, b"feed")
}

/// Where the numbers of a flow's record begin.
pub(crate) fn bounds_place(row: &ByteRecord) -> usize
    ensures place { result ≡ bounds_place (fields_of row.now) }
    ensures small { result ≤ 5 }
{
    if is_kind(row, b"arc") {
        5
    } else if is_kind(row, b"hold") {
        4
    } else {
        3
    }
}

/// What a flow joins, and its gain where it has one.
pub(crate) fn flow_kind(nodes: &NameTable, row: &ByteRecord) -> Result<FlowKind, Code>
    requires { length nodes.now ≤ 20000 }
    ensures { Reads result (kind_fault nodes.now (fields_of row.now)) (kind_in nodes.now (fields_of row.now)) }
{
    let node = used_name(nodes, field(row, 2))? as u32;
    if is_kind(row, b"arc") {
        let to = used_name(nodes, field(row, 3))? as u32;
        let gain = gain(field(row, 4))?;
        return Ok(FlowKind::Link {
            from: node,
            to,
            gain,
        });
    }
    if is_kind(row, b"hold") {
        let gain = gain(field(row, 3))?;
        return Ok(FlowKind::Hold { node, gain });
    }
    if is_kind(row, b"drain") {
        return Ok(FlowKind::Drain { node });
    }
    Ok(FlowKind::Feed { node })
}

/// Looks whether the ends of an arc differ.
pub(crate) fn ends(row: &ByteRecord) -> Result<(), Code>
    ensures { Reads result (ends_fault (fields_of row.now)) tt }
{
    if is_kind(row, b"arc") && field(row, 2) == field(row, 3) {
        return Err(Code::SameEnds);
    }
    Ok(())
}
