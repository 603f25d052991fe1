//! The lists of a piece.

ghost use Rattle.std.specs.Prelude.{◌≡◌, ◌≤◌, IfOk};
ghost use Rattle.np_model.specs.Basis.Pieces.{IsVacant};

use np_frac::{Frac, Memory};
use np_model::{Ends, Mark};
use std::alloc::Global;
use std::marker::Model;

/// Nodes in ascending order, each with its potential.
#[derive(Debug, Drop)]
pub struct NodeList {
    pub items: Vec<(u32, Frac)>,
}

/// Basic arcs in ascending order, each with its ends and its flow.
#[derive(Debug, Drop)]
pub struct FlowList {
    pub items: Vec<(u32, Ends, Frac)>,
}

/// Arcs outside the basis in ascending order, each with its mark.
#[derive(Debug, Drop)]
pub struct MarkList {
    pub items: Vec<(u32, Mark)>,
}

/// The three lists of a piece. They keep its spare: how many nodes and how many marks more fit without memory, where a place for a node
/// counts only together with a place for a basic arc.
#[derive(Debug, Drop)]
pub struct Lists {
    pub nodes: NodeList,
    pub basics: FlowList,
    pub marks: MarkList,
}

impl Model for Lists {
    ghost use Rattle.std.specs.Prelude.{◌-◌, min};
    ghost use Rattle.quasi_tree.specs.Store.{Store};

    ghost Value = { Store };

    ghost view = { λ l. record {
      lists = record { nodes = l.nodes.items.items; basics = l.basics.items.items; marks = l.marks.items.items };
      node_spare = min (l.nodes.items.cap - l.nodes.items.len) (l.basics.items.cap - l.basics.items.len);
      mark_spare = l.marks.items.cap - l.marks.items.len;
    } };
}

impl Lists {
    // Empty lists with room for so many nodes, each with a basic arc, and so many marks.
    pub(crate) fn with_room(alloc: Global, nodes: usize, marks: usize) -> Result<Lists, Memory>
        ensures vacant { IfOk result (λ l. IsVacant l.lists) }
        ensures nodes_fit { IfOk result (λ l. nodes ≤ l.node_spare) }
        ensures marks_fit { IfOk result (λ l. marks ≤ l.mark_spare) }
    {
        let nodes_with_room = Vec::with_capacity(alloc, nodes)?;
        let basics_with_room = Vec::with_capacity(alloc, nodes)?;
        let marks_with_room = Vec::with_capacity(alloc, marks)?;
        Ok(Lists {
            nodes: NodeList {
                items: nodes_with_room,
            },
            basics: FlowList {
                items: basics_with_room,
            },
            marks: MarkList {
                items: marks_with_room,
            },
        })
    }

    // The same lists, with room for so many more nodes, each with a basic arc, and so many more marks.
    pub(crate) fn copy(&self, alloc: Global, nodes: usize, marks: usize) -> Result<Lists, Memory>
        ensures lists { IfOk result (λ l. l.lists ≡ self.now.lists) }
        ensures nodes_fit { IfOk result (λ l. nodes ≤ l.node_spare) }
        ensures marks_fit { IfOk result (λ l. marks ≤ l.mark_spare) }
    {
        let mut lists = Lists {
            nodes: NodeList {
                items: Vec::from_slice(alloc, self.nodes.items.as_slice())?,
            },
            basics: FlowList {
                items: Vec::from_slice(alloc, self.basics.items.as_slice())?,
            },
            marks: MarkList {
                items: Vec::from_slice(alloc, self.marks.items.as_slice())?,
            },
        };
        lists.nodes.items.reserve(nodes)?;
        lists.basics.items.reserve(nodes)?;
        lists.marks.items.reserve(marks)?;
        Ok(lists)
    }
}
