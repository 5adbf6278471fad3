//! Nodes below inversions.
ghost use Rattle.std.specs.Prelude.{◌≡◌, [], Some, None};
ghost use Rattle.cell_graph.specs.declared.net.Net.{Net};
ghost use Rattle.cell_graph.specs.Unfolded.{IsNodeOf, tree_of};
ghost use Rattle.cdc_model.specs.Tables.{ShowsNet};
ghost use Rattle.fifo_terms.specs.Terms.{bare, beside_known};
ghost use Rattle.gray_pointer.specs.Words.{IsPlain};
ghost use Rattle.fifo_nodes.specs.Nodes.{IsBareOf, IsOwn, IsSeenAs, known_of, seen_as};

use crate::bits::exclusive_or;
use cdc_model::view::known_value;
use cell_graph::{Cell, Net, Node};
use cofactor::{Table, origin};

/// A node, inverted or as it is. None is the zero bit.
#[derive(Clone, Copy, Drop)]
pub struct Bare {
    pub node: Option<Node>,
    pub inverted: bool,
}

/// The node below inversions, and below exclusive ors with a known side.
pub fn bare_node(net: &Net, table: &Table, node: Node) -> Bare
    ensures { IsPlain net.now.graph → ShowsNet net.now [] table.now → IsNodeOf net.now.graph node →
        IsBareOf net.now.graph (bare (tree_of net.now.graph node.cell) node.at) result }
{
    let mut below = Operand {
        node,
        inverted: false,
    };
    'down: loop {
        let Some(bit) = origin(net, below.node) else {
            return Bare {
                node: None,
                inverted: below.inverted,
            };
        };
        let reached = Bare {
            node: Some(bit),
            inverted: below.inverted,
        };
        let Some(operand) = operand_of(net, table, bit) else {
            return reached;
        };
        if operand.node.cell.0 >= below.node.cell.0 {
            return reached;
        }
        below = Operand {
            node: operand.node,
            inverted: exclusive_or(below.inverted, operand.inverted),
        };
    }
}

/// An operand that a node is, inverted or as it is.
#[derive(Clone, Copy, Drop)]
struct Operand {
    node: Node,
    inverted: bool,
}

fn operand_of(net: &Net, table: &Table, node: Node) -> Option<Operand>
    ensures { IsPlain net.now.graph → ShowsNet net.now [] table.now → IsOwn net.now.graph node → IsSeenAs net.now.graph node result }
{
    let at = node.at;
    match net.graph.cell(node.cell) {
        Cell::Not { a } => Some(Operand {
            node: Node { cell: a, at },
            inverted: true,
        }),
        Cell::Xor { a, b } => operand_beside(table, Node { cell: a, at }, Node { cell: b, at }),
        _ => None,
    }
}

/// One of two nodes, where the other one is known.
fn operand_beside(table: &Table, one: Node, another: Node) -> Option<Operand>
    ensures { (net : Net) → ShowsNet net [] table.now → IsNodeOf net.graph one → IsNodeOf net.graph another →
        result ≡ beside_known (known_of net.graph one) (known_of net.graph another) (seen_as another) (seen_as one) None }
{
    if let Some(value) = known_value(table, one) {
        return Some(Operand {
            node: another,
            inverted: value,
        });
    }
    match known_value(table, another) {
        Some(value) => Some(Operand {
            node: one,
            inverted: value,
        }),
        None => None,
    }
}
