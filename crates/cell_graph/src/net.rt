//! The net of a design: its registers' next values and its outputs, as cells.
ghost use Rattle.std.specs.Prelude.{◌≡◌, [], Bool, false, option_map, IfOk};
ghost use Rattle.cdc_base.specs.declared.bit.Bit.{Bit};
ghost use Rattle.cell_graph.specs.Cells.{Cells};
ghost use Rattle.cell_graph.specs.Cofactor as rules;
ghost use Rattle.cell_graph.specs.Origin.{origin};
ghost use Rattle.cell_graph.specs.declared.cell.Node.{Node};
ghost use Rattle.cell_graph.specs.Stands.{stands_in};
ghost use Rattle.cell_graph.specs.Unfolded.{IsWellFormed, IsNodeOf, bit_of, tree_of};

use crate::cell::{CellId, Node};
use crate::graph::Graph;
use cdc_base::{Bit, List, NoMemory};
use std::alloc::Global;

/// The cells of a design. `regs` has each register once, in ascending order; `outputs` are those of the top.
#[derive(Drop)]
pub struct Net {
    pub graph: Graph,
    pub regs: List<Reg>,
    pub outputs: List<CellId>,
}

/// A register: its signal, its next value and its clock.
#[derive(Clone, Copy, PartialEq, Eq, Debug, Drop)]
pub struct Reg {
    pub sig: u32,
    pub next: CellId,
    pub clock: CellId,
}

/// What the layer of domains asks of cofactors.
pub trait Cofactors {
    /// The answers that may be given to whether a node of a graph reads a bit.
    ghost reads: { Cells → Node → Bit → Bool → Type 0 };

    /// The bit that the node only passes on; None where it is zero.
    fn origin_of(&self, net: &Net, node: Node) -> Option<Node>
        ensures origin { IsWellFormed net.now.graph → IsNodeOf net.now.graph node →
            origin (tree_of net.now.graph node.cell) node.at ≡ option_map (bit_of net.now.graph) result };

    /// Whether the bit is among those that the node reads where no bit is fixed.
    fn reads_bit(&self, alloc: Global, net: &Net, node: Node, bit: Bit) -> Result<bool, NoMemory>
        ensures reads { IfOk result (λ answer. reads net.now.graph node bit answer) }
        ensures exact { IfOk result (λ answer. IsWellFormed net.now.graph → IsNodeOf net.now.graph node →
            answer ≡ rules.reads [] (tree_of net.now.graph node.cell) node.at bit) };

    /// No bit is read of a signal that doesn't stand in the tree.
    ghost unread: { (g : Cells) (n : Node) (b : Bit) → stands_in b.sig (tree_of g n.cell) ≡ false → reads g n b false };
}
