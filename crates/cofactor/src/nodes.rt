//! The cofactors of one node.
ghost use Rattle.std.specs.Prelude.{◌≡◌, ◌↔◌, ◌≤◌, true, Some, option_map, IfOk};
ghost use Rattle.std.specs.List.{Contains};
ghost use Rattle.cdc_base.specs.declared.bit.Bit.{Bit};
ghost use Rattle.cell_graph.specs.declared.cell.Node.{Node};
ghost use Rattle.cell_graph.specs.Cofactor as rules;
ghost use Rattle.cell_graph.specs.Origin.{origin as tree_origin};
ghost use Rattle.cell_graph.specs.Unfolded.{IsWellFormed, IsNodeOf, bit_of, tree_of};
ghost use Rattle.cofactor.specs.Cubes.{cube_of};
ghost use Rattle.cofactor.specs.Order.{AreAscending};

use crate::cube::Cube;
use crate::table::Table;
use cdc_base::{Bit, List, NoMemory};
use cell_graph::{Cofactors, Net, Node, Passed};
use std::alloc::Global;

/// The value that the node has in every reading of the cube, where the rules show one.
pub fn known(alloc: Global, net: &Net, node: Node, cube: &Cube) -> Result<Option<bool>, NoMemory>
    ensures { IfOk result (λ o. IsWellFormed net.now.graph → IsNodeOf net.now.graph node →
        o ≡ rules.known (cube_of cube.now) (tree_of net.now.graph node.cell) node.at) }
{
    let roots = [node.cell];
    let table = Table::open_below(alloc, net, cube, &roots)?;
    Ok(table.masks(node.cell).bit(node.at))
}

/// The state bit that the node equals in every reading of the cube, where the rules show one.
pub fn same(alloc: Global, net: &Net, node: Node, cube: &Cube) -> Result<Option<Bit>, NoMemory>
    ensures { IfOk result (λ o. IsWellFormed net.now.graph → IsNodeOf net.now.graph node →
        o ≡ rules.same (cube_of cube.now) (tree_of net.now.graph node.cell) node.at) }
{
    let roots = [node.cell];
    let table = Table::open_below(alloc, net, cube, &roots)?;
    Ok(table.same(node))
}

/// The state bits that the node reads under the cube, ascending.
pub fn reads(alloc: Global, net: &Net, node: Node, cube: &Cube) -> Result<List<Bit>, NoMemory>
    ensures exact { IfOk result (λ bits. IsWellFormed net.now.graph → IsNodeOf net.now.graph node →
        (b : Bit) → (Contains bits b) ↔ (rules.reads (cube_of cube.now) (tree_of net.now.graph node.cell) node.at b ≡ true)) }
    ensures ascending { IfOk result (λ bits. AreAscending bits) }
{
    let roots = [node.cell];
    let mut table = Table::open_below(alloc, net, cube, &roots)?;
    table.reads(alloc, net, node)
}

/// The bit that the node only passes on, through concatenations, slices, extensions and shifts by constants; None
/// where that is the zero bit.
pub fn origin(net: &Net, node: Node) -> Option<Node>
    ensures exact { IsWellFormed net.now.graph → IsNodeOf net.now.graph node →
        tree_origin (tree_of net.now.graph node.cell) node.at ≡ option_map (bit_of net.now.graph) result }
    ensures within { IsWellFormed net.now.graph → IsNodeOf net.now.graph node →
        (m : Node) → result ≡ Some m → IsNodeOf net.now.graph m × (m.cell.0 ≤ node.cell.0) }
{
    let mut reached = node;
    'down: loop {
        match net.graph.passed(reached) {
            Passed::Bit(from) => {
                if from.cell.0 >= reached.cell.0 {
                    return Some(reached);
                }
                reached = from;
            }
            Passed::Zero => return None,
            Passed::Other => return Some(reached),
        }
    }
}

/// The cofactors of a net without a cube.
#[derive(Clone, Copy, Debug, Drop)]
pub struct Plain;

impl Cofactors for Plain {
    ghost use Rattle.std.specs.Prelude.{◌≡◌, []};
    ghost use Rattle.std.proofs.Common.{sym};
    ghost use Rattle.cell_graph.specs.Cofactor as rules;
    ghost use Rattle.cell_graph.specs.Unfolded.{IsWellFormed, IsNodeOf, tree_of};
    ghost use Rattle.cell_graph.proofs.Unread.{reads-unread};

    ghost reads = { λ g n b answer. IsWellFormed g → IsNodeOf g n → answer ≡ rules.reads [] (tree_of g n.cell) n.at b };

    fn origin_of(&self, net: &Net, node: Node) -> Option<Node> {
        origin(net, node)
    }

    fn reads_bit(&self, alloc: Global, net: &Net, node: Node, bit: Bit) -> Result<bool, NoMemory> {
        let free = Cube {
            fixed: List::new(alloc),
        };
        let bits = reads(alloc, net, node, &free)?;
        Ok(bits.as_slice().contains(&bit))
    }

    ghost unread = { λ g n b h well is. sym (reads-unread [] (tree_of g n.cell) n.at b h) };
}
