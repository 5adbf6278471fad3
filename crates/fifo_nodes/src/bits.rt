//! Bits of signals, and bits that are only passed on.
ghost use Rattle.std.specs.Prelude.{◌≡◌, ◌↔◌, ℕ, true, option_map};
ghost use Rattle.cdc_model.specs.Gray.{exclusive_or};
ghost use Rattle.cell_graph.specs.Unfolded.{IsWellFormed, bit_of};
ghost use Rattle.fifo_terms.specs.Takes.{is_own};
ghost use Rattle.gray_pointer.specs.Words.{IsPlain, IsIn};
ghost use Rattle.fifo_nodes.specs.Nodes.{signal_bit, origin_in, IsOwnOrZero, IsWithin};

use cdc_base::Bit;
use cell_graph::{Cell, Net, Node};
use cofactor::origin;

/// The exclusive or of two bits.
pub fn exclusive_or(one: bool, another: bool) -> bool
    ensures { result ≡ exclusive_or one another }
{
    if one { !another } else { another }
}

/// Whether a node is a bit of a signal itself.
pub fn is_bit(net: &Net, node: Option<Node>, bit: Bit) -> bool
    ensures own { IsPlain net.now.graph → IsIn net.now.graph node → result ≡ is_own bit (option_map (bit_of net.now.graph) node) }
    ensures exact { IsPlain net.now.graph → IsIn net.now.graph node →
        (result ≡ true) ↔ (option_map (bit_of net.now.graph) node ≡ signal_bit net.now.graph bit) }
{
    match node {
        Some(node) => match net.graph.cell(node.cell) {
            Cell::Var { sig } => sig == bit.sig && node.at == bit.at,
            _ => false,
        },
        None => false,
    }
}

/// The origin of a node; the zero bit has itself.
pub fn origin_of(net: &Net, node: Option<Node>) -> Option<Node>
    ensures exact { IsWellFormed net.now.graph → IsIn net.now.graph node → option_map (bit_of net.now.graph) result ≡ origin_in net.now.graph node }
    ensures own { IsWellFormed net.now.graph → IsIn net.now.graph node → IsOwnOrZero net.now.graph result }
    ensures within { (n : ℕ) → IsWellFormed net.now.graph → IsWithin net.now.graph n node → IsWithin net.now.graph n result }
{
    match node {
        Some(node) => origin(net, node),
        None => None,
    }
}
