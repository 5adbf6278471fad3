//! What is looked for on ways.

use cdc_base::{Bit, List};
use cell_graph::Node;

/// A node at a value: a branch or an operand is behind it where the node has that value.
#[derive(Clone, Copy, PartialEq, Eq, Hash, Debug, Drop)]
pub struct Guard {
    pub node: Node,
    pub value: bool,
}

/// What is looked for on ways: bits of words at their ends, nodes that read words, and guards whose terms have a test.
#[derive(Drop)]
pub struct Sought {
    pub words: List<Bit>,
    pub reads: List<Node>,
    pub tests: List<Guard>,
}
