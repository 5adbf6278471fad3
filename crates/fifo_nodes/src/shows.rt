//! Tests for full and for empty.
ghost use Rattle.std.specs.Prelude.{◌≡◌, ◌↔◌, ◌≤◌, true, [], IfOk, length, option_map};
ghost use Rattle.cell_graph.specs.Unfolded.{IsNodeOf, bit_of, tree_of};
ghost use Rattle.cdc_model.specs.Tables.{ShowsNet};
ghost use Rattle.fifo_terms.specs.Codes.{IsCodeBit};
ghost use Rattle.fifo_terms.specs.Shows.{Shows, IsTest, IsFlagTest};
ghost use Rattle.gray_pointer.specs.Words.{IsPlain, IsIn};
ghost use Rattle.fifo_nodes.specs.Codes.{code_of, nodes_of, apart_of, IsCodeIn};
ghost use Rattle.fifo_nodes.specs.Shows.{Compares, IsApart, IsSaid};
ghost use Rattle.fifo_nodes.specs.Terms.{term_of, IsTermIn};

use crate::bits::is_bit;
use crate::codes::{Code, is_code_bit};
use crate::term::Term;
use crate::walk::terms;
use cdc_base::{Bit, NoMemory};
use cell_graph::{Net, Node};
use cofactor::Table;
use std::alloc::Global;

/// Which bits of a side's code and of the other side's code that came over differ: the two highest where the FIFO is
/// full, none where it is empty.
#[derive(Clone, Copy, Drop)]
pub enum Apart {
    Full,
    Empty,
}

impl Apart {
    /// Whether bits `at` of codes of `width` bits differ.
    fn differs(self, width: usize, at: u8) -> bool
        ensures { result ≡ apart_of self width at }
    {
        match self {
            Apart::Full => width < usize::from(at).saturating_add(3),
            Apart::Empty => false,
        }
    }
}

/// Whether a term is a test by the code: the term that a node has a value, which at the other value shows that the FIFO
/// is full, or empty. `over` is the word in which the other side's code comes over. The table is the net's without a
/// cube.
pub fn is_test(
    alloc: Global,
    net: &Net,
    table: &Table,
    code: &Code,
    over: &[Bit],
    apart: Apart,
    term: Term,
) -> Result<bool, NoMemory>
    ensures { IfOk result (λ is. IsPlain net.now.graph → ShowsNet net.now [] table.now → IsCodeIn net.now.graph code.now → length over.now ≤ 64 →
        IsTermIn net.now.graph term →
        (is ≡ true) ↔ IsTest (code_of net.now.graph code.now) (nodes_of net.now.graph over.now) (apart_of apart) (term_of net.now.graph term)) }
{
    match term {
        Term::Is { node, value } => shows(alloc, net, table, code, over, apart, node, !value),
        Term::Differ { .. } => Ok(false),
    }
}

/// Whether a flag whose next value is the node `next` tells of the next count: where the flag is to be `value`, some
/// term is a test by the code, which is that of the next count.
pub fn is_flag_test(
    alloc: Global,
    net: &Net,
    table: &Table,
    code: &Code,
    over: &[Bit],
    apart: Apart,
    next: Node,
    value: bool,
) -> Result<bool, NoMemory>
    ensures { IfOk result (λ is. IsPlain net.now.graph → ShowsNet net.now [] table.now → IsCodeIn net.now.graph code.now → length over.now ≤ 64 →
        IsNodeOf net.now.graph next →
        (is ≡ true) ↔ IsFlagTest (code_of net.now.graph code.now) (nodes_of net.now.graph over.now) (apart_of apart) (tree_of net.now.graph next.cell) next.at value) }
{
    let terms = terms(alloc, net, table, Some(next), value)?;
    for term in terms.as_slice() {
        if is_test(alloc, net, table, code, over, apart, *term)? {
            return Ok(true);
        }
    }
    Ok(false)
}

/// Whether a node shows it at a value: each of its terms says of a bit of the code and of that which came over how they
/// differ.
fn shows(
    alloc: Global,
    net: &Net,
    table: &Table,
    code: &Code,
    over: &[Bit],
    apart: Apart,
    node: Option<Node>,
    value: bool,
) -> Result<bool, NoMemory>
    ensures { IfOk result (λ is. IsPlain net.now.graph → ShowsNet net.now [] table.now → IsCodeIn net.now.graph code.now → length over.now ≤ 64 →
        IsIn net.now.graph node →
        (is ≡ true) ↔ Shows (code_of net.now.graph code.now) (nodes_of net.now.graph over.now) (apart_of apart) (option_map (bit_of net.now.graph) node) value) }
{
    let terms = terms(alloc, net, table, node, value)?;
    for term in terms.as_slice() {
        if !compares(alloc, net, table, code, over, apart, *term)? {
            return Ok(false);
        }
    }
    Ok(true)
}

/// Whether a term says of a bit of the code and of that which came over how they differ.
fn compares(
    alloc: Global,
    net: &Net,
    table: &Table,
    code: &Code,
    over: &[Bit],
    apart: Apart,
    term: Term,
) -> Result<bool, NoMemory>
    ensures { IfOk result (λ is. IsPlain net.now.graph → ShowsNet net.now [] table.now → IsCodeIn net.now.graph code.now → length over.now ≤ 64 →
        IsTermIn net.now.graph term →
        (is ≡ true) ↔ IsSaid (code_of net.now.graph code.now) (nodes_of net.now.graph over.now) (apart_of apart) (term_of net.now.graph term)) }
{
    let Term::Differ {
        one,
        another,
        value,
    } = term
    else {
        return Ok(false);
    };
    let in_order = Compared {
        own: one,
        came: another,
        value,
    };
    if compares_in_order(alloc, net, table, code, over, apart, in_order)? {
        return Ok(true);
    }
    let in_turn = Compared {
        own: another,
        came: one,
        value,
    };
    compares_in_order(alloc, net, table, code, over, apart, in_turn)
}

/// Two nodes that differ by a value: one that may be a bit of the side's own code, and one that may have come over.
#[derive(Clone, Copy, Drop)]
struct Compared {
    own: Option<Node>,
    came: Option<Node>,
    value: bool,
}

/// Whether the nodes are a bit of the code and that which came over, and differ as it does.
fn compares_in_order(
    alloc: Global,
    net: &Net,
    table: &Table,
    code: &Code,
    over: &[Bit],
    apart: Apart,
    nodes: Compared,
) -> Result<bool, NoMemory>
    ensures { IfOk result (λ is. IsPlain net.now.graph → ShowsNet net.now [] table.now → IsCodeIn net.now.graph code.now → length over.now ≤ 64 →
        IsIn net.now.graph nodes.own → IsIn net.now.graph nodes.came →
        (is ≡ true) ↔ Compares (code_of net.now.graph code.now) (nodes_of net.now.graph over.now) (apart_of apart)
        (option_map (bit_of net.now.graph) nodes.own) (option_map (bit_of net.now.graph) nodes.came) nodes.value) }
{
    let width = u8::try_from(over.len()).unwrap_or(u8::MAX);
    for at in 0..width {
        if compares_at(alloc, net, table, code, over, apart, nodes, at)? {
            return Ok(true);
        }
    }
    Ok(false)
}

/// Whether they do so at bit `at`.
fn compares_at(
    alloc: Global,
    net: &Net,
    table: &Table,
    code: &Code,
    over: &[Bit],
    apart: Apart,
    nodes: Compared,
    at: u8,
) -> Result<bool, NoMemory>
    ensures { IfOk result (λ is. IsPlain net.now.graph → ShowsNet net.now [] table.now → IsCodeIn net.now.graph code.now →
        IsIn net.now.graph nodes.own → IsIn net.now.graph nodes.came →
        (is ≡ true) ↔ IsCodeBit (code_of net.now.graph code.now) at (option_map (bit_of net.now.graph) nodes.own)
        × IsApart (nodes_of net.now.graph over.now) (apart_of apart) (option_map (bit_of net.now.graph) nodes.came) nodes.value at) }
{
    if !is_apart(net, over, apart, nodes, at) {
        return Ok(false);
    }
    is_code_bit(alloc, net, table, code, at, nodes.own)
}

/// Whether the node that may have come over is bit `at`, which differs by the value.
fn is_apart(net: &Net, over: &[Bit], apart: Apart, nodes: Compared, at: u8) -> bool
    ensures { IsPlain net.now.graph → IsIn net.now.graph nodes.came →
        (result ≡ true) ↔ IsApart (nodes_of net.now.graph over.now) (apart_of apart) (option_map (bit_of net.now.graph) nodes.came) nodes.value at }
{
    match over.get(usize::from(at)) {
        Some(bit) => {
            is_bit(net, nodes.came, *bit) && apart.differs(over.len(), at) == nodes.value
        }
        None => false,
    }
}
