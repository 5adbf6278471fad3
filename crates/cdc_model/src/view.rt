//! Register bits: their next values, start values and groups.
ghost use Rattle.std.specs.Prelude.{◌≡◌, ℕ, false, Option, is_some, [], ◌∷◌, ◌++◌, ◌<◌, length, List, filter, IfOk};
ghost use Rattle.cdc_base.specs.declared.bit.Bit.{Bit};
ghost use Rattle.cell_graph.specs.declared.net.Net.{Net};
ghost use Rattle.cell_graph.specs.Cells.{Cells, cell_width};
ghost use Rattle.cell_graph.specs.Cofactor.{known, same, reads};
ghost use Rattle.cell_graph.specs.Reading as reading;
ghost use Rattle.cell_graph.specs.Tree.{bit_at};
ghost use Rattle.cell_graph.specs.Unfolded.{IsNodeOf, IsWellFormed, tree_of};
ghost use Rattle.cofactor.specs.Cubes.{fixings};
ghost use Rattle.cofactor.specs.Shown.{ShowsMasks};
ghost use Rattle.cofactor.specs.Walked.{is_sought};
ghost use Rattle.domains.specs.Assignment.{clock_of, group_of};
ghost use Rattle.domains.specs.Nets.{IsNet};
ghost use Rattle.cdc_model.specs.Design.{bits_from, differ, are_equal};
ghost use Rattle.cdc_model.specs.Found.{bits_read_by};
ghost use Rattle.cdc_model.specs.Marked.{mark_of};
ghost use Rattle.cdc_model.specs.Nets.{next_cell, next_node_of, next_tree, AreAscending, HasNextCells, bit_count, bits_of_registers, start_of, settle_at};
ghost use Rattle.cdc_model.specs.Readers.{IsMarked, ShowsBelow};
ghost use Rattle.cdc_model.specs.Tables.{ShowsNet, ShowsNext, cell_there, next_cells};

use crate::below::{Below, Marks};
use cdc_base::{Bit, List, NoMemory};
use cell_graph::{CellId, Net, Node, Reg};
use cofactor::{Cube, Fixed, Table};
use domains::Domains;
use std::alloc::Global;

/// The node of a register bit's next value; None where the bit is no register's.
pub fn next_node(net: &Net, bit: Bit) -> Option<Node>
    ensures { AreAscending net.now.regs → result ≡ next_node_of net.now bit }
{
    match next_of(net.regs.as_slice(), bit.sig) {
        Some(cell) => Some(Node { cell, at: bit.at }),
        None => None,
    }
}

/// The cell of the next value of a register, among registers that ascend.
fn next_of(regs: &[Reg], sig: u32) -> Option<CellId>
    ensures { AreAscending regs.now → result ≡ next_cell regs.now sig }
{
    match regs.binary_search_by_key(&sig, |reg| reg.sig) {
        Ok(place) => match regs.get(place) {
            Some(reg) => Some(reg.next),
            None => None,
        },
        Err(_) => None,
    }
}

/// The bits of all registers, ascending.
pub fn register_bits(alloc: Global, net: &Net) -> Result<List<Bit>, NoMemory>
    ensures { IfOk result (λ bits. bits ≡ bits_of_registers net.now.graph.signals net.now.regs) }
{
    let mut bits = List::new(alloc);
    for reg in net.regs.as_slice() {
        add_bits(net, reg.sig, &mut bits)?;
    }
    Ok(bits)
}

fn add_bits(net: &Net, sig: u32, bits: &mut List<Bit>) -> Result<(), NoMemory>
    ensures { IfOk result (λ _. bits.new ≡ bits.old ++ bits_from sig 0 (bit_count net.now.graph.signals sig)) }
{
    for at in 0..width_of(net, sig) {
        bits.push(Bit { sig, at })?;
    }
    Ok(())
}

/// The bits of a signal; 0 where the net has no such signal.
pub fn width_of(net: &Net, sig: u32) -> u8
    ensures { result ≡ bit_count net.now.graph.signals sig }
{
    match net.graph.signals().get(sig as usize) {
        Some(signal) => signal.width,
        None => 0,
    }
}

/// The value that a bit starts with, where it is known.
pub fn start_value(net: &Net, bit: Bit) -> Option<bool>
    ensures { result ≡ start_of net.now.graph.signals bit }
{
    let signal = net.graph.signals().get(bit.sig as usize)?;
    if has_bit(signal.known, bit.at) {
        Some(has_bit(signal.start, bit.at))
    } else {
        None
    }
}

/// Whether a bit of the word is set; bits from 64 on never are.
pub fn has_bit(word: u64, at: u8) -> bool
    ensures { result ≡ bit_at word at }
{
    at < 64 && word >> at & 1 == 1
}

/// The bit that a register bit plainly copies. The table is one without a cube.
pub fn copied_bit(net: &Net, table: &Table, bit: Bit) -> Option<Bit>
    ensures { IsNet net.now → HasNextCells net.now → ShowsNet net.now [] table.now → bit.at < bit_count net.now.graph.signals bit.sig →
        result ≡ same [] (next_tree net.now bit.sig) bit.at }
{
    match next_node(net, bit) {
        Some(node) => table.same(node),
        None => None,
    }
}

/// The bits that a register bit reads under the table's cube, ascending.
pub fn bits_read(
    alloc: Global,
    net: &Net,
    table: &mut Table,
    bit: Bit,
) -> Result<List<Bit>, NoMemory>
    ensures exact { IfOk result (λ bits. (cube : reading.Cube) → IsNet net.now → HasNextCells net.now → ShowsNet net.now cube table.old →
        bit.at < bit_count net.now.graph.signals bit.sig → bits ≡ bits_read_by net.now cube bit) }
    ensures unchanged { table.new ≡ table.old }
{
    match next_node(net, bit) {
        Some(node) => table.reads(alloc, net, node),
        None => Ok(List::new(alloc)),
    }
}

/// The bits of marked signals that a register bit reads under the table's cube, ascending. `marks` has the mark of each
/// signal.
pub fn marked_bits_read(
    alloc: Global,
    net: &Net,
    table: &mut Table,
    bit: Bit,
    marks: &[Option<u32>],
) -> Result<List<Bit>, NoMemory>
    ensures exact { IfOk result (λ bits. (cube : reading.Cube) → IsNet net.now → HasNextCells net.now → ShowsNet net.now cube table.old →
        bit.at < bit_count net.now.graph.signals bit.sig → bits ≡ filter (is_sought marks.now) (bits_read_by net.now cube bit)) }
    ensures unchanged { table.new ≡ table.old }
{
    match next_node(net, bit) {
        Some(node) => table.reads_marked(alloc, net, node, marks),
        None => Ok(List::new(alloc)),
    }
}

/// Whether a marked signal stands below the bit's next value. Where none does, the bit reads no bit of one.
pub fn reads_marked(net: &Net, below: &Below, bit: Bit) -> bool
    ensures { result ≡ false → (marks : List (Option ℕ)) (cube : reading.Cube) → IsNet net.now → HasNextCells net.now → ShowsBelow net.now marks below.now →
        (b : Bit) → IsMarked marks b.sig → reads cube (next_tree net.now bit.sig) bit.at b ≡ false }
{
    match next_node(net, bit) {
        Some(node) => match below.of(node.cell) {
            Marks::Nothing => false,
            _ => true,
        },
        None => false,
    }
}

/// No mark for any signal of the net.
pub fn unmarked(alloc: Global, net: &Net) -> Result<Vec<Option<u32>>, NoMemory>
    ensures { IfOk result (λ marks. length marks.items ≡ length net.now.graph.signals) }
{
    match vec![in alloc; None; net.graph.signals().len()] {
        Ok(marks) => Ok(marks),
        Err(_) => Err(NoMemory),
    }
}

/// Marks the signal of a bit.
pub fn mark(marks: &mut Vec<Option<u32>>, bit: Bit)
    ensures counted { length marks.new.items ≡ length marks.old.items }
    ensures marked { bit.sig < length marks.old.items → IsMarked marks.new.items bit.sig }
    ensures kept { (sig : ℕ) → IsMarked marks.old.items sig → IsMarked marks.new.items sig }
{
    let place = bit.sig as usize;
    if place < marks.len() {
        marks[place] = Some(0);
    }
}

pub fn is_marked(marks: &[Option<u32>], bit: Bit) -> bool
    ensures { result ≡ is_some (mark_of marks.now bit.sig) }
{
    match marks.get(bit.sig as usize) {
        Some(mark) => mark.is_some(),
        None => false,
    }
}

/// A table in which no bit is fixed.
pub fn plain_table(alloc: Global, net: &Net) -> Result<Table, NoMemory>
    ensures { IfOk result (λ table. IsWellFormed net.now.graph → ShowsNet net.now [] table) }
{
    Table::open(
        alloc,
        net,
        &Cube {
            fixed: List::new(alloc),
        },
    )
}

/// A table in which two different bits are fixed, for the next values of these register bits.
pub fn pair_table(
    alloc: Global,
    net: &Net,
    one: Fixed,
    another: Fixed,
    bits: &[Bit],
) -> Result<Table, NoMemory>
    ensures { IfOk result (λ table. IsNet net.now → HasNextCells net.now → ShowsNext net.now (fixings (one ∷ another ∷ [])) table bits.now) }
{
    let mut fixed = List::new(alloc);
    fixed.push(one)?;
    fixed.push(another)?;
    let roots = next_cells(alloc, net, bits)?;
    Table::open_below(alloc, net, &Cube { fixed }, roots.as_slice())
}

/// The cells of these bits' next values.
fn next_cells(alloc: Global, net: &Net, bits: &[Bit]) -> Result<Vec<CellId>, NoMemory>
    ensures { IfOk result (λ cells. AreAscending net.now.regs → cells.items ≡ next_cells net.now.regs bits.now) }
{
    let mut cells = Vec::new(alloc);
    for bit in bits {
        add_next_cell(net, *bit, &mut cells)?;
    }
    Ok(cells)
}

fn add_next_cell(net: &Net, bit: Bit, cells: &mut Vec<CellId>) -> Result<(), NoMemory>
    ensures { IfOk result (λ _. AreAscending net.now.regs → cells.new.items ≡ cells.old.items ++ cell_there (next_cell net.now.regs bit.sig)) }
{
    match next_of(net.regs.as_slice(), bit.sig) {
        Some(cell) => cells.push(cell).map_err(|_| NoMemory),
        None => Ok(()),
    }
}

/// Whether both bits have groups, and different ones.
pub fn are_apart(domains: &Domains, one: Bit, another: Bit) -> bool
    ensures { result ≡ differ (group_of domains.now one) (group_of domains.now another) }
{
    match (domains.group_of(one), domains.group_of(another)) {
        (Some(group), Some(other)) => group != other,
        _ => false,
    }
}

/// Whether both bits have groups, and one group.
pub fn are_together(domains: &Domains, one: Bit, another: Bit) -> bool
    ensures { result ≡ are_equal (group_of domains.now one) (group_of domains.now another) }
{
    match (domains.group_of(one), domains.group_of(another)) {
        (Some(group), Some(other)) => group == other,
        _ => false,
    }
}

/// The cycles of its clock that a bit may need to settle; 1 where it has no clock.
pub fn settle_of(domains: &Domains, bit: Bit) -> u8
    ensures { result ≡ settle_at domains.now (clock_of domains.now bit) }
{
    match domains.clock_of(bit) {
        Some(clock) => match domains.clocks.as_slice().get(clock as usize) {
            Some(pin) => pin.settle,
            None => 1,
        },
        None => 1,
    }
}

/// The value that a node has under the table's cube, where it is known.
pub fn known_value(table: &Table, node: Node) -> Option<bool>
    ensures cell { (graph : Cells) (cube : reading.Cube) → ShowsMasks graph cube table.now node.cell → node.at < cell_width graph node.cell →
        result ≡ known cube (tree_of graph node.cell) node.at }
    ensures net { (net : Net) (cube : reading.Cube) → ShowsNet net cube table.now → IsNodeOf net.graph node →
        result ≡ known cube (tree_of net.graph node.cell) node.at }
{
    let masks = table.masks(node.cell);
    if has_bit(masks.known, node.at) {
        Some(has_bit(masks.value, node.at))
    } else {
        None
    }
}
