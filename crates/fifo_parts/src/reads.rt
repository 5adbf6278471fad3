//! Nodes that choose among words by a count.
ghost use Rattle.std.specs.Prelude.{◌≡◌, ◌+◌, ◌<◌, ℕ, Some, length, IfOk};
ghost use Rattle.cell_graph.specs.Feeds.{node};
ghost use Rattle.cell_graph.specs.Unfolded.{IsNodeOf};
ghost use Rattle.domains.specs.declared.Domains.{Domains};
ghost use Rattle.fifo_parts.specs.Tellers.{IsShown};
ghost use Rattle.fifo_parts.specs.Words.{AreCounts, AreReadBy, AreReads, AreReadsAmong, IsBefore, IsCountOf, IsZeroOf, SayZero};

use crate::pair::own_bit;
use crate::side::MAX_WIDTH;
use cdc_base::{Bit, List, NoMemory};
use cdc_model::view::width_of;
use cell_graph::{Cell, CellId, Net, Node};
use cofactor::Table;
use fifo_nodes::{Term, terms};
use fifo_ways::chosen;
use std::alloc::Global;
use std::collections::HashMap;

/// A node that chooses among words by all bits but the highest of a count.
#[derive(Drop)]
pub struct Read {
    pub node: Node,
    pub count: u32,
    pub words: List<Bit>,
}

/// All reads of the net, whatever the bits are among which they choose, in the order of their cells.
pub fn reads(alloc: Global, net: &Net, table: &Table) -> Result<List<Read>, NoMemory>
    ensures { IfOk result (λ reads. (domains : Domains) → IsShown net.now table.now → AreReads net.now domains reads) }
{
    let mut counts = HashMap::new(alloc);
    let mut reads = List::new(alloc);
    for place in 0..net.graph.cell_count() {
        add_cell(alloc, net, table, &mut counts, CellId(place), &mut reads)?;
    }
    Ok(reads)
}

/// Adds the bits of a cell that are reads.
fn add_cell(
    alloc: Global,
    net: &Net,
    table: &Table,
    counts: &mut HashMap<CellId, Option<u32>>,
    cell: CellId,
    reads: &mut List<Read>,
) -> Result<(), NoMemory>
    ensures counts { IfOk result (λ _. IsShown net.now table.now → cell.0 < length net.now.graph.cells → AreCounts net.now counts.old → AreCounts net.now counts.new) }
    ensures reads { IfOk result (λ _. (domains : Domains) → IsShown net.now table.now → cell.0 < length net.now.graph.cells → AreCounts net.now counts.old →
        AreReadsAmong net.now domains (IsBefore cell.0) reads.old → AreReadsAmong net.now domains (IsBefore (cell.0 + 1)) reads.new) }
{
    let Cell::Mux { cond, .. } = net.graph.cell(cell) else {
        return Ok(());
    };
    let Some(count) = count_of(alloc, net, table, counts, cond)? else {
        return Ok(());
    };
    add_reads(alloc, net, table, count, cell, reads)
}

/// The count by whose word 0 a condition chooses. Each condition is looked at once.
fn count_of(
    alloc: Global,
    net: &Net,
    table: &Table,
    counts: &mut HashMap<CellId, Option<u32>>,
    cond: CellId,
) -> Result<Option<u32>, NoMemory>
    ensures counts { IfOk result (λ _. IsShown net.now table.now → IsNodeOf net.now.graph (node cond 0) → AreCounts net.now counts.old → AreCounts net.now counts.new) }
    ensures count { IfOk result (λ count. IsShown net.now table.now → IsNodeOf net.now.graph (node cond 0) → AreCounts net.now counts.old → IsCountOf net.now cond count) }
{
    if let Some(count) = counts.get(&cond) {
        return Ok(*count);
    }
    let said = terms(alloc, net, table, Some(Node { cell: cond, at: 0 }), true)?;
    let count = count_at_zero(net, said.as_slice());
    match counts.insert(cond, count) {
        Ok(_) => Ok(count),
        Err(_) => Err(NoMemory),
    }
}

/// The signal of which all terms say that a bit is 0.
fn count_at_zero(net: &Net, terms: &[Term]) -> Option<u32>
    ensures { (sig : ℕ) → SayZero net.now.graph sig terms.now → result ≡ Some sig }
{
    let mut count = None;
    for term in terms {
        let sig = zero_of(net, *term)?;
        if count.unwrap_or(sig) != sig {
            return None;
        }
        count = Some(sig);
    }
    count
}

/// The signal of which the term says that a bit is 0.
fn zero_of(net: &Net, term: Term) -> Option<u32>
    ensures { (sig : ℕ) → IsZeroOf net.now.graph sig term → result ≡ Some sig }
{
    let Term::Is {
        node: Some(node),
        value: false,
    } = term
    else {
        return None;
    };
    Some(own_bit(net, node)?.sig)
}

/// Adds the bits of a cell that are reads by the count.
fn add_reads(
    alloc: Global,
    net: &Net,
    table: &Table,
    count: u32,
    cell: CellId,
    reads: &mut List<Read>,
) -> Result<(), NoMemory>
    ensures { IfOk result (λ _. (domains : Domains) → IsShown net.now table.now → cell.0 < length net.now.graph.cells → AreReadBy net.now domains cell count →
        AreReadsAmong net.now domains (IsBefore cell.0) reads.old → AreReadsAmong net.now domains (IsBefore (cell.0 + 1)) reads.new) }
{
    let width = width_of(net, count);
    if width < 2 || width > MAX_WIDTH {
        return Ok(());
    }
    let mut conditions = List::new(alloc);
    for at in 0..net.graph.width(cell) {
        let node = Node { cell, at };
        let Some(words) = chosen(alloc, net, table, count, width, node, &mut conditions)? else {
            continue;
        };
        reads.push(Read { node, count, words })?;
    }
    Ok(())
}
