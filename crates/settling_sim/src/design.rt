//! What stays in a run: the net, its clocks, the next values of its registers, and which bit copies which.
ghost use Rattle.std.specs.Prelude.{◌≡◌, Option, None, replicate, length, IfOk};
ghost use Rattle.domains.specs.Assignment.{clock_of};
ghost use Rattle.cell_graph.specs.declared.cell.CellId.{CellId};
ghost use Rattle.cell_graph.specs.Unfolded.{IsWellFormed};
ghost use Rattle.cdc_model.specs.Design.{are_equal};
ghost use Rattle.settling_sim.specs.Design.{take_cells, cell_in, copied_in, ShowsCopies};

use cdc_base::{Bit, List, NoMemory};
use cell_graph::{CellId, Net, Node, Reg};
use cofactor::{Cube, Table};
use domains::Domains;
use std::alloc::Global;

/// A net and its domains, with the cell of each register's next value by its signal, and a table in which no bit is fixed.
#[derive(Drop)]
pub struct Design<'a> {
    pub net: &'a Net,
    pub domains: &'a Domains,
    pub cells: Vec<Option<CellId>>,
    pub copies: Table,
}

fn take_cells(cells: &mut [Option<CellId>], regs: &[Reg])
    ensures { cells.new ≡ take_cells regs.now cells.old }
{
    for reg in regs {
        let place = reg.sig as usize;
        if place < cells.len() {
            cells[place] = Some(reg.next);
        }
    }
}

/// The cells of the registers' next values, by their signals.
fn next_cells(alloc: Global, net: &Net) -> Result<Vec<Option<CellId>>, NoMemory>
    ensures { IfOk result (λ cells. cells.items ≡ take_cells net.now.regs (replicate (length net.now.graph.signals) None)) }
{
    let Ok(mut cells) = vec![in alloc; None; net.graph.signals().len()] else {
        return Err(NoMemory);
    };
    take_cells(&mut cells, net.regs.as_slice());
    Ok(cells)
}

/// A table in which no bit is fixed.
fn plain_table(alloc: Global, net: &Net) -> Result<Table, NoMemory>
    ensures { IfOk result (λ table. IsWellFormed net.now.graph → ShowsCopies net.now table) }
{
    let fixed = List::new(alloc);
    Table::open(alloc, net, &Cube { fixed })
}

impl<'a> Design<'a> {
    pub fn open(alloc: Global, net: &'a Net, domains: &'a Domains) -> Result<Design<'a>, NoMemory>
        ensures net { IfOk result (λ d. d.net.now ≡ net.now) }
        ensures domains { IfOk result (λ d. d.domains.now ≡ domains.now) }
        ensures cells { IfOk result (λ d. d.cells.items ≡ take_cells net.now.regs (replicate (length net.now.graph.signals) None)) }
        ensures copies { IfOk result (λ d. IsWellFormed net.now.graph → ShowsCopies net.now d.copies) }
    {
        Ok(Design {
            net,
            domains,
            cells: next_cells(alloc, net)?,
            copies: plain_table(alloc, net)?,
        })
    }

    /// The bit that a register bit is a plain copy of.
    pub fn copied(&self, bit: Bit) -> Option<Bit>
        ensures { result ≡ copied_in self.now.cells.items self.now.copies bit }
    {
        match self.cells.get(bit.sig as usize).copied().flatten() {
            Some(cell) => self.copies.same(Node { cell, at: bit.at }),
            None => None,
        }
    }

    /// Whether both bits have a clock, and it is one.
    pub fn share_clock(&self, one: Bit, another: Bit) -> bool
        ensures { result ≡ are_equal (clock_of self.now.domains.now one) (clock_of self.now.domains.now another) }
    {
        match (self.domains.clock_of(one), self.domains.clock_of(another)) {
            (Some(clock), Some(other)) => clock == other,
            _ => false,
        }
    }
}
