//! The values that register bits would take if a bit had its other value.
ghost use Rattle.std.specs.Prelude.{◌≡◌, ◌<◌, ◌∷◌, [], true, length, IfOk, Some};
ghost use Rattle.cell_graph.specs.Unfolded.{IsWellFormed};
ghost use Rattle.cell_graph.specs.Values.{AreWordsOf};
ghost use Rattle.cdc_model.specs.Nets.{is_register_bit, is_within};
ghost use Rattle.settling_sim.specs.Reader.{next_with};
ghost use Rattle.settling_sim.specs.Runs.{HasCells};
ghost use Rattle.campaign.specs.Room.{HasProbe};

use crate::flipped::{fill_cells, word_at};
use cdc_base::{Bit, NoMemory};
use cdc_model::view::{has_bit, next_node};
use cell_graph::{CellId, Net};
use settling_sim::moment::zeros;
use std::alloc::Global;

/// Room for a value of each cell, with the cells below `top`, which are kept while the same cell is asked for.
#[derive(Drop)]
pub struct Probe {
    pub values: Vec<u64>,
    pub top: Option<CellId>,
    pub cells: Vec<CellId>,
}

impl Probe {
    pub fn open(alloc: Global, net: &Net) -> Result<Probe, NoMemory>
        ensures { IfOk result (HasProbe net.now) }
    {
        Ok(Probe {
            values: zeros(alloc, net.graph.cell_count() as usize)?,
            top: None,
            cells: Vec::new(alloc),
        })
    }

    /// Keeps the cells below this one.
    fn look_below(&mut self, alloc: Global, net: &Net, top: CellId) -> Result<(), NoMemory>
        ensures top { IfOk result (λ _. self.new.top ≡ Some top) }
        ensures room { IfOk result (λ _. IsWellFormed net.now.graph → top.0 < length net.now.graph.cells → HasProbe net.now self.old → HasProbe net.now self.new) }
    {
        if self.top == Some(top) {
            return Ok(());
        }
        let tops = [top];
        let cells = net.graph.cells_below(alloc, &tops)?;
        self.cells = cells;
        self.top = Some(top);
        Ok(())
    }

    /// The value that a register bit takes next if a bit of the words has its other value: each cell below the register's
    /// next value is evaluated once.
    pub fn next_with(
        &mut self,
        alloc: Global,
        net: &Net,
        words: &[u64],
        flipped: Bit,
        bit: Bit,
    ) -> Result<bool, NoMemory>
        ensures room { IfOk result (λ _. HasCells net.now → HasProbe net.now self.old → HasProbe net.now self.new) }
        ensures value { IfOk result (λ value. HasCells net.now → HasProbe net.now self.old → AreWordsOf net.now.graph.signals words.now → is_within net.now flipped ≡ true →
            is_register_bit net.now bit ≡ true → value ≡ next_with net.now words.now (flipped ∷ []) bit) }
    {
        let Some(node) = next_node(net, bit) else {
            return Ok(false);
        };
        self.look_below(alloc, net, node.cell)?;
        fill_cells(
            &net.graph,
            words,
            flipped,
            self.cells.as_slice(),
            &mut self.values,
        );
        let value = word_at(self.values.as_slice(), node.cell.0);
        Ok(has_bit(value, node.at))
    }
}
