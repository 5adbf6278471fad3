//! The values that register bits take next.
ghost use Rattle.std.specs.Prelude.{◌≡◌, true, All, IfOk};
ghost use Rattle.cell_graph.specs.Values.{AreWordsOf, values_of};
ghost use Rattle.cdc_model.specs.Nets.{AreAscending, is_register_bit, is_within};
ghost use Rattle.settling_sim.specs.Runs.{HasCells};
ghost use Rattle.settling_sim.specs.Reader.{next_in, next_with, HasRoom};

use crate::moment::zeros;
use crate::word::flip;
use cdc_base::{Bit, NoMemory};
use cdc_model::view::{has_bit, next_node};
use cell_graph::{Net, Values};
use std::alloc::Global;

/// The values of all cells of a net: `plain` as the words of its signals are, `tried` with some bits flipped.
#[derive(Drop)]
pub struct Reader {
    pub plain: Values,
    pub flipped: Vec<u64>,
    pub tried: Values,
}

impl Reader {
    pub fn open(alloc: Global, net: &Net) -> Result<Reader, NoMemory>
        ensures { IfOk result (HasRoom net.now) }
    {
        Ok(Reader {
            plain: Values::open(alloc, &net.graph)?,
            flipped: zeros(alloc, net.graph.signals().len())?,
            tried: Values::open(alloc, &net.graph)?,
        })
    }

    /// The value that the register bit takes next where the bits of a list have their other value. `plain` has the values
    /// that the words give.
    pub fn next_with(&mut self, net: &Net, words: &[u64], flips: &[Bit], bit: Bit) -> bool
        ensures plain { self.new.plain ≡ self.old.plain }
        ensures room { HasRoom net.now self.old → HasRoom net.now self.new }
        ensures value { HasCells net.now → HasRoom net.now self.old → AreWordsOf net.now.graph.signals words.now →
            self.old.plain ≡ values_of net.now.graph words.now → All (λ b. is_within net.now b ≡ true) flips.now →
            is_register_bit net.now bit ≡ true → result ≡ next_with net.now words.now flips.now bit }
    {
        if flips.is_empty() {
            return next_value(net, &self.plain, bit);
        }
        flip(&mut self.flipped, words, flips);
        self.tried.fill(&net.graph, self.flipped.as_slice());
        next_value(net, &self.tried, bit)
    }
}

fn next_value(net: &Net, values: &Values, bit: Bit) -> bool
    ensures { AreAscending net.now.regs → result ≡ next_in values.now net.now.regs bit }
{
    match next_node(net, bit) {
        Some(node) => has_bit(values.value(node.cell), node.at),
        None => false,
    }
}
