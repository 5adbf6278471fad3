//! The words after a step in which no flop races.
ghost use Rattle.std.specs.Prelude.{◌≡◌, ◌<◌, length};
ghost use Rattle.settling_sim.specs.Trial.{take_next, take_given};
ghost use Rattle.campaign.specs.Lanes.{lane};

use crate::lanes::Lanes;
use cdc_base::Bit;
use cdc_model::Given;
use cell_graph::Reg;
use domains::Domains;
use settling_sim::edges::ticks;
use settling_sim::moment::take_given;
use settling_sim::word::{copy_words, put_word};

/// Sets the words of registers with a ticking clock to their next values in a lane, which is below 8.
fn take_next(
    domains: &Domains,
    ticking: &[bool],
    cells: &Lanes,
    index: usize,
    regs: &[Reg],
    words: &mut [u64],
)
    ensures { index < 8 → words.new ≡ take_next domains.now ticking.now (lane index cells.now) regs.now words.old }
{
    for reg in regs {
        let bit = Bit {
            sig: reg.sig,
            at: 0,
        };
        if ticks(domains, ticking, bit) {
            put_word(words, reg.sig, cells.value_in(reg.next, index));
        }
    }
}

/// Sets `words` to those after a step from the words `before`, by the values of the cells in a lane.
pub fn take_plain(
    domains: &Domains,
    ticking: &[bool],
    cells: &Lanes,
    index: usize,
    regs: &[Reg],
    before: &[u64],
    inputs: &[Given],
    words: &mut [u64],
)
    ensures { index < 8 → length words.old ≡ length before.now →
        words.new ≡ take_given inputs.now (take_next domains.now ticking.now (lane index cells.now) regs.now before.now) }
{
    copy_words(words, before);
    take_next(domains, ticking, cells, index, regs, words);
    take_given(inputs, words);
}
