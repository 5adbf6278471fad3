//! The text lines of FIFOs.
ghost use Rattle.std.specs.Prelude.{◌≡◌, ◌++◌, IfOk};
ghost use Rattle.fifo_scheme.specs.Lines.{fifo_line, fifo_lines_from, signal_text};

use crate::found::{Fifo, Fifos};
use cdc_base::{List, Name, NoMemory};
use cell_graph::Net;
use std::alloc::Global;

/// The line `fifo N: WB -> RB depth D crossings K` of each FIFO, N from 1 on. The FIFOs were found on this net.
pub fn fifo_lines(alloc: Global, net: &Net, fifos: &Fifos<'_>) -> Result<List<Name>, NoMemory>
    ensures { IfOk result (λ lines. lines ≡ fifo_lines_from net.now.graph.signals 1 fifos.now.fifos) }
{
    let mut lines = List::new(alloc);
    let mut number: u64 = 1;
    for fifo in fifos.as_slice() {
        lines.push(line_of(alloc, net, number, fifo)?)?;
        let Some(next) = number.checked_add(1) else {
            // No memory holds so many FIFOs.
            return Err(NoMemory);
        };
        number = next;
    }
    Ok(lines)
}

fn line_of(alloc: Global, net: &Net, number: u64, fifo: &Fifo) -> Result<Name, NoMemory>
    ensures { IfOk result (λ line. line ≡ fifo_line net.now.graph.signals number fifo.now) }
{
    let wb = signal_text(net, fifo.wb);
    let rb = signal_text(net, fifo.rb);
    let depth = fifo.depth;
    let crossings = fifo.crossings.len();
    match format!(in alloc; "fifo {number}: {wb} -> {rb} depth {depth} crossings {crossings}") {
        Ok(text) => Name::from_text(alloc, text.as_str()),
        Err(_) => Err(NoMemory),
    }
}

/// The printed name of a signal; nothing where the net has no such signal.
fn signal_text(net: &Net, sig: u32) -> &str
    ensures { result.now ≡ signal_text net.now.graph.signals sig }
{
    match net.graph.signals().get(sig as usize) {
        Some(signal) => signal.name.as_str(),
        None => "",
    }
}
