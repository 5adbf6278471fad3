//! The first moment of a run.
ghost use Rattle.std.specs.Prelude.{◌≡◌, ◌≤◌, ◌^◌, ◌++◌, codes, length, IfOk};
ghost use Rattle.run_report.specs.Lines.{start_line, start_lines, IsPrintable};

use crate::value::{add_value, word_at};
use cdc_base::{List, NoMemory, Signal};
use cell_graph::Net;
use domains::Domains;
use report::text::Text;
use settling_sim::is_state_signal;
use std::alloc::Global;

fn add_start(text: &mut Text, signal: &Signal, value: u64) -> Result<(), NoMemory>
    ensures { IfOk result (λ _. text.new ≡ text.old ++ start_line signal.now value) }
{
    text.add("  ")?;
    text.add(signal.name.as_str())?;
    text.add(" = ")?;
    add_value(text, signal.width, value)?;
    text.add("\n")
}

fn add_starts(text: &mut Text, net: &Net, domains: &Domains, words: &[u64]) -> Result<(), NoMemory>
    ensures { IsPrintable net.now domains.now → IfOk result (λ _. text.new ≡ text.old ++ start_lines net.now domains.now words.now 0 net.now.graph.signals) }
{
    for (place, signal) in net.graph.signals().iter().enumerate() {
        let Ok(sig) = u32::try_from(place) else {
            return Ok(());
        };
        if is_state_signal(net, domains, sig) {
            add_start(text, signal, word_at(words, sig))?;
        }
    }
    Ok(())
}

/// The values at the start of a run: a line for each state signal. `words` has the word of each signal.
pub fn start_text(
    alloc: Global,
    net: &Net,
    domains: &Domains,
    words: &[u64],
) -> Result<List<u8>, NoMemory>
    ensures { IsPrintable net.now domains.now → IfOk result (λ text. text ≡ codes "start\n" ++ start_lines net.now domains.now words.now 0 net.now.graph.signals) }
{
    let mut text = Text::new(alloc);
    text.add("start\n")?;
    add_starts(&mut text, net, domains, words)?;
    Ok(text.into_list())
}
