//! What a step changed.
ghost use Rattle.std.specs.Prelude.{◌≡◌, ◌++◌, IfOk};
ghost use Rattle.run_report.specs.Lines.{change_line, change_lines, unsettled_line, unsettled_lines, IsPrintable};

use crate::bits::add_bit;
use crate::value::{add_value, word_at};
use cdc_base::{Bit, NoMemory, Signal};
use cell_graph::Net;
use domains::Domains;
use report::text::Text;
use settling_sim::is_state_signal;

fn add_change(text: &mut Text, signal: &Signal, before: u64, after: u64) -> Result<(), NoMemory>
    ensures { IfOk result (λ _. text.new ≡ text.old ++ change_line signal.now before after) }
{
    text.add("  ")?;
    text.add(signal.name.as_str())?;
    text.add(" = ")?;
    add_value(text, signal.width, before)?;
    text.add(" -> ")?;
    add_value(text, signal.width, after)?;
    text.add("\n")
}

/// Adds a line for each state signal that has another value.
pub fn add_changes(
    text: &mut Text,
    net: &Net,
    domains: &Domains,
    before: &[u64],
    after: &[u64],
) -> Result<(), NoMemory>
    ensures { IsPrintable net.now domains.now → IfOk result (λ _. text.new ≡ text.old ++ change_lines net.now domains.now before.now after.now 0 net.now.graph.signals) }
{
    for (place, signal) in net.graph.signals().iter().enumerate() {
        let Ok(sig) = u32::try_from(place) else {
            return Ok(());
        };
        let old = word_at(before, sig);
        let new = word_at(after, sig);
        if old != new && is_state_signal(net, domains, sig) {
            add_change(text, signal, old, new)?;
        }
    }
    Ok(())
}

fn add_unsettled_bit(text: &mut Text, net: &Net, bit: Bit) -> Result<(), NoMemory>
    ensures { IfOk result (λ _. text.new ≡ text.old ++ unsettled_line net.now.graph.signals bit) }
{
    text.add("  unsettled ")?;
    add_bit(text, net, bit)?;
    text.add("\n")
}

/// Adds a line for each bit that is then unsettled.
pub fn add_unsettled(text: &mut Text, net: &Net, bits: &[Bit]) -> Result<(), NoMemory>
    ensures { IfOk result (λ _. text.new ≡ text.old ++ unsettled_lines net.now.graph.signals bits.now) }
{
    for bit in bits {
        add_unsettled_bit(text, net, *bit)?;
    }
    Ok(())
}
