//! Lists of bits.
ghost use Rattle.std.specs.Prelude.{◌≡◌, ◌++◌, IfOk};
ghost use Rattle.report.specs.Names.{bit_of, spaced};
ghost use Rattle.run_report.specs.Lines.{list_of};

use cdc_base::signal::bit_name;
use cdc_base::{Bit, NoMemory};
use cell_graph::Net;
use report::text::Text;

/// Adds the printed name of a bit.
pub fn add_bit(text: &mut Text, net: &Net, bit: Bit) -> Result<(), NoMemory>
    ensures { IfOk result (λ _. text.new ≡ text.old ++ bit_of net.now.graph.signals bit) }
{
    match net.graph.signals().get(bit.sig as usize) {
        Some(signal) => {
            let name = bit_name(text.alloc(), signal, bit.at)?;
            text.add(name.as_str())
        }
        None => Ok(()),
    }
}

fn add_names(text: &mut Text, net: &Net, bits: &[Bit]) -> Result<(), NoMemory>
    ensures { IfOk result (λ _. text.new ≡ text.old ++ spaced net.now.graph.signals bits.now) }
{
    for bit in bits {
        text.add(" ")?;
        add_bit(text, net, *bit)?;
    }
    Ok(())
}

/// Adds the bits in their order, each behind a space, or a dash where there is none.
pub fn add_list(text: &mut Text, net: &Net, bits: &[Bit]) -> Result<(), NoMemory>
    ensures { IfOk result (λ _. text.new ≡ text.old ++ list_of net.now.graph.signals bits.now) }
{
    if bits.is_empty() {
        return text.add(" -");
    }
    add_names(text, net, bits)
}
