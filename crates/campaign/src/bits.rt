//! Bits and races as JSON.
ghost use Rattle.std.specs.Prelude.{◌≡◌, ◌++◌, ◌∷◌, [], map, codes, IfOk};
ghost use Rattle.json.specs.Json.{string};
ghost use Rattle.json.specs.Tree.{json_tokens};
ghost use Rattle.report.specs.Names.{bit_of};
ghost use Rattle.report.specs.VerdictJson.{entry_tokens};
ghost use Rattle.campaign.specs.Lines.{bits_value, else_entries, race_value};

use cdc_base::{Bit, List, NoMemory};
use cdc_model::Race;
use cell_graph::Net;
use report::line::Line;
use report::names::add_bit;
use report::output::Output;

fn add_bit_name(output: &mut Output, net: &Net, bit: Bit) -> Result<(), NoMemory>
    ensures { IfOk result (λ _. output.new ≡ output.old ++ json_tokens (string (bit_of net.now.graph.signals bit))) }
{
    let mut name = Line::new(output.alloc());
    add_bit(&mut name, net, bit)?;
    output.text(name.as_str())
}

fn add_bits(output: &mut Output, net: &Net, bits: &[Bit]) -> Result<(), NoMemory>
    ensures { IfOk result (λ _. output.new ≡ output.old ++ json_tokens (bits_value net.now.graph.signals bits.now)) }
{
    output.begin_array()?;
    for bit in bits {
        add_bit_name(output, net, *bit)?;
    }
    output.end_array()
}

/// Adds a key and the names of bits.
fn add_entry(output: &mut Output, name: &str, net: &Net, bits: &[Bit]) -> Result<(), NoMemory>
    ensures { IfOk result (λ _. output.new ≡ output.old ++ entry_tokens ((name.now, bits_value net.now.graph.signals bits.now) ∷ [])) }
{
    output.key(name)?;
    add_bits(output, net, bits)
}

/// Adds the other bits of a race, where it has them.
fn add_other(output: &mut Output, net: &Net, other: &Option<List<Bit>>) -> Result<(), NoMemory>
    ensures { IfOk result (λ _. output.new ≡ output.old ++ entry_tokens (else_entries net.now.graph.signals other.now)) }
{
    match other {
        Some(bits) => add_entry(output, "else", net, bits.as_slice()),
        None => Ok(()),
    }
}

pub fn add_race(output: &mut Output, net: &Net, race: &Race) -> Result<(), NoMemory>
    ensures { IfOk result (λ _. output.new ≡ output.old ++ json_tokens (race_value net.now.graph.signals race.now)) }
{
    output.begin_object()?;
    output.key("bit")?;
    add_bit_name(output, net, race.bit)?;
    add_other(output, net, &race.other)?;
    add_entry(output, "flip", net, race.flip.as_slice())?;
    output.end_object()
}
