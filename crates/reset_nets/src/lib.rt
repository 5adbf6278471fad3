//! Reset nets: the signals that single assignments make of a source's declared resets, and the design in which they count
//! as resets.
#![tactic(auto)]

ghost use Rattle.std.specs.Prelude.{◌≡◌, ◌++◌, IfOk, IfErr};
ghost use Rattle.refusals.specs.Numbers.{HasNumberIn, unfolding_numbers};
ghost use Rattle.verilog_reading.specs.SourceTree.{source_of};
ghost use Rattle.flat_unfolding.specs.Formed.{IsSourceFormed};
ghost use Rattle.flat_unfolding.specs.Widths.{KeepsSizes};
ghost use Rattle.signal_names.specs.Laws.{IsSourceVisible};
ghost use Rattle.flat_design.specs.Flattened.{IsFlattened};
ghost use Rattle.reset_nets.specs.Designs.{AreResetNets, IsDesign, NetsAreOne};

mod drives;
mod levels;
mod nets;

use cdc_base::{Name, NoMemory, ResetPin, Stop};
use flat_design::{flatten, wires};
use flat_form::flat::Flat;
use flat_form::memory::push;
use nets::nets_of;
use std::alloc::Global;
use verilog_ast::Source;

/// The reset nets of a source beside these resets, each as a reset of its printed name, in ascending order. A reset net is
/// a declared reset; or a signal of one bit to which exactly one assignment goes, under its plain name, where the assigned
/// value reads reset nets alone, at least one, and isn't the same with all these at their inactive levels as with all at
/// their active ones. There are none where a rule is broken before the wires of the source are known.
pub fn reset_nets(
    alloc: Global,
    source: &Source,
    top: &Name,
    resets: &[ResetPin],
) -> Result<Vec<ResetPin>, NoMemory>
    ensures { IsSourceFormed (source_of source.now) → IfOk result (λ nets. AreResetNets (source_of source.now) top.now resets.now nets.items) }
{
    if resets.is_empty() {
        return Ok(Vec::new(alloc));
    }
    match wires(alloc, source, top) {
        Ok(design) => nets_of(alloc, &design, resets),
        Err(Stop::Refused(_)) => Ok(Vec::new(alloc)),
        Err(Stop::Memory) => Err(NoMemory),
    }
}

/// Unfolds the source from its module `top` as `flatten` does, with its reset nets among the resets.
pub fn design(
    alloc: Global,
    source: &Source,
    top: &Name,
    resets: &[ResetPin],
    named: &[Name],
) -> Result<Flat, Stop>
    ensures exact { IsSourceFormed (source_of source.now) → IsDesign (source_of source.now) top.now resets.now named.now result }
    ensures sizes { IsSourceFormed (source_of source.now) → IfOk result KeepsSizes }
    ensures fact { IsSourceFormed (source_of source.now) → IsSourceVisible (source_of source.now) → IfOk result IsFlattened }
    ensures numbered { IfErr result (HasNumberIn unfolding_numbers) }
{
    let nets = reset_nets(alloc, source, top, resets)?;
    let all = joined(alloc, resets, nets.as_slice())?;
    flatten(alloc, source, top, all.as_slice(), named)
}

/// Both lists of resets, one behind the other.
fn joined(alloc: Global, resets: &[ResetPin], nets: &[ResetPin]) -> Result<Vec<ResetPin>, NoMemory>
    ensures { IfOk result (λ all. all.items ≡ resets.now ++ nets.now) }
{
    let mut all = Vec::new(alloc);
    add_pins(alloc, resets, &mut all)?;
    add_pins(alloc, nets, &mut all)?;
    Ok(all)
}

fn add_pins(alloc: Global, pins: &[ResetPin], all: &mut Vec<ResetPin>) -> Result<(), NoMemory>
    ensures { IfOk result (λ _. all.new.items ≡ all.old.items ++ pins.now) }
{
    for pin in pins {
        let copy = ResetPin {
            name: pin.name.copy(alloc)?,
            high: pin.high,
        };
        push(all, copy)?;
    }
    Ok(())
}

/// A source has one list of reset nets.
pub fn nets_are_one()
    ensures { NetsAreOne }
{}
