//! The net that a netlist's text describes under constraints, with the clocks of its bits.
ghost use Rattle.std.specs.Prelude.{◌≡◌, ◌≤◌, ◌^◌, length, IfOk, IfErr, OnOk};
ghost use Rattle.cell_graph.specs.Nets.{HasNextCells, IsNet};
ghost use Rattle.cell_graph.specs.Shared.{IsShared};
ghost use Rattle.clock_constraints.specs.Fit.{AreFit};
ghost use Rattle.elaborate.specs.Words.{AreStarted};
ghost use Rattle.flat_unfolding.specs.Formed.{IsSourceFormed};
ghost use Rattle.verilog_reading.specs.SourceTree.{source_of};
ghost use Rattle.command_files.specs.Files.{max_bytes};
ghost use Rattle.command_files.specs.Endings.{HasCause, IsOfFiles};
ghost use Rattle.described_design.specs.Designs.{IsDesign};
ghost use Rattle.described_design.specs.Described.{IsNetOfModules, ReadsAs};
ghost use Rattle.described_design.specs.Refused.{IsDesignRefused, IsNetlistRefused};

use crate::named::names_of;
use cdc_base::NoMemory;
use cell_graph::Net;
use clock_constraints::Constraints;
use cofactor::Plain;
use command_files::{Ending, Status, or_refused};
use domains::Domains;
use std::alloc::Global;
use verilog_ast::Source;

/// The source that a netlist reads as.
pub fn read_source(alloc: Global, text: &[u8]) -> Result<Source, Ending>
    requires { length text.now ≤ max_bytes }
    ensures of_files { IfErr result IsOfFiles }
    ensures reads { IfOk result (λ source. ReadsAs text.now (source_of source)) }
    ensures refused { IfErr result (HasCause (λ status fault. IsNetlistRefused text.now fault status)) }
{
    let tokens = or_refused(Status::Netlist, verilog_lex::lex(alloc, text))?;
    or_refused(
        Status::Netlist,
        verilog_parse::parse(alloc, tokens.as_slice()),
    )
}

/// The cells of a source, unfolded from the top that the constraints name, with its reset nets.
fn elaborated(alloc: Global, source: &Source, constraints: &Constraints) -> Result<Net, Ending>
    ensures of_files { IfErr result IsOfFiles }
    ensures is_net { IfOk result IsNet }
    ensures next_cells { IfOk result HasNextCells }
    ensures started { IfOk result (λ net. AreStarted net.graph.signals) }
    ensures shared { IfOk result (λ net. IsShared net.graph) }
    ensures unfolded { IsSourceFormed (source_of source.now) → IfOk result (IsNetOfModules (source_of source.now) constraints.now) }
    ensures refused { IsSourceFormed (source_of source.now) → IfErr result (HasCause (λ status fault. IsDesignRefused (source_of source.now) constraints.now fault status)) }
{
    let resets = constraints.resets.as_slice();
    let names = names_of(alloc, constraints)?;
    let named = names.as_slice();
    let flat = reset_nets::design(alloc, source, &constraints.top, resets, named);
    let flat = or_refused(Status::Netlist, flat)?;
    or_refused(Status::Netlist, elaborate::elaborate(alloc, &flat))
}

/// Want of memory where signals or clocks are too many for their numbers.
fn check_numbers(net: &Net, domains: &Domains) -> Result<(), NoMemory>
    ensures { OnOk result ((length net.now.graph.signals ≤ 2 ^ 32) × (length domains.now.clocks ≤ 2 ^ 32)) }
{
    let signals = net.graph.signals().len();
    let clocks = domains.clocks.as_slice().len();
    if signals.max(clocks) > u32::MAX as usize {
        return Err(NoMemory);
    }
    Ok(())
}

/// The cells of a source, and the clocks of their bits by the constraints.
pub fn constrained(
    alloc: Global,
    source: &Source,
    constraints: &Constraints,
) -> Result<(Net, Domains), Ending>
    ensures of_files { IfErr result IsOfFiles }
    ensures design { AreFit constraints.now → IfOk result (λ made. IsDesign constraints.now made.0 made.1) }
    ensures unfolded { IsSourceFormed (source_of source.now) → IfOk result (λ made. IsNetOfModules (source_of source.now) constraints.now made.0) }
    ensures refused { IsSourceFormed (source_of source.now) → IfErr result (HasCause (λ status fault. IsDesignRefused (source_of source.now) constraints.now fault status)) }
{
    let net = elaborated(alloc, source, constraints)?;
    let domains = domains::assign(alloc, &net, constraints, &Plain);
    let domains = or_refused(Status::Constraints, domains)?;
    check_numbers(&net, &domains)?;
    Ok((net, domains))
}
