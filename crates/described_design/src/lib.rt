//! The design that texts describe: from the bytes of a netlist and of a constraint file to a net and the clocks of its bits,
//! and why texts describe none.
#![tactic(auto)]

ghost use Rattle.std.specs.Prelude.{◌≤◌, length, IfOk, IfErr};
ghost use Rattle.clock_constraints.specs.Fit.{AreFit};
ghost use Rattle.verilog_reading.specs.SourceTree.{source_of};
ghost use Rattle.command_files.specs.Endings.{HasCause, IsOfFiles};
ghost use Rattle.command_files.specs.Files.{max_bytes};
ghost use Rattle.described_design.specs.Designs.{IsDesignOf};
ghost use Rattle.described_design.specs.Refused.{AreTextsRefused};

pub mod constraints;
pub mod design;
pub mod named;

use cell_graph::Net;
use clock_constraints::Constraints;
use command_files::{Ending, Status, or_refused};
pub use constraints::read_constraints;
pub use design::{constrained, read_source};
use domains::Domains;
use std::alloc::Global;

/// What two texts describe: their constraints, and the net with its domains.
#[derive(Drop)]
pub struct TextDesign {
    pub constraints: Constraints,
    pub net: Net,
    pub domains: Domains,
}

/// The design that the texts of a netlist and of a constraint file with this word describe. The first refusal counts: of
/// the netlist's text, of the constraint file, of the unfolding, of the cells, of the clocks.
pub fn design_of_texts(
    alloc: Global,
    word: &str,
    net: &[u8],
    con: &[u8],
) -> Result<TextDesign, Ending>
    requires { length net.now ≤ max_bytes }
    ensures design { IfOk result (λ made. IsDesignOf word.now net.now con.now made.constraints made.net made.domains) }
    ensures fit { IfOk result (λ made. AreFit made.constraints) }
    ensures of_files { IfErr result IsOfFiles }
    ensures refused { IfErr result (HasCause (λ status fault. AreTextsRefused word.now net.now con.now fault status)) }
{
    let source = read_source(alloc, net)?;
    let constraints = read_constraints(alloc, word, &source, con);
    let constraints = or_refused(Status::Constraints, constraints)?;
    let (net, domains) = constrained(alloc, &source, &constraints)?;
    Ok(TextDesign {
        constraints,
        net,
        domains,
    })
}
