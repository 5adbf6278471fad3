//! The generated design: channels that each carry a byte from one clock to another under a toggle handshake.
#![tactic(auto)]

ghost use Rattle.std.specs.Prelude.{◌≡◌, IfOk};
ghost use Rattle.verilog_reading.specs.SourceTree.{source_of};
ghost use Rattle.generated_design.specs.Channels.{generated_source};
ghost use Rattle.generated_design.specs.Clocks.{generated_constraints};

mod channel;
mod clocks;
mod make;

use cdc_base::{List, Name, NoMemory};
use clock_constraints::Constraints;
use std::alloc::Global;
use verilog_ast::{Module, Source};

/// The generated design with so many channels, 1 to 10,000. The channel i has chains of 2 + i mod 3 flops.
#[tactic(auto, unfolding(crate::specs::Channels::generated_source))]
pub fn selftest_source(alloc: Global, channels: u32) -> Result<Source, NoMemory>
    ensures { IfOk result (λ source. source_of source ≡ generated_source channels) }
{
    let mut modules = List::new(alloc);
    modules.push(Module {
        place: make::NOWHERE,
        name: Name::from_text(alloc, "m")?,
        ansi: true,
        params: List::new(alloc),
        ports: channel::ports(alloc)?,
        items: channel::items(alloc, channels)?,
    })?;
    Ok(Source { modules })
}

/// The constraints of the generated design: the clocks `ca` of group A and `cb` of group B, and the inputs `send` and
/// `d` on `ca`.
pub fn selftest_constraints(alloc: Global) -> Result<Constraints, NoMemory>
    ensures { IfOk result (λ constraints. constraints ≡ generated_constraints) }
{
    clocks::constraints(alloc)
}
