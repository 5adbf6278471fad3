//! The signals, clocks and bits of a net by their names, each with its first value.
ghost use Rattle.std.specs.Prelude.{◌≡◌, IfOk};
ghost use Rattle.domains.specs.Tables.{bit_names};
ghost use Rattle.run_file.specs.Names.{CanRead};
ghost use Rattle.run_file.specs.Tables.{CanName};

use cdc_base::{Bit, Name, NoMemory};
use cell_graph::Net;
use domains::Domains;
use domains::table::{bit_table, clock_table, signal_table};
use indexmap::IndexMap;
use std::alloc::Global;

/// The numbers of signals and of clocks, and the bits, by their names.
#[derive(Drop)]
pub struct Names<'a> {
    pub signals: IndexMap<&'a str, u32>,
    pub clocks: IndexMap<&'a str, u32>,
    pub bits: IndexMap<&'a str, Bit>,
}

impl<'a> Names<'a> {
    /// The names of a net and its clocks. `bits` has those of all bits.
    pub fn open(
        alloc: Global,
        net: &'a Net,
        domains: &'a Domains,
        bits: &'a [(Name, Bit)],
    ) -> Result<Names<'a>, NoMemory>
        ensures { CanRead net.now domains.now → bits.now ≡ bit_names 0 net.now.graph.signals → IfOk result (CanName net.now domains.now) }
    {
        Ok(Names {
            signals: signal_table(alloc, net.graph.signals())?,
            clocks: clock_table(alloc, domains.clocks.as_slice())?,
            bits: bit_table(alloc, bits)?,
        })
    }
}
