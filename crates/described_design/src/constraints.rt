//! Constraint files, in TOML or in SDC.
ghost use Rattle.std.specs.Prelude.{◌≡◌, IfOk, IfErr};
ghost use Rattle.clock_constraints.specs.Fit.{AreFit};
ghost use Rattle.clock_constraints.specs.Refusals.{Gives};
ghost use Rattle.domains.specs.Assignment.{Refuses};
ghost use Rattle.refusals.specs.Numbers.{HasNumberIn};
ghost use Rattle.sdc_subset.specs.Meanings.{meaning};
ghost use Rattle.verilog_reading.specs.SourceTree.{source_of};
ghost use Rattle.described_design.specs.ConstraintFiles.{BreaksRule, HasConstraints, file_numbers, is_sdc, last_name};

use cdc_base::{Name, NoMemory, Stop};
use clock_constraints::Constraints;
use std::alloc::Global;
use verilog_ast::Source;

/// Whether the word names an SDC file: it ends in `.sdc`.
fn is_sdc(word: &str) -> bool
    ensures { result ≡ is_sdc word.now }
{
    word.as_bytes().ends_with(b".sdc")
}

/// The name of the last module, or the empty name.
fn last_name(alloc: Global, source: &Source) -> Result<Name, NoMemory>
    ensures { IfOk result (λ name. name ≡ last_name (source_of source.now)) }
{
    match source.modules.as_slice().last() {
        Some(module) => module.name.copy(alloc),
        None => Name::from_text(alloc, ""),
    }
}

/// The constraints of an SDC text. Where it names no top, that is the netlist's last module.
fn read_sdc(alloc: Global, source: &Source, con: &[u8]) -> Result<Constraints, Stop>
    ensures gives { Gives result (meaning con.now (last_name (source_of source.now))) }
    ensures fit { IfOk result AreFit }
{
    let last = last_name(alloc, source)?;
    sdc_subset::read(alloc, con, &last)
}

/// The constraints of a file with this word: SDC where the word ends in `.sdc`, else TOML.
pub fn read_constraints(
    alloc: Global,
    word: &str,
    source: &Source,
    con: &[u8],
) -> Result<Constraints, Stop>
    ensures ok { IfOk result (HasConstraints word.now (source_of source.now) con.now) }
    ensures fit { IfOk result AreFit }
    ensures refused { IfErr result (Refuses (BreaksRule word.now (source_of source.now) con.now)) }
    ensures numbered { IfErr result (HasNumberIn file_numbers) }
{
    if is_sdc(word) {
        read_sdc(alloc, source, con)
    } else {
        clock_constraints::read(alloc, con)
    }
}
