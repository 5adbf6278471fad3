//! Flat designs: a source with its instances unfolded, its names resolved and its constants computed.
#![tactic(auto)]

ghost use Rattle.std.specs.Prelude.{IfOk, IfErr};
ghost use Rattle.refusals.specs.Numbers.{HasNumberIn, unfolding_numbers};
ghost use Rattle.verilog_reading.specs.SourceTree.{source_of};
ghost use Rattle.flat_unfolding.specs.Formed.{IsSourceFormed};
ghost use Rattle.flat_unfolding.specs.Unfolding.{unfolded_source, IsUnfolding};
ghost use Rattle.flat_unfolding.specs.Widths.{KeepsSizes};
ghost use Rattle.signal_names.specs.Laws.{IsSourceVisible};
ghost use Rattle.flat_design.specs.Flattened.{IsFlattened};

mod constants;
mod finish;
mod free;
mod instance;
pub mod resets;
mod top_ports;
mod visit;
mod wiring;

use cdc_base::{Name, ResetPin, Stop};
use finish::checked;
pub use flat_form::{FCaseItem, FExpr, FStmt, FTarget, Flat, FlatAssign, FlatClocked, FlatComb};
use flat_names::fault::{Rule, refused};
use std::alloc::Global;
use verilog_ast::Source;
use visit::{Library, Visit, visit_top};
pub use wiring::wires;

/// Unfolds the source from its module `top`. A signal of one bit with the printed name of a reset reads as the reset's
/// inactive level, in whichever module it is declared, and so does each input port that is connected to it by its plain name.
///
/// `named` has the names of the clocks, inputs and static inputs of the constraints. A signal with such a printed name, or
/// with that of a reset, which nothing drives counts as an input of the top: an output of a module without a text.
///
/// It refuses what breaks a rule of the language, as the first rule that is broken in this order: modules of one name;
/// no top; then module by module from the top its parameters, its declarations and its other items, each in textual
/// order, an instance in its place; then the rules of resets, process by process in that order; then bits with two
/// drivers; then bits that are read and have none.
///
/// A signal with a start value that no process assigns and that is no input of the top gets it by an assignment.
pub fn flatten(
    alloc: Global,
    source: &Source,
    top: &Name,
    resets: &[ResetPin],
    named: &[Name],
) -> Result<Flat, Stop>
    ensures exact { IsSourceFormed (source_of source.now) → IsUnfolding (unfolded_source source.now top.now resets.now named.now) result }
    ensures sizes { IsSourceFormed (source_of source.now) → IfOk result KeepsSizes }
    ensures fact { IsSourceFormed (source_of source.now) → IsSourceVisible (source_of source.now) → IfOk result IsFlattened }
    ensures numbered { IfErr result (HasNumberIn unfolding_numbers) }
{
    let library = Library::new(alloc, source, resets, false)?;
    let Some(number) = library.number(top) else {
        return refused(alloc, Rule::NoTop, None, top.as_str());
    };
    let mut visit = Visit::new(&library)?;
    visit_top(&library, number, &mut visit)?;
    checked(alloc, named, resets, visit.design)
}
