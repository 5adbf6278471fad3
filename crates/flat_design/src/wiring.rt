//! The wires of a source: its design without processes, in which no signal is read as a reset.
ghost use Rattle.std.specs.Prelude.{◌≡◌, true, IfOk, IfErr};
ghost use Rattle.std.specs.List.{list_all};
ghost use Rattle.refusals.specs.Numbers.{HasNumberIn, unfolding_numbers};
ghost use Rattle.verilog_reading.specs.SourceTree.{source_of};
ghost use Rattle.flat_form.specs.declared.flat.FlatAssign.{FlatAssign};
ghost use Rattle.flat_form.specs.Sizes.{is_sized};
ghost use Rattle.flat_unfolding.specs.Formed.{IsSourceFormed};
ghost use Rattle.flat_design.specs.Chosen.{wires_of};
ghost use Rattle.flat_design.specs.Visiting.{AreWires};

use crate::visit::{Library, Visit, visit_top};
use cdc_base::{Name, Stop};
use flat_names::design::Design;
use flat_names::fault::{Rule, refused};
use std::alloc::Global;
use verilog_ast::Source;

/// Unfolds the source from its module `top` without its processes and without resets: all signals, and all assignments
/// between them. Drivers aren't tried. It refuses what breaks a rule on the way, in the order of `flatten`.
pub fn wires(alloc: Global, source: &Source, top: &Name) -> Result<Design, Stop>
    ensures exact { IsSourceFormed (source_of source.now) → AreWires (wires_of (source_of source.now) top.now) result }
    ensures sized { IsSourceFormed (source_of source.now) → IfOk result (λ d. list_all (λ (a : FlatAssign). is_sized a.value) d.assigns.items ≡ true) }
    ensures numbered { IfErr result (HasNumberIn unfolding_numbers) }
{
    let library = Library::new(alloc, source, &[], true)?;
    let Some(number) = library.number(top) else {
        return refused(alloc, Rule::NoTop, None, top.as_str());
    };
    let mut visit = Visit::new(&library)?;
    visit_top(&library, number, &mut visit)?;
    Ok(visit.design)
}
