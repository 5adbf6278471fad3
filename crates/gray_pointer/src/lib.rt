//! Gray-coded counters: registers that hold the Gray code of a counter on the same clock.
#![tactic(auto)]

ghost use Rattle.std.specs.Prelude.{◌≡◌, ◌++◌, [], ◌∷◌, List, Option, Contains, IfOk};
ghost use Rattle.domains.specs.Nets.{IsNet};
ghost use Rattle.cell_graph.specs.Shared.{IsShared};
ghost use Rattle.cdc_model.specs.declared.scheme.GrayReg.{GrayReg};
ghost use Rattle.cdc_model.specs.declared.scheme.Shape.{Shape};
ghost use Rattle.cdc_model.specs.GrayShape.{IsGrayReg};
ghost use Rattle.cdc_model.specs.Nets.{HasNextCells, design_of, next_tree};
ghost use Rattle.cdc_model.specs.Ordered.{IsAll};
ghost use Rattle.cdc_model.specs.Tables.{ShowsNet};
ghost use Rattle.cdc_model.specs.Verdict.{gray_key};
ghost use Rattle.gray_pointer.specs.Grays.{found_grays, IsFollowed, AreGrays};
ghost use Rattle.gray_pointer.specs.Registers.{AreStartsNarrow, Ascend};
ghost use Rattle.gray_pointer.specs.Shapes.{IsRegisterIn};
ghost use Rattle.gray_pointer.specs.Words.{IsPlain};
ghost use Rattle.gray_pointer.specs.declared.register.Register.{Register};

pub mod candidates;
pub mod register;
pub mod shapes;
pub mod word;
pub mod worklist;

use crate::candidates::Candidates;
use crate::register::{Register, fit, registers};
use crate::shapes::shape_of;
use cdc_base::{List, NoMemory};
use cdc_model::GrayReg;
use cdc_model::view::plain_table;
use cell_graph::Net;
use cofactor::Table;
use domains::Domains;
use std::alloc::Global;

/// All Gray registers of the net, by the register, then the counter.
pub fn gray_regs(alloc: Global, net: &Net, domains: &Domains) -> Result<List<GrayReg>, NoMemory>
    ensures exact { IfOk result (λ grays. IsNet net.now → HasNextCells net.now → IsShared net.now.graph → AreStartsNarrow net.now →
        IsAll (IsGrayReg (design_of net.now domains.now) (next_tree net.now)) gray_key grays) }
{
    let plain = plain_table(alloc, net)?;
    gray_regs_with(alloc, net, domains, &plain)
}

/// `gray_regs` by the net's table without a cube.
pub fn gray_regs_with(
    alloc: Global,
    net: &Net,
    domains: &Domains,
    plain: &Table,
) -> Result<List<GrayReg>, NoMemory>
    ensures exact { IfOk result (λ grays. IsNet net.now → HasNextCells net.now → IsShared net.now.graph → AreStartsNarrow net.now → ShowsNet net.now [] plain.now →
        IsAll (IsGrayReg (design_of net.now domains.now) (next_tree net.now)) gray_key grays) }
{
    let listed = registers(alloc, net, domains)?;
    let registers = listed.as_slice();
    let candidates = Candidates::find(alloc, net, registers)?;
    let mut grays = List::new(alloc);
    for gray in registers {
        let counters = candidates.counters_of(alloc, net, registers, gray)?;
        add_grays(alloc, net, plain, counters.as_slice(), gray, &mut grays)?;
    }
    Ok(grays)
}

/// Adds the register once for each of the counters whose code it holds.
fn add_grays(
    alloc: Global,
    net: &Net,
    table: &Table,
    counters: &[Register],
    gray: &Register,
    grays: &mut List<GrayReg>,
) -> Result<(), NoMemory>
    ensures { IfOk result (λ _. IsPlain net.now.graph → ShowsNet net.now [] table.now → ((c : Register) → Contains counters.now c → IsRegisterIn net.now.graph c) →
        IsRegisterIn net.now.graph gray.now → Ascend counters.now →
        (more : List GrayReg) × (grays.new ≡ grays.old ++ more) × AreGrays net.now.graph counters.now (gray.now ∷ []) more) }
{
    for count in counters {
        add_gray(alloc, net, table, count, gray, grays)?;
    }
    Ok(())
}

/// Adds the register, if it holds the counter's code.
fn add_gray(
    alloc: Global,
    net: &Net,
    table: &Table,
    count: &Register,
    gray: &Register,
    grays: &mut List<GrayReg>,
) -> Result<(), NoMemory>
    ensures { IfOk result (λ _. IsPlain net.now.graph → ShowsNet net.now [] table.now → IsRegisterIn net.now.graph count.now → IsRegisterIn net.now.graph gray.now →
        (shape : Option Shape) × (grays.new ≡ grays.old ++ found_grays count.now gray.now shape) × IsFollowed net.now.graph count.now gray.now shape) }
{
    if !fit(count, gray) {
        return Ok(());
    }
    let Some(shape) = shape_of(alloc, net, table, count, gray)? else {
        return Ok(());
    };
    grays.push(GrayReg {
        count: count.sig,
        gray: gray.sig,
        shape,
    })
}
