//! Whether listed Gray registers are Gray registers.
ghost use Rattle.std.specs.Prelude.{◌≡◌, ◌↔◌, [], Some, true, IfOk, slice_get};
ghost use Rattle.cell_graph.specs.Shared.{IsShared};
ghost use Rattle.domains.specs.Nets.{IsNet};
ghost use Rattle.cdc_model.specs.declared.scheme.GrayReg.{GrayReg as GrayRegOf};
ghost use Rattle.cdc_model.specs.GrayShape.{IsGrayReg};
ghost use Rattle.cdc_model.specs.Nets.{HasNextCells, design_of, next_tree};
ghost use Rattle.cdc_model.specs.Tables.{ShowsNet};
ghost use Rattle.gray_pointer.specs.Registers.{AreStartsNarrow, registers_among};
ghost use Rattle.gray_pointer.specs.Words.{IsPlain};
ghost use Rattle.cert_check.specs.Items.{IsFirstFailing, IsRegisterAt};

use cdc_base::NoMemory;
use cdc_model::GrayReg;
use cell_graph::Net;
use cofactor::Table;
use domains::Domains;
use gray_pointer::register::{Register, fit, registers};
use gray_pointer::shapes::shape_of;
use std::alloc::Global;

/// The place of the first listed Gray register that is none. The table is one without a cube.
pub fn first_bad_gray(
    alloc: Global,
    net: &Net,
    domains: &Domains,
    plain: &Table,
    grays: &[GrayReg],
) -> Result<Option<usize>, NoMemory>
    ensures { IfOk result (λ place. IsNet net.now → HasNextCells net.now → IsShared net.now.graph → AreStartsNarrow net.now →
        ShowsNet net.now [] plain.now →
        IsFirstFailing (IsGrayReg (design_of net.now domains.now) (next_tree net.now)) grays.now place) }
{
    let registers = registers(alloc, net, domains)?;
    for (place, gray) in grays.iter().enumerate() {
        let holds = is_gray_item(alloc, net, plain, registers.as_slice(), *gray)?;
        if !holds {
            return Ok(Some(place));
        }
    }
    Ok(None)
}

/// Whether the two registers start and go on as a counter and its code, in the shape that is listed.
fn is_gray_item(
    alloc: Global,
    net: &Net,
    plain: &Table,
    registers: &[Register],
    gray: GrayReg,
) -> Result<bool, NoMemory>
    ensures { IfOk result (λ holds. (domains : Domains) → registers.now ≡ registers_among net.now domains net.now.regs → IsNet net.now →
        HasNextCells net.now → IsShared net.now.graph →
        AreStartsNarrow net.now → ShowsNet net.now [] plain.now → (holds ≡ true) ↔ IsGrayReg (design_of net.now domains) (next_tree net.now) gray) }
{
    let Some(count) = register_of(registers, gray.count) else {
        return Ok(false);
    };
    let Some(code) = register_of(registers, gray.gray) else {
        return Ok(false);
    };
    if !fit(&count, &code) {
        return Ok(false);
    }
    let found = shape_of(alloc, net, plain, &count, &code)?;
    match found {
        Some(shape) => Ok(shape == gray.shape),
        None => Ok(false),
    }
}

/// The register with this signal, among registers that ascend.
fn register_of(registers: &[Register], sig: u32) -> Option<Register>
    ensures { IsRegisterAt registers.now sig result }
{
    match registers.binary_search_by_key(&sig, |register| register.sig) {
        Ok(place) => Some(registers[place]),
        Err(_) => None,
    }
}
