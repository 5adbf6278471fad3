//! The two sides of a FIFO, each by itself.
ghost use Rattle.std.specs.Prelude.{◌≡◌, ◌≤◌, ◌<◌, ◌↔◌, true, None, [], List, length, IfOk, IfSome};
ghost use Rattle.cell_graph.specs.Cells.{cell_width};
ghost use Rattle.cell_graph.specs.Shared.{IsShared};
ghost use Rattle.cell_graph.specs.Unfolded.{IsWellFormed, tree_of};
ghost use Rattle.domains.specs.Nets.{IsNet};
ghost use Rattle.cdc_model.specs.Nets.{HasNextCells, bit_count};
ghost use Rattle.cdc_model.specs.Tables.{ShowsNet};
ghost use Rattle.cdc_model.specs.Word.{origins};
ghost use Rattle.fifo_laws.specs.Sides.{held_in};
ghost use Rattle.fifo_nodes.specs.Terms.{AreTermsIn};
ghost use Rattle.fifo_terms.specs.Terms.{Term as TermOf};
ghost use Rattle.fifo_parts.specs.declared.side.Outline.{Outline as OutlineOf};
ghost use Rattle.fifo_parts.specs.Sides.{AllStartAtZero, all_bits, AreNodes, AreVars, holds, IsHeldNow, IsNextCode, IsOutline, IsSomeSide, MakesSide};

use crate::vars::Vars;
use cdc_base::{Bit, List, NoMemory};
use cdc_model::view::{next_node, settle_of, start_value, width_of};
use cdc_model::{GrayReg, Shape};
use cell_graph::{CellId, Net, Node};
use cofactor::{Table, origin};
use domains::Domains;
use fifo_nodes::{Code, Moment, Term, copied, counted};
use std::alloc::Global;

/// The most bits of a count: a FIFO has at most 1,024 words.
pub const MAX_WIDTH: u8 = 11;

/// A counter with its Gray register: how wide they are, their clock, the terms under which the counter counts, and the
/// codes of its count and of its next count.
#[derive(Drop)]
pub struct Side {
    pub reg: GrayReg,
    pub width: u8,
    pub clock: u32,
    pub under: List<Term>,
    pub now: Code,
    pub next: Code,
}

/// The Gray register as a side of a FIFO. None where it can't be one: it has too many bits, some of them start at 1 or
/// anyhow, its flops need more than a cycle to settle, or its counter's next value doesn't count.
pub fn side_of(
    alloc: Global,
    net: &Net,
    domains: &Domains,
    table: &Table,
    vars: &Vars,
    reg: GrayReg,
) -> Result<Option<Side>, NoMemory>
    ensures reg { IfOk result (λ found. IfSome found (λ s. s.reg ≡ reg)) }
    ensures sound { IfOk result (λ found. IsNet net.now → HasNextCells net.now → IsShared net.now.graph → ShowsNet net.now [] table.now → AreVars net.now.graph vars.now →
        IfSome found (λ s. IsSomeSide net.now domains.now s)) }
    ensures exact { IfOk result (λ found. IsNet net.now → HasNextCells net.now → IsShared net.now.graph → ShowsNet net.now [] table.now → AreVars net.now.graph vars.now →
        found ≡ None → (o : OutlineOf) (ts : List TermOf) → MakesSide net.now domains.now reg o ts → ⊥) }
{
    let Some(outline) = outline_of(net, domains, reg) else {
        return Ok(None);
    };
    let Some(under) = counted(alloc, net, table, reg.count, outline.width, outline.next)? else {
        return Ok(None);
    };
    let Some(held) = held_now(alloc, net, vars, reg, outline.width)? else {
        return Ok(None);
    };
    let now = Code {
        count: reg.count,
        width: outline.width,
        held,
        moment: Moment::Now,
    };
    let next = next_code(alloc, net, reg, outline, under.as_slice())?;
    Ok(Some(Side {
        reg,
        width: outline.width,
        clock: outline.clock,
        under,
        now,
        next,
    }))
}

/// What a side is by its width, its clock and the cells of both next values.
#[derive(Clone, Copy, Debug, Drop)]
pub struct Outline {
    pub width: u8,
    pub clock: u32,
    pub next: CellId,
    pub gray_next: CellId,
}

fn outline_of(net: &Net, domains: &Domains, reg: GrayReg) -> Option<Outline>
    ensures sound { IsNet net.now → IfSome result (λ o. IsOutline net.now domains.now reg o) }
    ensures exact { IsNet net.now → result ≡ None → (o : OutlineOf) → IsOutline net.now domains.now reg o → ⊥ }
{
    let count = Bit {
        sig: reg.count,
        at: 0,
    };
    let gray = Bit {
        sig: reg.gray,
        at: 0,
    };
    let width = width_of(net, reg.count);
    if width < 2 || width > MAX_WIDTH || width_of(net, reg.gray) != width {
        return None;
    }
    if settle_of(domains, count) != 1 || !starts_at_zero(net, count) || !starts_at_zero(net, gray) {
        return None;
    }
    Some(Outline {
        width,
        clock: domains.clock_of(count)?,
        next: next_node(net, count)?.cell,
        gray_next: next_node(net, gray)?.cell,
    })
}

/// Whether each bit of the signal of a bit starts at 0.
fn starts_at_zero(net: &Net, bit: Bit) -> bool
    ensures { (result ≡ true) ↔ AllStartAtZero net.now.graph.signals (all_bits net.now.graph.signals bit.sig) }
{
    for at in 0..width_of(net, bit.sig) {
        if start_value(net, Bit { sig: bit.sig, at }) != Some(false) {
            return false;
        }
    }
    true
}

/// Whether the Gray register holds the code of the count, and not of the one before.
fn holds(shape: Shape) -> bool
    ensures { result ≡ holds shape }
{
    match shape {
        Shape::G1 | Shape::G2 => true,
        Shape::G3 => false,
    }
}

/// The nodes that hold the code of the count, if any do. None where nothing reads the Gray register that holds it.
fn held_now(
    alloc: Global,
    net: &Net,
    vars: &Vars,
    reg: GrayReg,
    width: u8,
) -> Result<Option<List<Option<Node>>>, NoMemory>
    ensures { IfOk result (λ held. IsWellFormed net.now.graph → AreVars net.now.graph vars.now → 2 ≤ width → bit_count net.now.graph.signals reg.gray ≡ width →
        IsHeldNow net.now.graph reg width held) }
{
    if !holds(reg.shape) {
        return Ok(Some(List::new(alloc)));
    }
    let Some(cell) = vars.of(reg.gray) else {
        return Ok(None);
    };
    let held = origins_of(alloc, net, cell, width)?;
    Ok(Some(held))
}

/// The origins of the lowest `width` bits of a cell.
fn origins_of(
    alloc: Global,
    net: &Net,
    cell: CellId,
    width: u8,
) -> Result<List<Option<Node>>, NoMemory>
    ensures { IfOk result (λ found. IsWellFormed net.now.graph → cell.0 < length net.now.graph.cells → width ≤ cell_width net.now.graph cell →
        AreNodes net.now.graph found (origins (tree_of net.now.graph cell) 0 width)) }
{
    let mut found = List::new(alloc);
    for at in 0..width {
        found.push(origin(net, Node { cell, at }))?;
    }
    Ok(found)
}

/// The nodes that hold the code of the next count, if any do: the origins of the Gray register's next value.
fn held_next(
    alloc: Global,
    net: &Net,
    reg: GrayReg,
    outline: Outline,
) -> Result<List<Option<Node>>, NoMemory>
    ensures { IfOk result (λ held. IsWellFormed net.now.graph → outline.gray_next.0 < length net.now.graph.cells → outline.width ≤ cell_width net.now.graph outline.gray_next →
        AreNodes net.now.graph held (held_in reg.shape (origins (tree_of net.now.graph outline.gray_next) 0 outline.width))) }
{
    if !holds(reg.shape) {
        return Ok(List::new(alloc));
    }
    origins_of(alloc, net, outline.gray_next, outline.width)
}

/// The code of the next count.
fn next_code(
    alloc: Global,
    net: &Net,
    reg: GrayReg,
    outline: Outline,
    under: &[Term],
) -> Result<Code, NoMemory>
    ensures { IfOk result (λ c. IsWellFormed net.now.graph → 2 ≤ outline.width → bit_count net.now.graph.signals reg.count ≡ outline.width →
        outline.gray_next.0 < length net.now.graph.cells → outline.width ≤ cell_width net.now.graph outline.gray_next → AreTermsIn net.now.graph under.now →
        IsNextCode net.now.graph reg outline.width (tree_of net.now.graph outline.gray_next) under.now c) }
{
    let held = held_next(alloc, net, reg, outline)?;
    let under = copied(alloc, under)?;
    Ok(Code {
        count: reg.count,
        width: outline.width,
        held,
        moment: Moment::Next(under),
    })
}
