//! Elaboration: the cells of a flat design.
//!
//! The drivers of all signals become drafts, trees whose reads of wires are still open. Where no wire leads back to
//! itself, the drafts that registers and outputs need become cells, each once; the count of cells still counts a tree
//! as often as it is used.
#![tactic(auto)]

ghost use Rattle.std.specs.Prelude.{◌≡◌, ◌≤◌, ◌<◌, ◌+◌, ℕ, true, Some, length, map, take, drop, slice_get, vec_len, All, IfOk, IfErr, IfNone, IfSome, OnOk};
ghost use Rattle.cell_graph.specs.declared.cell.CellId.{CellId as Id};
ghost use Rattle.cell_graph.specs.declared.net.Reg.{Reg as NetRegister};
ghost use Rattle.driver_trees.specs.declared.sketch.Register.{Register as RegisterDraft};
ghost use Rattle.cdc_base.specs.declared.limits.TheConstants.{MAX_STATE_BITS};
ghost use Rattle.cell_graph.specs.Nets.{HasNextCells, IsNet, register_signals};
ghost use Rattle.cell_graph.specs.Shared.{IsShared};
ghost use Rattle.cell_graph.specs.Unfolded.{IsWellFormed};
ghost use Rattle.elaborate.specs.Grown.{Grows};
ghost use Rattle.refusals.specs.Numbers.{HasNumberIn, elaboration_numbers};
ghost use Rattle.elaborate.specs.Limits.{state_bits};
ghost use Rattle.std.specs.List.{Contains};
ghost use Rattle.cell_graph.specs.Unfolded.{tree_of};
ghost use Rattle.driver_trees.specs.Drafts.{tree_in};
ghost use Rattle.flat_meaning.specs.Design.{Flat as FlatOf};
ghost use Rattle.driver_trees.specs.Sketches.{IsSketchOf};
ghost use Rattle.flat_meaning.specs.SignalTrees.{AreTrees};
ghost use Rattle.flat_meaning.specs.Trees.{Selects};
ghost use Rattle.elaborate.specs.Counts.{HasRoom, capped, draft_cells, root_ids};
ghost use Rattle.elaborate.specs.Counted.{CanCount};
ghost use Rattle.elaborate.specs.Refusals.{IsAccepted, IsDesignOf, IsFirstMarked, IsNetRefusedFor, IsRefusedFor, NamesPiece};
ghost use Rattle.refusals.specs.Limits.{Tells};
ghost use Rattle.flat_form.specs.Sizes.{IsWellSized};
ghost use Rattle.flat_form.specs.View.{flat_of};
ghost use Rattle.flat_meaning.specs.Segments.{IsLoopFree};
ghost use Rattle.flat_meaning.specs.Sound.{IsSound};
ghost use Rattle.elaborate.specs.Lowered.{AreMet, AreNeeded, CanLower, EndsStandBefore, IsDraftMet, Knows};
ghost use Rattle.elaborate.specs.NetTrees.{HasTrees, IsRegisterOf};
ghost use Rattle.elaborate.specs.Words.{AreStarted, IsRegOf, as_word, known_bits};

mod builder;
mod count;
mod lower;
mod refusal;

use crate::builder::sized;
use crate::count::Counts;
use crate::lower::Lowering;
use cdc_base::limits::MAX_CELLS;
use cdc_base::{List, NoMemory, SigKind, Signal, Stop};
use cell_graph::word::low_bits;
use cell_graph::{CellId, Net, Reg};
use driver_loops::{Links, walk};
use driver_trees::Sketch;
use driver_trees::memory::{numbered, push};
use flat_form::Flat;
use loop_law::{first_loop_is_first, signals_lie_on_loops, well_sized_is_filled};
use refusals::past_limit;
use std::alloc::Global;

/// Makes the cells of the design's registers and outputs.
///
/// Refuses, in this order: E605 where the bits of registers and top inputs together pass their limit; E312 where a
/// wire's bits lead back to themselves through logic alone, with the first such signal; E602 where the trees of the
/// registers' clocks and next values and of the outputs have more cells than the limit, each use of a shared tree
/// counted.
pub fn elaborate(alloc: Global, flat: &Flat) -> Result<Net, Stop>
    ensures numbered { IfErr result (HasNumberIn elaboration_numbers) }
    ensures registers { IfOk result (λ net. map (λ (r : NetRegister). r.sig) net.regs ≡ register_signals 0 flat.now.signals) }
    ensures outputs { IfOk result (λ net. length net.outputs ≡ length flat.now.outputs) }
    ensures state_bits { IfOk result (λ net. state_bits flat.now.signals ≤ MAX_STATE_BITS) }
    ensures signals { IfOk result (λ net. net.graph.signals ≡ map as_word flat.now.signals) }
    ensures started { IfOk result (λ net. AreStarted net.graph.signals) }
    ensures is_net { IfOk result IsNet }
    ensures next_cells { IfOk result HasNextCells }
    ensures shared { IfOk result (λ net. IsShared net.graph) }
    ensures outputs_stand { IfOk result (λ net. All (λ (o : Id). o.0 < length net.graph.cells) net.outputs) }
    ensures unfolds { IsWellSized flat.now → IsSound (flat_of flat.now) → IfOk result (λ net. (sel : Selects) → AreTrees (flat_of flat.now) sel → HasTrees (flat_of flat.now) sel net) }
    ensures refused { IfErr result (Tells (IsRefusedFor flat.now)) }
    ensures accepted { IfOk result (λ net. IsAccepted flat.now) }
{
    well_sized_is_filled();
    let signals = flat.signals.as_slice();
    if refusal::has_too_many_state_bits(signals) {
        return Err(past_limit(alloc, 605));
    }
    let sketch = Sketch::of(alloc, flat)?;
    let net = net_of(alloc, signals, &sketch)?;
    Ok(net)
}

/// The net of a sketch.
fn net_of(alloc: Global, signals: &[Signal], sketch: &Sketch) -> Result<Net, Stop>
    ensures numbered { IfErr result (HasNumberIn elaboration_numbers) }
    ensures registers { IfOk result (λ net. map (λ (r : NetRegister). r.sig) net.regs ≡ map (λ (r : RegisterDraft). r.sig) sketch.now.registers.items) }
    ensures outputs { IfOk result (λ net. length net.outputs ≡ vec_len sketch.now.outputs) }
    ensures signals { IfOk result (λ net. net.graph.signals ≡ map as_word signals.now) }
    ensures well_formed { IfOk result (λ net. IsWellFormed net.graph) }
    ensures shared { IfOk result (λ net. IsShared net.graph) }
    ensures fit { IfOk result (λ net. All (IsRegOf net.graph) net.regs) }
    ensures outputs_stand { IfOk result (λ net. All (λ (o : Id). o.0 < length net.graph.cells) net.outputs) }
    ensures unfolds { IfOk result (λ net. (f : FlatOf) (sel : Selects) → f.signals ≡ signals.now → AreTrees f sel → IsSketchOf f sketch.now.drafts sketch.now → HasTrees f sel net) }
    ensures refused { IfErr result (Tells (IsNetRefusedFor signals.now sketch.now)) }
    ensures accepted { IfOk result (λ net. (f : FlatOf) → IsDesignOf f signals.now sketch.now → IsLoopFree f × HasRoom f) }
{
    signals_lie_on_loops();
    first_loop_is_first();
    let links = Links::of(alloc, signals, sketch)?;
    let needed = roots_of(alloc, sketch)?;
    let others = pieces_of(alloc, sketch)?;
    let roots = needed.as_slice();
    let found = walk::front_order(alloc, &links, roots, others.as_slice())?;
    let order = found.0.as_slice();
    let loops = walk::has_loop(alloc, &links, order)?;
    if loops {
        let stop = loop_of(alloc, signals, sketch, &links, order)?;
        return Err(stop);
    }
    let front = front_of(order, found.1);
    let cells = cells_of(alloc, signals, sketch, front, roots)?;
    if cells > MAX_CELLS {
        return Err(past_limit(alloc, 602));
    }
    let net = make_net(alloc, signals, sketch, front)?;
    Ok(net)
}

/// The first vertices of the order.
fn front_of(order: &[u32], count: usize) -> &[u32]
    ensures { result.now ≡ take count order.now }
{
    order.get(..count).unwrap_or(order)
}

/// The pieces as vertices.
fn pieces_of(alloc: Global, sketch: &Sketch) -> Result<Vec<u32>, NoMemory>
    ensures { IfOk result (λ vertices. (i : ℕ) → i < length sketch.now.pieces.items → slice_get vertices.items i ≡ Some (length sketch.now.drafts + i)) }
{
    let first = sketch.drafts.as_slice().len();
    let mut vertices = Vec::new(alloc);
    for place in 0..sketch.pieces.len() {
        let vertex = numbered(first.saturating_add(place))?;
        push(&mut vertices, vertex)?;
    }
    Ok(vertices)
}

/// The refusal of the first signal with bits that lead back to themselves.
fn loop_of(
    alloc: Global,
    signals: &[Signal],
    sketch: &Sketch,
    links: &Links,
    order: &[u32],
) -> Result<Stop, NoMemory>
    ensures numbered { IfOk result (HasNumberIn elaboration_numbers) }
    ensures told { IfOk result (Tells (NamesPiece signals.now sketch.now links.now order.now)) }
{
    let on_loops = walk::on_loops(alloc, links, order)?;
    match looped(signals, sketch, on_loops.as_slice()) {
        Some(signal) => Ok(refusal::combinational_loop(alloc, signal)),
        // A loop leads through a piece, so that one was found.
        None => Err(NoMemory),
    }
}

/// The signal of the first piece on a loop.
fn looped<'a>(signals: &'a [Signal], sketch: &Sketch, on_loops: &[bool]) -> Option<&'a Signal>
    ensures { IfSome result (λ s. IsFirstMarked signals.now sketch.now on_loops.now s.now) }
{
    let Some(place) = first_mark(behind(on_loops, sketch.drafts.as_slice().len())) else {
        return None;
    };
    let Some(piece) = sketch.pieces.as_slice().get(place) else {
        return None;
    };
    match signals.get(piece.sig as usize) {
        Some(signal) => Some(signal),
        None => None,
    }
}

/// The marks from a place on.
fn behind(marks: &[bool], place: usize) -> &[bool]
    ensures { result.now ≡ drop place marks.now }
{
    marks.get(place..).unwrap_or(&[])
}

/// The place of the first mark.
fn first_mark(marks: &[bool]) -> Option<usize>
    ensures first { IfSome result (λ n. (slice_get marks.now n ≡ Some true) × ((m : ℕ) → m < n → slice_get marks.now m ≡ Some true → ⊥)) }
    ensures none { IfNone result ((m : ℕ) → slice_get marks.now m ≡ Some true → ⊥) }
{
    for place in 0..marks.len() {
        if marks[place] {
            return Some(place);
        }
    }
    None
}

/// The cells of registers and outputs. The order has all that they need, each vertex behind those that it leads to.
fn make_net(
    alloc: Global,
    signals: &[Signal],
    sketch: &Sketch,
    order: &[u32],
) -> Result<Net, NoMemory>
    ensures registers { IfOk result (λ net. map (λ (r : NetRegister). r.sig) net.regs ≡ map (λ (r : RegisterDraft). r.sig) sketch.now.registers.items) }
    ensures outputs { IfOk result (λ net. length net.outputs ≡ vec_len sketch.now.outputs) }
    ensures signals { IfOk result (λ net. net.graph.signals ≡ map as_word signals.now) }
    ensures well_formed { IfOk result (λ net. IsWellFormed net.graph) }
    ensures shared { IfOk result (λ net. IsShared net.graph) }
    ensures fit { IfOk result (λ net. All (IsRegOf net.graph) net.regs) }
    ensures outputs_stand { IfOk result (λ net. All (λ (o : Id). o.0 < length net.graph.cells) net.outputs) }
    ensures unfolds { IfOk result (λ net. (f : FlatOf) (sel : Selects) → CanLower f sel sketch.now.drafts sketch.now (map as_word signals.now)
        → EndsStandBefore f sketch.now.drafts sketch.now.pieces.items order.now → AreNeeded sketch.now order.now → HasTrees f sel net) }
{
    let lowering = lowered(alloc, signals, sketch, order)?;
    let net = finish(alloc, sketch, lowering)?;
    Ok(net)
}

/// The vertices of the order, each made of those before it.
fn lowered(
    alloc: Global,
    signals: &[Signal],
    sketch: &Sketch,
    order: &[u32],
) -> Result<Lowering, NoMemory>
    ensures signals { IfOk result (λ lowering. lowering.graph.signals ≡ map as_word signals.now) }
    ensures known { IfOk result (λ lowering. (f : FlatOf) (sel : Selects) → CanLower f sel sketch.now.drafts sketch.now (map as_word signals.now)
        → EndsStandBefore f sketch.now.drafts sketch.now.pieces.items order.now
        → (v : ℕ) → Contains order.now v → Knows sel sketch.now.drafts sketch.now.pieces.items lowering.graph lowering.trees.items v) }
{
    let words = copied(alloc, signals)?;
    let drafts = sketch.drafts.as_slice();
    let pieces = sketch.pieces.as_slice();
    let Some(count) = drafts.len().checked_add(pieces.len()) else {
        return Err(NoMemory);
    };
    let mut lowering = Lowering::new(alloc, words, count)?;
    for vertex in order {
        lowering.meet(sketch, *vertex as usize)?;
    }
    Ok(lowering)
}

/// The cells of the roots' trees, each use of a shared tree counted. The order has all that the roots need, each vertex
/// behind those that it leads to. The count stops at the end of `u32`.
fn cells_of(
    alloc: Global,
    signals: &[Signal],
    sketch: &Sketch,
    order: &[u32],
    roots: &[u32],
) -> Result<u32, NoMemory>
    ensures { IfOk result (λ cells. (f : FlatOf) (sel : Selects) → CanCount f sel sketch.now.drafts sketch.now signals.now
        → EndsStandBefore f sketch.now.drafts sketch.now.pieces.items order.now
        → ((v : ℕ) → Contains roots.now v → Contains order.now v × (v < length sketch.now.drafts))
        → cells ≡ capped (draft_cells sel sketch.now.drafts roots.now)) }
{
    let drafts = sketch.drafts.as_slice();
    let pieces = sketch.pieces.as_slice();
    let Some(count) = drafts.len().checked_add(pieces.len()) else {
        return Err(NoMemory);
    };
    let mut counts = Counts::new(alloc, count)?;
    for vertex in order {
        counts.meet(signals, sketch, *vertex as usize);
    }
    Ok(counts.sum(roots))
}

/// The drafts that the design needs: of each register its clock and next value, and of each output its value.
fn roots_of(alloc: Global, sketch: &Sketch) -> Result<Vec<u32>, NoMemory>
    ensures { IfOk result (λ roots. roots.items ≡ root_ids sketch.now) }
{
    let mut roots = Vec::new(alloc);
    for register in &sketch.registers {
        push(&mut roots, register.clock.0)?;
        push(&mut roots, register.next.0)?;
    }
    for output in &sketch.outputs {
        push(&mut roots, output.0)?;
    }
    Ok(roots)
}

fn finish(alloc: Global, sketch: &Sketch, mut lowering: Lowering) -> Result<Net, NoMemory>
    ensures registers { IfOk result (λ net. map (λ (r : NetRegister). r.sig) net.regs ≡ map (λ (r : RegisterDraft). r.sig) sketch.now.registers.items) }
    ensures outputs { IfOk result (λ net. length net.outputs ≡ vec_len sketch.now.outputs) }
    ensures signals { IfOk result (λ net. net.graph.signals ≡ lowering.graph.signals) }
    ensures well_formed { IfOk result (λ net. IsWellFormed net.graph) }
    ensures shared { IfOk result (λ net. IsShared net.graph) }
    ensures fit { IfOk result (λ net. All (IsRegOf net.graph) net.regs) }
    ensures outputs_stand { IfOk result (λ net. All (λ (o : Id). o.0 < length net.graph.cells) net.outputs) }
    ensures trees { IfOk result (λ net. (f : FlatOf) (sel : Selects) → CanLower f sel sketch.now.drafts sketch.now lowering.graph.signals
        → AreMet sel sketch.now.drafts sketch.now lowering.graph lowering.trees.items → HasTrees f sel net) }
{
    let regs = registers(alloc, sketch, &mut lowering)?;
    let outputs = outputs(alloc, sketch, &mut lowering)?;
    let Lowering { graph, trees: _ } = lowering;
    Ok(Net {
        graph: graph.into_graph(),
        regs,
        outputs,
    })
}

/// The registers, each with its next value at its own bits.
fn registers(alloc: Global, sketch: &Sketch, lowering: &mut Lowering) -> Result<List<Reg>, NoMemory>
    ensures signals { OnOk result (lowering.new.graph.signals ≡ lowering.old.graph.signals) }
    ensures same { OnOk result (lowering.new.trees ≡ lowering.old.trees) }
    ensures grown { OnOk result (Grows lowering.old.graph lowering.new.graph) }
    ensures registers { IfOk result (λ regs. map (λ (r : NetRegister). r.sig) regs ≡ map (λ (r : RegisterDraft). r.sig) sketch.now.registers.items) }
    ensures fit { IfOk result (λ regs. All (IsRegOf lowering.new.graph) regs) }
    ensures trees { IfOk result (λ regs. (f : FlatOf) (sel : Selects) → CanLower f sel sketch.now.drafts sketch.now lowering.old.graph.signals
        → AreMet sel sketch.now.drafts sketch.now lowering.old.graph lowering.old.trees.items → All (IsRegisterOf f sel lowering.new.graph) regs) }
{
    lowering.graph.fits();
    let mut regs = List::new(alloc);
    for register in &sketch.registers {
        let width = lowering.graph.signal_width(register.sig);
        let next = lowering.word(register.next, width)?;
        let clock = lowering.word(register.clock, 1)?;
        regs.push(Reg {
            sig: register.sig,
            next,
            clock,
        })?;
    }
    Ok(regs)
}

fn outputs(
    alloc: Global,
    sketch: &Sketch,
    lowering: &mut Lowering,
) -> Result<List<CellId>, NoMemory>
    ensures grown { OnOk result (Grows lowering.old.graph lowering.new.graph) }
    ensures outputs { IfOk result (λ outputs. length outputs ≡ vec_len sketch.now.outputs) }
    ensures stand { IfOk result (λ outputs. All (λ (o : Id). o.0 < length lowering.new.graph.cells) outputs) }
    ensures trees { IfOk result (λ outputs. (sel : Selects) → All (IsDraftMet sel sketch.now.drafts lowering.old.graph lowering.old.trees.items) sketch.now.outputs.items
        → map (tree_of lowering.new.graph) outputs ≡ map (tree_in sel sketch.now.drafts) sketch.now.outputs.items) }
{
    let mut outputs = List::new(alloc);
    for output in &sketch.outputs {
        let cell = lowering.output(*output)?;
        outputs.push(cell)?;
    }
    Ok(outputs)
}

/// The signals as words of the graph.
fn copied(alloc: Global, signals: &[Signal]) -> Result<List<Signal>, NoMemory>
    ensures { IfOk result (λ copies. copies ≡ map as_word signals.now) }
{
    let mut copies = List::new(alloc);
    for signal in signals {
        copies.push(word_of(alloc, signal)?)?;
    }
    Ok(copies)
}

/// The signal as a word.
fn word_of(alloc: Global, signal: &Signal) -> Result<Signal, NoMemory>
    ensures { IfOk result (λ word. word ≡ as_word signal.now) }
{
    let width = sized(signal.width);
    Ok(Signal {
        name: signal.name.copy(alloc)?,
        place: signal.place,
        width,
        ranged: signal.ranged,
        left: signal.left,
        right: signal.right,
        kind: signal.kind,
        known: known_in(signal.kind, width, signal.known),
        start: low_bits(signal.start, width),
    })
}

/// The bits of a signal with a start value, which a register alone has.
fn known_in(kind: SigKind, width: u8, known: u64) -> u64
    ensures { result ≡ known_bits kind width known }
{
    match kind {
        SigKind::Register => low_bits(known, width),
        SigKind::Input | SigKind::Wire => 0,
    }
}
