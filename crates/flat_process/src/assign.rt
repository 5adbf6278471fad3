//! Continuous assignments and gates.
ghost use Rattle.std.specs.Prelude.{◌≡◌, true, ◌++◌, List, All, map, flat_map, IfOk, IfErr};
ghost use Rattle.std.specs.List.{list_all};
ghost use Rattle.refusals.specs.Numbers.{HasNumberIn, unfolding_numbers};
ghost use Rattle.cdc_base.specs.declared.signal.ResetPin.{ResetPin};
ghost use Rattle.verilog_reading.specs.ExprTree.{whole, tree_of, target_tree_of};
ghost use Rattle.flat_meaning.specs.Flat.{Target as FlatTarget, Expr as FlatExpr};
ghost use Rattle.flat_form.specs.View.{target_of, expr_of, exprs_of, binary_of};
ghost use Rattle.flat_unfolding.specs.Outcome.{Broken, judged, by_number};
ghost use Rattle.flat_unfolding.specs.Names as n;
ghost use Rattle.flat_unfolding.specs.Expressions.{read};
ghost use Rattle.flat_unfolding.specs.Targets.{Aim, wire_aim, pick_rule, driven};
ghost use Rattle.flat_unfolding.specs.Wires.{assign_item, gate_item, gate_word as gate_word_of, has_terminals as has_terminals_of, gate_op, gate_value as gate_value_of, is_inverted as is_inverted_of, output_rule, input_rules, count_rule};
ghost use Rattle.flat_unfolding.specs.Design as u;
ghost use Rattle.flat_unfolding.specs.Design.{Stage, look_of, assigned as assigned_in};
ghost use Rattle.flat_unfolding.specs.Widths.{keeps_sizes};
ghost use Rattle.flat_unfolding.specs.Formed.{IsFormed, IsTargetFormed};
ghost use Rattle.flat_names.specs.Noting.{all_noted};
ghost use Rattle.flat_names.specs.Looks.{Shows, IsFit};
ghost use Rattle.flat_names.specs.Pieces.{IsRead};
ghost use Rattle.flat_targets.specs.Aims.{IsAim};
ghost use Rattle.flat_names.specs.Designs.{ShowsDesign, ShowsStage, Ends, Meets};
ghost use Rattle.flat_process.specs.Assigns.{fresh, IsAssign, IsValue, gate_over};

use cdc_base::{List, Name, NoMemory, Place, Stop};
use flat_form::flat::{FExpr, FUnaryOp, FlatAssign};
use flat_form::memory::{boxed, push};
use flat_names::design::Design;
use flat_names::expr::resolve;
use flat_names::fault::{Faults, Order, Rule};
use flat_names::resolved::Resolved;
use flat_names::scope::{Look, Names};
use flat_targets::target::{
    Assigned, Fixed, first_index, is_target, nowhere, whole_target, wire_expr_target, wire_target,
};
use std::alloc::Global;
use verilog_ast::{BinaryOp, Expr, GateKind, Target};

/// `assign target = value`.
pub fn add_assign(
    alloc: Global,
    place: Place,
    target: &Target,
    value: &Expr,
    names: &Names,
    design: &mut Design,
) -> Result<(), Stop>
    ensures meets { (pins : List ResetPin) (s : Stage) → ShowsStage pins names.now design.old s → IsFit (look_of s) → IsTargetFormed (target_tree_of target.now) → IsFormed (tree_of value.now)
        → Meets pins names.now (assign_item s place (target_tree_of target.now) (tree_of value.now)) result design.new }
    ensures numbered { IfErr result (HasNumberIn unfolding_numbers) }
{
    let mut faults = Faults::new(alloc, Order::Other);
    let assign = {
        let look = design.look(alloc, names);
        wire_assign(&look, target, value, &mut faults)?
    };
    keep_assign(place, faults, assign, design)
}

/// The value of a wire's declaration.
pub fn add_wire_value(
    alloc: Global,
    place: Place,
    name: &Name,
    value: &Expr,
    names: &Names,
    design: &mut Design,
) -> Result<(), Stop>
    ensures meets { (pins : List ResetPin) (s : Stage) → ShowsStage pins names.now design.old s → IsFit (look_of s) → IsFormed (tree_of value.now)
        → Meets pins names.now (assign_item s place (whole name.now) (tree_of value.now)) result design.new }
    ensures numbered { IfErr result (HasNumberIn unfolding_numbers) }
{
    let mut faults = Faults::new(alloc, Order::Other);
    let assign = {
        let look = design.look(alloc, names);
        wire_value(&look, name, value, &mut faults)?
    };
    keep_assign(place, faults, assign, design)
}

/// Adds an assignment, if its item broke no rule.
fn keep_assign(
    place: Place,
    faults: Faults,
    assign: FlatAssign,
    design: &mut Design,
) -> Result<(), Stop>
    ensures kept { (pins : List ResetPin) (e : u.Design) (t : FlatTarget) (v : FlatExpr) (bs : List Broken) → ShowsDesign pins design.old e → faults ≡ all_noted fresh bs → IsAssign t v bs assign
        → Ends (ShowsDesign pins design.new) (judged by_number place bs (assigned_in e t v)) result }
    ensures numbered { IfErr result (HasNumberIn unfolding_numbers) }
{
    faults.raise(place)?;
    push(&mut design.assigns, assign)?;
    Ok(())
}

fn wire_assign(
    look: &Look,
    target: &Target,
    value: &Expr,
    faults: &mut Faults,
) -> Result<FlatAssign, NoMemory>
    ensures { (l : n.Look) → Shows look.now l → IsFit l → IsTargetFormed (target_tree_of target.now) → IsFormed (tree_of value.now)
        → IfOk result (λ x. IsAssign (wire_aim l (target_tree_of target.now)).target (read l (tree_of value.now)).expr ((wire_aim l (target_tree_of target.now)).broken ++ (read l (tree_of value.now)).broken) x
        × (faults.new ≡ all_noted faults.old ((wire_aim l (target_tree_of target.now)).broken ++ (read l (tree_of value.now)).broken))) }
{
    let target = wire_target(look, target, faults)?;
    note_variable_index(look, &target, faults)?;
    assigned(look, target, value, faults)
}

fn wire_value(
    look: &Look,
    name: &Name,
    value: &Expr,
    faults: &mut Faults,
) -> Result<FlatAssign, NoMemory>
    ensures { (l : n.Look) → Shows look.now l → IsFit l → IsFormed (tree_of value.now)
        → IfOk result (λ x. IsAssign (wire_aim l (whole name.now)).target (read l (tree_of value.now)).expr ((wire_aim l (whole name.now)).broken ++ (read l (tree_of value.now)).broken) x
        × (faults.new ≡ all_noted faults.old ((wire_aim l (whole name.now)).broken ++ (read l (tree_of value.now)).broken))) }
{
    let target = whole_target(look, name, Assigned::Wires, faults)?;
    assigned(look, target, value, faults)
}

fn assigned(
    look: &Look,
    target: Fixed,
    value: &Expr,
    faults: &mut Faults,
) -> Result<FlatAssign, NoMemory>
    ensures { (l : n.Look) (a : Aim) → Shows look.now l → IsFit l → IsAim a target → IsFormed (tree_of value.now)
        → IfOk result (λ x. IsAssign a.target (read l (tree_of value.now)).expr (read l (tree_of value.now)).broken x × (faults.new ≡ all_noted faults.old (read l (tree_of value.now)).broken)) }
{
    let value = resolve(look, value, faults)?;
    Ok(FlatAssign {
        target: target.target,
        value: value.expr,
    })
}

/// What drives wires doesn't drive a bit that a variable index chooses.
fn note_variable_index(look: &Look, fixed: &Fixed, faults: &mut Faults) -> Result<(), NoMemory>
    ensures { (l : n.Look) → Shows look.now l → IfOk result (λ _. faults.new ≡ all_noted faults.old (pick_rule l (target_of fixed.now.target))) }
{
    match first_index(&fixed.target) {
        Some(sig) => faults.note(Rule::WrongAssignment, look.own_name(sig)),
        None => Ok(()),
    }
}

/// The target that a gate's first terminal or the connection of an output reads as. What reads as none is no target.
pub fn driven_target(look: &Look, expr: &Expr, faults: &mut Faults) -> Result<Fixed, NoMemory>
    ensures { (l : n.Look) → Shows look.now l → IsFit l → IsFormed (tree_of expr.now)
        → IfOk result (λ r. IsAim (driven l (tree_of expr.now)) r × (faults.new ≡ all_noted faults.old (driven l (tree_of expr.now)).broken)) }
{
    if is_target(expr) {
        let fixed = wire_expr_target(look, expr, faults)?;
        note_variable_index(look, &fixed, faults)?;
        return Ok(fixed);
    }
    let read = resolve(look, expr, faults)?;
    faults.note(Rule::WrongAssignment, "")?;
    Ok(Fixed {
        target: nowhere(look.alloc).target,
        width: u64::from(read.width()),
        is_sound: read.is_sound,
    })
}

/// The word of a gate.
fn gate_word(kind: GateKind) -> &'static str
    ensures { result.now ≡ gate_word_of kind }
{
    match kind {
        GateKind::And => "and",
        GateKind::Nand => "nand",
        GateKind::Or => "or",
        GateKind::Nor => "nor",
        GateKind::Xor => "xor",
        GateKind::Xnor => "xnor",
        GateKind::Buf => "buf",
        GateKind::Not => "not",
    }
}

/// A gate: its first terminal is driven by the others.
pub fn add_gate(
    alloc: Global,
    place: Place,
    kind: GateKind,
    terminals: &[Expr],
    names: &Names,
    design: &mut Design,
) -> Result<(), Stop>
    ensures meets { (pins : List ResetPin) (s : Stage) → ShowsStage pins names.now design.old s → IsFit (look_of s) → All IsFormed (map tree_of terminals.now)
        → Meets pins names.now (gate_item s place kind (map tree_of terminals.now)) result design.new }
    ensures numbered { IfErr result (HasNumberIn unfolding_numbers) }
{
    let mut faults = Faults::new(alloc, Order::Other);
    note_count(kind, terminals.len(), &mut faults)?;
    let Some((output, inputs)) = terminals.split_first() else {
        return faults.raise(place);
    };
    let assign = {
        let look = design.look(alloc, names);
        gate(&look, kind, output, inputs, &mut faults)?
    };
    keep_assign(place, faults, assign, design)
}

/// Notes that a gate has another number of terminals.
fn note_count(kind: GateKind, count: usize, faults: &mut Faults) -> Result<(), NoMemory>
    ensures { IfOk result (λ _. faults.new ≡ all_noted faults.old (count_rule kind count)) }
{
    if !has_terminals(kind, count) {
        faults.note(Rule::Mismatch, gate_word(kind))?;
    }
    Ok(())
}

/// The assignment that a gate is.
fn gate(
    look: &Look,
    kind: GateKind,
    output: &Expr,
    inputs: &[Expr],
    faults: &mut Faults,
) -> Result<FlatAssign, NoMemory>
    ensures { (l : n.Look) → Shows look.now l → IsFit l → IsFormed (tree_of output.now) → All IsFormed (map tree_of inputs.now)
        → IfOk result (λ x. IsAssign (driven l (tree_of output.now)).target (gate_value_of kind (map (read l) (map tree_of inputs.now)))
        ((driven l (tree_of output.now)).broken ++ output_rule kind (driven l (tree_of output.now)).bits ++ flat_map (input_rules kind) (map (read l) (map tree_of inputs.now))) x
        × (faults.new ≡ all_noted faults.old ((driven l (tree_of output.now)).broken ++ output_rule kind (driven l (tree_of output.now)).bits ++ flat_map (input_rules kind) (map (read l) (map tree_of inputs.now))))) }
{
    let target = driven_target(look, output, faults)?;
    note_output(kind, &target, faults)?;
    let value = gate_value(look, kind, inputs, faults)?;
    Ok(FlatAssign {
        target: target.target,
        value,
    })
}

/// The output of a gate has one bit.
fn note_output(kind: GateKind, target: &Fixed, faults: &mut Faults) -> Result<(), NoMemory>
    ensures { (a : Aim) → IsAim a target.now → IfOk result (λ _. faults.new ≡ all_noted faults.old (output_rule kind a.bits)) }
{
    if target.is_sound && target.width != 1 {
        faults.note(Rule::Mismatch, gate_word(kind))?;
    }
    Ok(())
}

/// `buf` and `not` have two terminals, all others two at least.
fn has_terminals(kind: GateKind, count: usize) -> bool
    ensures { result ≡ has_terminals_of kind count }
{
    match kind {
        GateKind::Buf | GateKind::Not => count == 2,
        _ => count >= 2,
    }
}

/// The inputs of a gate, folded from the left, with one complement on top where the gate has it.
fn gate_value(
    look: &Look,
    kind: GateKind,
    inputs: &[Expr],
    faults: &mut Faults,
) -> Result<FExpr, NoMemory>
    ensures { (l : n.Look) → Shows look.now l → IsFit l → All IsFormed (map tree_of inputs.now)
        → IfOk result (λ x. IsValue (gate_value_of kind (map (read l) (map tree_of inputs.now))) (flat_map (input_rules kind) (map (read l) (map tree_of inputs.now))) x
        × (faults.new ≡ all_noted faults.old (flat_map (input_rules kind) (map (read l) (map tree_of inputs.now))))) }
{
    let mut bits = Vec::new(look.alloc);
    for input in inputs {
        let input = one_bit(look, kind, input, faults)?;
        push(&mut bits, input.expr)?;
    }
    folded(look.alloc, kind, bits)
}

/// The gate over its inputs.
fn folded(alloc: Global, kind: GateKind, bits: Vec<FExpr>) -> Result<FExpr, NoMemory>
    ensures value { IfOk result (λ x. expr_of x ≡ gate_over kind (exprs_of (map expr_of bits.items))) }
    ensures sizes { IfOk result (λ x. list_all keeps_sizes bits.items ≡ true → keeps_sizes x ≡ true) }
{
    let value = FExpr::Gate {
        op: gate_operator(kind),
        inputs: List::from_vec(bits),
    };
    if is_inverted(kind) {
        return Ok(FExpr::Unary {
            op: FUnaryOp::Not,
            a: boxed(alloc, value)?,
            width: 1,
        });
    }
    Ok(value)
}

/// Whether a gate has a complement on top.
fn is_inverted(kind: GateKind) -> bool
    ensures { result ≡ is_inverted_of kind }
{
    match kind {
        GateKind::Nand | GateKind::Nor | GateKind::Xnor | GateKind::Not => true,
        GateKind::And | GateKind::Or | GateKind::Xor | GateKind::Buf => false,
    }
}

/// An input of a gate has one bit.
fn one_bit(
    look: &Look,
    kind: GateKind,
    input: &Expr,
    faults: &mut Faults,
) -> Result<Resolved, NoMemory>
    ensures { (l : n.Look) → Shows look.now l → IsFit l → IsFormed (tree_of input.now)
        → IfOk result (λ r. IsRead (read l (tree_of input.now)) r × (faults.new ≡ all_noted faults.old (input_rules kind (read l (tree_of input.now))))) }
{
    let input = resolve(look, input, faults)?;
    if input.is_sound && input.width() != 1 {
        faults.note(Rule::Mismatch, gate_word(kind))?;
    }
    Ok(input)
}

fn gate_operator(kind: GateKind) -> BinaryOp
    ensures { binary_of result ≡ gate_op kind }
{
    match kind {
        GateKind::And | GateKind::Nand => BinaryOp::And,
        GateKind::Or | GateKind::Nor => BinaryOp::Or,
        GateKind::Xor | GateKind::Xnor | GateKind::Buf | GateKind::Not => BinaryOp::Xor,
    }
}
