//! The trees of expressions at a size.
ghost use Rattle.std.specs.Prelude.{◌≡◌, ℕ, ◌+◌, ◌<◌, ◌≤◌, ◌*◌, [], true, length, map, IfOk};
ghost use Rattle.cell_graph.specs.Tree.{Shr as ShrTree, Slice as SliceTree};
ghost use Rattle.flat_form.specs.View.{unary_of, binary_of, expr_of, exprs_of};
ghost use Rattle.flat_meaning.specs.Flat.{size, sizes, largest};
ghost use Rattle.flat_meaning.specs.Fits.{is_gate};
ghost use Rattle.flat_meaning.specs.Meaning.{unary_at, left_at, right_at};
ghost use Rattle.flat_meaning.specs.Trees.{Selects, tree as tree_of_expr, truth_of, joined_tree, gate_tree, copies_tree, unary_tree, binary_tree};
ghost use Rattle.driver_trees.specs.Drafts.{tree_in, AreDrafts, IsDraftOf};
ghost use Rattle.driver_trees.specs.Growth.{IsBuilt};
ghost use Rattle.driver_trees.specs.Operators.{reduction, negates, not_if, bit_tree, takes_truths, operator_cell, AreOperands};
ghost use Rattle.driver_trees.specs.Choices.{around_tree, AreChoices};
ghost use Rattle.driver_trees.specs.Presents.{Sees, IsRead, AreRead};

use crate::draft::Drafts;
use crate::memory::push;
use crate::present::Present;
use cdc_base::NoMemory;
use cell_graph::{Cell, CellId, ReduceKind};
use flat_form::size::{left_size, operand_size, right_size, width_of};
use flat_form::{FExpr, FUnaryOp};
use std::alloc::Global;
use verilog_ast::BinaryOp;

/// A choice around an expression, which is taken where it doesn't hold.
#[derive(Clone, Copy, Drop)]
struct Choice {
    cond: CellId,
    yes: CellId,
}

/// The tree of the expression at `width` bits, which are no fewer than its own. A read of a large memory is a long chain
/// of choices, which is walked without a recursion.
#[cycle(trees)]
pub fn tree(
    alloc: Global,
    drafts: &mut Drafts,
    present: &Present,
    e: &FExpr,
    width: u8,
) -> Result<CellId, NoMemory>
    ensures built { (wid : ℕ → ℕ) (look : Selects → Selects) → AreDrafts wid drafts.old → Sees wid drafts.old present.now look → IsRead wid e.now
        → size (expr_of e.now) ≤ width → width ≤ 64
        → IfOk result (λ id. IsBuilt wid drafts.old drafts.new id width (λ sel. tree_of_expr wid (look sel) (expr_of e.now) width)) }
{
    let mut around = Vec::new(alloc);
    let mut inner = e;
    while let FExpr::Choose {
        cond,
        yes,
        other,
        ..
    } = inner
    {
        let word = tree(alloc, drafts, present, cond, width_of(cond))?;
        let cond = drafts.truth(word)?;
        let yes = tree(alloc, drafts, present, yes, width)?;
        push(&mut around, Choice { cond, yes })?;
        inner = other;
    }
    let word = by_form(alloc, drafts, present, inner, width)?;
    chosen(drafts, word, around)
}

/// The tree of the expression by its outermost form.
#[cycle(trees)]
fn by_form(
    alloc: Global,
    drafts: &mut Drafts,
    present: &Present,
    e: &FExpr,
    width: u8,
) -> Result<CellId, NoMemory>
    ensures built { (wid : ℕ → ℕ) (look : Selects → Selects) → AreDrafts wid drafts.old → Sees wid drafts.old present.now look → IsRead wid e.now
        → size (expr_of e.now) ≤ width → width ≤ 64
        → IfOk result (λ id. IsBuilt wid drafts.old drafts.new id width (λ sel. tree_of_expr wid (look sel) (expr_of e.now) width)) }
{
    match e {
        FExpr::Number { value, width: own } => {
            let number = drafts.constant(*own, *value)?;
            drafts.fitted(number, width)
        }
        FExpr::Read {
            sig,
            at,
            width: own,
        } => {
            let word = present.read(drafts, *sig, *at, *own)?;
            drafts.fitted(word, width)
        }
        FExpr::At { sig, index, .. } => {
            let whole = present.whole(drafts, *sig)?;
            let by = tree(alloc, drafts, present, index, width_of(index))?;
            let bit = chosen_bit(drafts, whole, by)?;
            drafts.fitted(bit, width)
        }
        FExpr::Unary { op, a, .. } => {
            let size = operand_size(*op, width, width_of(a));
            let operand = tree(alloc, drafts, present, a, size)?;
            unary(drafts, *op, operand, width)
        }
        FExpr::Binary { op, a, b, .. } => {
            let (m, n) = (width_of(a), width_of(b));
            let left = left_size(*op, width, m, n);
            let right = right_size(*op, width, m, n);
            let x = tree(alloc, drafts, present, a, left)?;
            let y = tree(alloc, drafts, present, b, right)?;
            binary(drafts, *op, x, y, width)
        }
        FExpr::Choose {
            cond,
            yes,
            other,
            ..
        } => {
            let word = tree(alloc, drafts, present, cond, width_of(cond))?;
            let cond = drafts.truth(word)?;
            let yes = tree(alloc, drafts, present, yes, width)?;
            let other = tree(alloc, drafts, present, other, width)?;
            drafts.add(Cell::Mux { cond, yes, other })
        }
        FExpr::Gate { op, inputs } => gate(alloc, drafts, present, *op, inputs.as_slice(), width),
        FExpr::Join { parts, .. } => {
            let word = join(alloc, drafts, present, parts.as_slice())?;
            drafts.fitted(word, width)
        }
        FExpr::Repeat { count, parts, .. } => {
            let word = join(alloc, drafts, present, parts.as_slice())?;
            let copies = repeated(drafts, word, *count)?;
            drafts.fitted(copies, width)
        }
    }
}

/// The word with the choices around it, the last one of the list innermost.
fn chosen(drafts: &mut Drafts, innermost: CellId, around: Vec<Choice>) -> Result<CellId, NoMemory>
    ensures built { (wid : ℕ → ℕ) (w : ℕ) → AreDrafts wid drafts.old → IsDraftOf drafts.old innermost w → AreChoices drafts.old w around.items
        → IfOk result (λ id. IsBuilt wid drafts.old drafts.new id w (λ sel. around_tree sel drafts.old around.items (tree_in sel drafts.old innermost))) }
{
    let mut left = around;
    let mut word = innermost;
    while let Some(choice) = left.pop() {
        word = drafts.add(Cell::Mux {
            cond: choice.cond,
            yes: choice.yes,
            other: word,
        })?;
    }
    Ok(word)
}

/// The inputs of a gate, which has one at least, folded from the left.
#[cycle(trees)]
fn gate(
    alloc: Global,
    drafts: &mut Drafts,
    present: &Present,
    op: BinaryOp,
    inputs: &[FExpr],
    width: u8,
) -> Result<CellId, NoMemory>
    ensures built { (wid : ℕ → ℕ) (look : Selects → Selects) → AreDrafts wid drafts.old → Sees wid drafts.old present.now look → AreRead wid inputs.now
        → is_gate (binary_of op) ≡ true → largest (exprs_of (map expr_of inputs.now)) ≤ width → 1 ≤ width → width ≤ 64
        → IfOk result (λ id. IsBuilt wid drafts.old drafts.new id width (λ sel. gate_tree wid (look sel) (binary_of op) width (exprs_of (map expr_of inputs.now)))) }
{
    let Some((first, others)) = inputs.split_first() else {
        return drafts.constant(width, 0);
    };
    let mut word = tree(alloc, drafts, present, first, width)?;
    for input in others {
        let next = tree(alloc, drafts, present, input, width)?;
        word = binary(drafts, op, word, next, width)?;
    }
    Ok(word)
}

/// The expressions side by side, each at its own size.
#[cycle(trees)]
fn join(
    alloc: Global,
    drafts: &mut Drafts,
    present: &Present,
    parts: &[FExpr],
) -> Result<CellId, NoMemory>
    ensures built { (wid : ℕ → ℕ) (look : Selects → Selects) → AreDrafts wid drafts.old → Sees wid drafts.old present.now look → AreRead wid parts.now
        → 1 ≤ sizes (exprs_of (map expr_of parts.now)) → sizes (exprs_of (map expr_of parts.now)) ≤ 64
        → IfOk result (λ id. IsBuilt wid drafts.old drafts.new id (sizes (exprs_of (map expr_of parts.now))) (λ sel. joined_tree wid (look sel) (exprs_of (map expr_of parts.now)))) }
{
    let mut words = Vec::new(alloc);
    for part in parts {
        let word = tree(alloc, drafts, present, part, width_of(part))?;
        push(&mut words, word)?;
    }
    drafts.joined(words)
}

/// The expression at its own size.
pub fn own_tree(
    alloc: Global,
    drafts: &mut Drafts,
    present: &Present,
    e: &FExpr,
) -> Result<CellId, NoMemory>
    ensures built { (wid : ℕ → ℕ) (look : Selects → Selects) → AreDrafts wid drafts.old → Sees wid drafts.old present.now look → IsRead wid e.now
        → IfOk result (λ id. IsBuilt wid drafts.old drafts.new id (size (expr_of e.now)) (λ sel. tree_of_expr wid (look sel) (expr_of e.now) (size (expr_of e.now)))) }
{
    tree(alloc, drafts, present, e, width_of(e))
}

/// Whether the expression isn't zero, as one bit.
pub fn truth(
    alloc: Global,
    drafts: &mut Drafts,
    present: &Present,
    e: &FExpr,
) -> Result<CellId, NoMemory>
    ensures built { (wid : ℕ → ℕ) (look : Selects → Selects) → AreDrafts wid drafts.old → Sees wid drafts.old present.now look → IsRead wid e.now
        → IfOk result (λ id. IsBuilt wid drafts.old drafts.new id 1 (λ sel. truth_of wid (look sel) (expr_of e.now))) }
{
    let word = own_tree(alloc, drafts, present, e)?;
    drafts.truth(word)
}

/// The bit of the word at a variable index.
fn chosen_bit(drafts: &mut Drafts, word: CellId, by: CellId) -> Result<CellId, NoMemory>
    ensures built { (wid : ℕ → ℕ) (m : ℕ) → AreDrafts wid drafts.old → IsDraftOf drafts.old word m → by.0 < length drafts.old
        → IfOk result (λ id. IsBuilt wid drafts.old drafts.new id 1 (λ sel. SliceTree (ShrTree (tree_in sel drafts.old word) (tree_in sel drafts.old by)) 0 1)) }
{
    let a = drafts.add(Cell::Shr { a: word, by })?;
    drafts.add(Cell::Slice { a, at: 0, width: 1 })
}

/// The word `count` times side by side.
fn repeated(drafts: &mut Drafts, word: CellId, count: u8) -> Result<CellId, NoMemory>
    ensures built { (wid : ℕ → ℕ) (m : ℕ) → AreDrafts wid drafts.old → IsDraftOf drafts.old word m → 1 ≤ count → count * m ≤ 64
        → IfOk result (λ id. IsBuilt wid drafts.old drafts.new id (count * m) (λ sel. copies_tree count m (tree_in sel drafts.old word))) }
{
    let mut copies = word;
    for _ in 1..count {
        copies = drafts.add(Cell::Concat {
            high: word,
            low: copies,
        })?;
    }
    Ok(copies)
}

fn unary(drafts: &mut Drafts, op: FUnaryOp, a: CellId, width: u8) -> Result<CellId, NoMemory>
    ensures built { (wid : ℕ → ℕ) (own : ℕ) → AreDrafts wid drafts.old → IsDraftOf drafts.old a (unary_at (unary_of op) width own) → 1 ≤ width → width ≤ 64
        → IfOk result (λ id. IsBuilt wid drafts.old drafts.new id width (λ sel. unary_tree (unary_of op) width (unary_at (unary_of op) width own) (tree_in sel drafts.old a))) }
{
    match op {
        FUnaryOp::Not => drafts.add(Cell::Not { a }),
        _ => {
            let bit = unary_bit(drafts, op, a)?;
            let bit = negated_if(drafts, is_negated(op), bit)?;
            drafts.fitted(bit, width)
        }
    }
}

/// The bit of a reduction or of `!` before it is negated.
fn unary_bit(drafts: &mut Drafts, op: FUnaryOp, a: CellId) -> Result<CellId, NoMemory>
    ensures built { (wid : ℕ → ℕ) (m : ℕ) → AreDrafts wid drafts.old → IsDraftOf drafts.old a m
        → IfOk result (λ id. IsBuilt wid drafts.old drafts.new id 1 (λ sel. bit_tree (reduction op) m (tree_in sel drafts.old a))) }
{
    match reduction_of(op) {
        Some(kind) => drafts.add(Cell::Reduce { kind, a }),
        None => drafts.truth(a),
    }
}

/// How the operator reduces its operand; None where it takes its truth, or all its bits.
fn reduction_of(op: FUnaryOp) -> Option<ReduceKind>
    ensures { result ≡ reduction op }
{
    match op {
        FUnaryOp::Not | FUnaryOp::LogicNot => None,
        FUnaryOp::And | FUnaryOp::Nand => Some(ReduceKind::And),
        FUnaryOp::Or | FUnaryOp::Nor => Some(ReduceKind::Or),
        FUnaryOp::Xor | FUnaryOp::Xnor => Some(ReduceKind::Xor),
    }
}

/// Whether the operator negates what it makes of its operand.
fn is_negated(op: FUnaryOp) -> bool
    ensures { result ≡ negates op }
{
    match op {
        FUnaryOp::And | FUnaryOp::Or | FUnaryOp::Xor => false,
        FUnaryOp::Not | FUnaryOp::LogicNot | FUnaryOp::Nand | FUnaryOp::Nor | FUnaryOp::Xnor =>
            true,
    }
}

fn negated_if(drafts: &mut Drafts, negated: bool, a: CellId) -> Result<CellId, NoMemory>
    ensures built { (wid : ℕ → ℕ) (m : ℕ) → AreDrafts wid drafts.old → IsDraftOf drafts.old a m
        → IfOk result (λ id. IsBuilt wid drafts.old drafts.new id m (λ sel. not_if negated (tree_in sel drafts.old a))) }
{
    if negated {
        drafts.add(Cell::Not { a })
    } else {
        Ok(a)
    }
}

fn binary(
    drafts: &mut Drafts,
    op: BinaryOp,
    a: CellId,
    b: CellId,
    width: u8,
) -> Result<CellId, NoMemory>
    ensures built { (wid : ℕ → ℕ) (x y : ℕ) → AreDrafts wid drafts.old
        → IsDraftOf drafts.old a (left_at (binary_of op) width x y) → IsDraftOf drafts.old b (right_at (binary_of op) width x y) → 1 ≤ width → width ≤ 64
        → IfOk result (λ id. IsBuilt wid drafts.old drafts.new id width
        (λ sel. binary_tree (binary_of op) width (left_at (binary_of op) width x y) (right_at (binary_of op) width x y) (tree_in sel drafts.old a) (tree_in sel drafts.old b))) }
{
    let (x, y) = operands(drafts, op, a, b)?;
    match cell_of(op, x, y) {
        Some((cell, negated)) => {
            let word = drafts.add(cell)?;
            let word = negated_if(drafts, negated, word)?;
            drafts.fitted(word, width)
        }
        None => drafts.constant(width, 0),
    }
}

/// The operands as the operator's cell takes them: `&&` and `||` take their truths.
fn operands(
    drafts: &mut Drafts,
    op: BinaryOp,
    a: CellId,
    b: CellId,
) -> Result<(CellId, CellId), NoMemory>
    ensures built { (wid : ℕ → ℕ) (m n : ℕ) → AreDrafts wid drafts.old → IsDraftOf drafts.old a m → IsDraftOf drafts.old b n
        → IfOk result (λ p. AreOperands op wid drafts.old drafts.new m n a b p.0 p.1) }
{
    if is_logic(op) {
        let x = drafts.truth(a)?;
        let y = drafts.truth(b)?;
        Ok((x, y))
    } else {
        Ok((a, b))
    }
}

fn is_logic(op: BinaryOp) -> bool
    ensures { result ≡ takes_truths op }
{
    matches!(op, BinaryOp::LogicAnd | BinaryOp::LogicOr)
}

/// The cell of a binary operator, and whether its word is negated; None for those that a flat design has in numbers
/// alone.
fn cell_of(op: BinaryOp, a: CellId, b: CellId) -> Option<(Cell, bool)>
    ensures { result ≡ operator_cell op a b }
{
    match op {
        BinaryOp::Mul | BinaryOp::Div | BinaryOp::Mod => None,
        BinaryOp::Add => Some((Cell::Add { a, b }, false)),
        BinaryOp::Sub => Some((Cell::Sub { a, b }, false)),
        BinaryOp::Shl => Some((Cell::Shl { a, by: b }, false)),
        BinaryOp::Shr => Some((Cell::Shr { a, by: b }, false)),
        BinaryOp::Lt => Some((Cell::Lt { a, b }, false)),
        BinaryOp::Le => Some((Cell::Lt { a: b, b: a }, true)),
        BinaryOp::Gt => Some((Cell::Lt { a: b, b: a }, false)),
        BinaryOp::Ge => Some((Cell::Lt { a, b }, true)),
        BinaryOp::Eq => Some((Cell::Eq { a, b }, false)),
        BinaryOp::Ne => Some((Cell::Eq { a, b }, true)),
        BinaryOp::And | BinaryOp::LogicAnd => Some((Cell::And { a, b }, false)),
        BinaryOp::Or | BinaryOp::LogicOr => Some((Cell::Or { a, b }, false)),
        BinaryOp::Xor => Some((Cell::Xor { a, b }, false)),
        BinaryOp::Xnor => Some((Cell::Xor { a, b }, true)),
    }
}
