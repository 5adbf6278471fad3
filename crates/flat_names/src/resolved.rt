//! Expressions whose names are resolved, and how operators put them together.
ghost use Rattle.std.specs.Prelude.{◌≡◌, ℕ, ◌<◌, ◌≤◌, ◌^◌, [], ◌∷◌, ◌&&◌, ◌++◌, ◌≢◌, true, false, None, Option, Some, is_some, unwrap_or, option_and_then, max, not, cond, nat_lt, List, IfOk};
ghost use Rattle.flat_meaning.specs.Flat.{Number, Unary, Binary, minus, Choose, unary_size as unary_size_of, binary_size as binary_size_of};
ghost use Rattle.flat_form.specs.View.{expr_of, unary_of, binary_of};
ghost use Rattle.flat_form.specs.Sizes.{kept_of, is_sized};
ghost use Rattle.flat_form.specs.Whole.{binary_whole as binary_value, choice_whole as choice_value};
ghost use Rattle.flat_form.specs.declared.flat.FExpr.{FExpr};
ghost use Rattle.flat_form.specs.declared.flat.FExpr.TheVariants as form;
ghost use Rattle.flat_unfolding.specs.Outcome.{breaks_if};
ghost use Rattle.flat_unfolding.specs.Names.{Look};
ghost use Rattle.flat_unfolding.specs.Constants.{both, plain_unary as plain_unary_of, own_unary as own_unary_of, within as within_of, whole_unary as whole_unary_of, own_value as value_of};
ghost use Rattle.flat_unfolding.specs.Expressions.{Term, is_sound as is_sound_term, all_sound, joined, as_constant, as_count, join_term, repeat_term, is_whole_only as is_whole_only_of};
ghost use Rattle.flat_names.specs.Noting.{all_noted};
ghost use Rattle.flat_names.specs.Pieces.{Piece, IsPiece, IsRead, IsFitPiece, Makes, IsOver, AreRead, pending, numbered, flagged, as_part, unary_piece, binary_piece, choice_piece, binary_notes, choice_notes, within_word, join_notes, count_notes, repeat_notes};
ghost use Rattle.flat_names.specs.Signs.{no_signs, number_signs, orders_signed as orders_signed_of};

use crate::fault::{Faults, Rule};
use crate::signs::{Signs, orders_signed};
use cdc_base::limits::MAX_WIDTH;
use cdc_base::{List, NoMemory};
use flat_form::flat::{FExpr, FUnaryOp};
use flat_form::memory::{boxed, push};
use flat_form::size::{binary_size, is_whole_only, unary_size, width_of};
use flat_form::value::own_value;
use flat_form::whole::{MAX_WHOLE, whole_binary, whole_choice, whole_unary, within};
use std::alloc::Global;
use verilog_ast::{BinaryOp, UnaryOp};

/// A counted expression, which is made of plain numbers and counted parameters. `whole` is its value as a part of a
/// whole expression, and `None` where it can't be one.
#[derive(Clone, Copy, PartialEq, Eq, Debug, Drop)]
pub struct Count {
    pub whole: Option<u64>,
}

/// An expression whose names are resolved. Where `is_sound` is false it broke a rule: its size and value mean nothing
/// then, and `expr` only tells which signals it reads. A counted expression that isn't sound has yet to be judged.
#[derive(Drop)]
pub struct Resolved {
    pub expr: FExpr,
    pub is_sound: bool,
    pub is_constant: bool,
    pub count: Option<Count>,
    pub signs: Signs,
}

impl Resolved {
    pub fn constant(expr: FExpr, signs: Signs) -> Resolved
        ensures { result ≡ record { expr = expr; is_sound = true; is_constant = true; count = None; signs = signs } }
    {
        Resolved {
            expr,
            is_sound: true,
            is_constant: true,
            count: None,
            signs,
        }
    }

    pub fn variable(expr: FExpr) -> Resolved
        ensures { result ≡ record { expr = expr; is_sound = true; is_constant = false; count = None; signs = no_signs } }
    {
        Resolved {
            expr,
            is_sound: true,
            is_constant: false,
            count: None,
            signs: Signs::none(),
        }
    }

    /// What broke a rule. Signals that are read below it are in `expr`.
    pub fn broken(expr: FExpr, is_constant: bool) -> Resolved
        ensures { result ≡ record { expr = expr; is_sound = false; is_constant = is_constant; count = None; signs = no_signs } }
    {
        Resolved {
            expr,
            is_sound: false,
            is_constant,
            count: None,
            signs: Signs::none(),
        }
    }

    pub fn width(&self) -> u8
        ensures { result ≡ (kept_of self.now.expr).width }
    {
        width_of(&self.expr)
    }
}

/// An expression that reads nothing.
pub fn nothing() -> FExpr
    ensures { result ≡ form.Number 0 1 }
{
    FExpr::Number { value: 0, width: 1 }
}

/// A plain number or a counted parameter.
pub fn counted_number(value: u64, width: u8, signs: Signs) -> Resolved
    ensures { result ≡ numbered (within_of width value) value width signs }
{
    let whole = within(width, value);
    Resolved {
        expr: FExpr::Number { value, width },
        is_sound: whole.is_some(),
        is_constant: true,
        count: Some(Count { whole }),
        signs,
    }
}

/// A counted expression of own size 32 is whole, so it counts as a number.
fn whole_number(whole: Option<u64>) -> Resolved
    ensures { result ≡ numbered whole (unwrap_or whole 0) 32 number_signs }
{
    Resolved {
        expr: FExpr::Number {
            value: whole.unwrap_or(0),
            width: 32,
        },
        is_sound: whole.is_some(),
        is_constant: true,
        count: Some(Count { whole }),
        signs: Signs::of_number(),
    }
}

/// A counted expression of own size 1, sound where its parts are: it has its meaning by the sizes, unless it stands in
/// a whole expression.
fn counted_flag(expr: FExpr, is_sound: bool, whole: Option<u64>, signs: Signs) -> Resolved
    ensures { result ≡ flagged expr is_sound whole signs }
{
    Resolved {
        expr,
        is_sound,
        is_constant: true,
        count: Some(Count { whole }),
        signs,
    }
}

/// Judges an expression that is no part of a greater counted one.
pub fn settled(resolved: Resolved, faults: &mut Faults) -> Result<Resolved, NoMemory>
    ensures { (p : Piece) → IsPiece p resolved → IsFitPiece p → IfOk result (λ r. (r ≡ resolved) × (faults.new ≡ all_noted faults.old (pending p))) }
{
    if resolved.is_sound {
        return Ok(resolved);
    }
    if resolved.count.is_none() {
        return Ok(resolved);
    }
    faults.note(Rule::ConstantOutOfRange, "")?;
    Ok(resolved)
}

/// Judges an expression that has to be a constant.
pub fn settled_constant(resolved: Resolved, faults: &mut Faults) -> Result<Resolved, NoMemory>
    ensures read { (p : Piece) → IsPiece p resolved → IsFitPiece p
        → IfOk result (λ r. IsRead (as_constant p.term) r × (faults.new ≡ all_noted faults.old (pending p ++ breaks_if (not p.term.is_constant) 307 []))) }
    ensures counted { (p : Piece) → IsPiece p resolved → IsFitPiece p → IfOk result (λ r. is_some r.count ≡ is_some p.size) }
    ensures signs { (p : Piece) → IsPiece p resolved → IsFitPiece p → IfOk result (λ r. r.signs ≡ p.signs) }
{
    let resolved = settled(resolved, faults)?;
    if resolved.is_constant {
        return Ok(resolved);
    }
    faults.note(Rule::ConstantOutOfRange, "")?;
    Ok(Resolved {
        is_sound: false,
        ..resolved
    })
}

/// Judges a part of a concatenation or a replication, which needs a size of its own.
pub fn settled_part(resolved: Resolved, faults: &mut Faults) -> Result<Resolved, NoMemory>
    ensures { (p : Piece) → IsPiece p resolved → IsFitPiece p
        → IfOk result (λ r. IsRead (as_part p) r × (faults.new ≡ all_noted faults.old (pending p ++ breaks_if p.signs.is_unsized 308 []))) }
{
    let part = settled(resolved, faults)?;
    if part.signs.is_unsized {
        faults.note(Rule::Width, "")?;
        return Ok(Resolved {
            is_sound: false,
            ..part
        });
    }
    Ok(part)
}

pub fn unary(alloc: Global, op: UnaryOp, a: Resolved) -> Result<Resolved, NoMemory>
    ensures { (l : Look) (p : Piece) → IsPiece p a → IsFitPiece p → IfOk result (λ r. IsPiece (unary_piece l op p) r) }
{
    let size = a.width();
    if let Some(count) = a.count {
        let width = own_unary(op, size);
        let whole = unary_whole(op, count.whole, size);
        return counted_unary(alloc, op, a, width, whole);
    }
    let signs = Signs::of_unary(op, a.signs);
    let expr = unary_expr(alloc, op, a.expr)?;
    Ok(Resolved {
        expr,
        is_sound: a.is_sound,
        is_constant: a.is_constant,
        count: None,
        signs,
    })
}

fn counted_unary(
    alloc: Global,
    op: UnaryOp,
    a: Resolved,
    width: u8,
    whole: Option<u64>,
) -> Result<Resolved, NoMemory>
    ensures { (l : Look) (p : Piece) (k : ℕ) → IsPiece p a → IsFitPiece p → p.size ≡ Some k → width ≡ own_unary_of op k → whole ≡ option_and_then (λ m. option_and_then (within_of (own_unary_of op k)) (whole_unary_of op k m)) p.whole
        → IfOk result (λ r. IsPiece (unary_piece l op p) r) }
{
    if width != 1 {
        return Ok(whole_number(whole));
    }
    let is_sound = a.is_sound;
    let signs = Signs::of_unary(op, a.signs);
    let expr = unary_expr(alloc, op, a.expr)?;
    Ok(counted_flag(expr, is_sound, whole, signs))
}

/// The operator over its operand. `-` has none: `-a` is `0 - a`.
fn plain_unary(op: UnaryOp) -> Option<FUnaryOp>
    ensures { result ≡ plain_unary_of op }
{
    match op {
        UnaryOp::Minus => None,
        UnaryOp::Not => Some(FUnaryOp::Not),
        UnaryOp::LogicNot => Some(FUnaryOp::LogicNot),
        UnaryOp::And => Some(FUnaryOp::And),
        UnaryOp::Or => Some(FUnaryOp::Or),
        UnaryOp::Xor => Some(FUnaryOp::Xor),
        UnaryOp::Nand => Some(FUnaryOp::Nand),
        UnaryOp::Nor => Some(FUnaryOp::Nor),
        UnaryOp::Xnor => Some(FUnaryOp::Xnor),
    }
}

/// The own size of a unary expression over an operand of `size` bits.
fn own_unary(op: UnaryOp, size: u8) -> u8
    ensures { result ≡ own_unary_of op size }
{
    match plain_unary(op) {
        Some(op) => unary_size(op, size),
        None => size,
    }
}

/// The value of a counted unary expression over an operand of `size` bits, as a whole number.
fn unary_whole(op: UnaryOp, a: Option<u64>, size: u8) -> Option<u64>
    ensures { size ≤ 64 → ((n : ℕ) → a ≡ Some n → n < 2 ^ size) → result ≡ option_and_then (λ m. option_and_then (within_of (own_unary_of op size)) (whole_unary_of op size m)) a }
{
    match plain_unary(op) {
        Some(op) => whole_unary(op, a, size),
        None => whole_binary(BinaryOp::Sub, Some(0), a, size),
    }
}

fn unary_expr(alloc: Global, op: UnaryOp, a: FExpr) -> Result<FExpr, NoMemory>
    ensures { IfOk result (IsOver op a) }
{
    match plain_unary(op) {
        Some(op) => plain_expr(alloc, op, a),
        None => opposite(alloc, a),
    }
}

fn plain_expr(alloc: Global, op: FUnaryOp, a: FExpr) -> Result<FExpr, NoMemory>
    ensures { IfOk result (λ e. Makes e (Unary (unary_of op) (expr_of a)) (record { width = unary_size_of (unary_of op) (kept_of a).width; right = is_sized a })) }
{
    let width = unary_size(op, width_of(&a));
    let a = boxed(alloc, a)?;
    Ok(FExpr::Unary { op, a, width })
}

/// `0 - a`, this 0 having a's own size.
fn opposite(alloc: Global, a: FExpr) -> Result<FExpr, NoMemory>
    ensures { IfOk result (λ e. Makes e (Binary minus (Number (kept_of a).width 0) (expr_of a)) (record { width = (kept_of a).width; right = is_sized a })) }
{
    let zero = FExpr::Number {
        value: 0,
        width: width_of(&a),
    };
    binary_expr(alloc, BinaryOp::Sub, zero, a)
}

pub fn binary(
    alloc: Global,
    op: BinaryOp,
    a: Resolved,
    b: Resolved,
    faults: &mut Faults,
) -> Result<Resolved, NoMemory>
    ensures { (l : Look) (p q : Piece) → IsPiece p a → IsFitPiece p → IsPiece q b → IsFitPiece q
        → IfOk result (λ r. IsPiece (binary_piece l op p q) r × (faults.new ≡ all_noted faults.old (binary_notes op p q))) }
{
    if let (Some(first), Some(second)) = (a.count, b.count) {
        let width = binary_size(op, a.width(), b.width());
        let whole = whole_binary(op, first.whole, second.whole, width);
        return counted_binary(alloc, op, a, b, whole);
    }
    open_binary(alloc, op, a, b, faults)
}

/// Of operands that aren't both counted.
fn open_binary(
    alloc: Global,
    op: BinaryOp,
    a: Resolved,
    b: Resolved,
    faults: &mut Faults,
) -> Result<Resolved, NoMemory>
    ensures { (l : Look) (p q : Piece) → IsPiece p a → IsFitPiece p → IsPiece q b → IsFitPiece q → both (λ j k. k) p.size q.size ≡ None
        → IfOk result (λ r. IsPiece (binary_piece l op p q) r × (faults.new ≡ all_noted faults.old (pending p ++ pending q ++ breaks_if (is_whole_only_of op) 307 [] ++ breaks_if (orders_signed_of op p.signs q.signs) 307 []))) }
{
    let a = settled(a, faults)?;
    let b = settled(b, faults)?;
    let is_broken = is_whole_only(op) || orders_signed(op, a.signs, b.signs);
    if is_broken {
        faults.note(Rule::ConstantOutOfRange, "")?;
    }
    let is_sound = a.is_sound && b.is_sound && !is_broken;
    let is_constant = a.is_constant && b.is_constant;
    let signs = Signs::of_binary(op, a.signs, b.signs);
    let expr = binary_expr(alloc, op, a.expr, b.expr)?;
    Ok(Resolved {
        expr,
        is_sound,
        is_constant,
        count: None,
        signs,
    })
}

fn counted_binary(
    alloc: Global,
    op: BinaryOp,
    a: Resolved,
    b: Resolved,
    whole: Option<u64>,
) -> Result<Resolved, NoMemory>
    ensures { (l : Look) (p q : Piece) (j k : ℕ) → IsPiece p a → IsFitPiece p → IsPiece q b → IsFitPiece q → p.size ≡ Some j → q.size ≡ Some k
        → whole ≡ binary_value op (binary_size_of (binary_of op) j k) p.whole q.whole → IfOk result (λ r. IsPiece (binary_piece l op p q) r) }
{
    if binary_size(op, a.width(), b.width()) != 1 {
        return Ok(whole_number(whole));
    }
    let is_sound = a.is_sound && b.is_sound && !is_whole_only(op);
    let signs = Signs::of_binary(op, a.signs, b.signs);
    let expr = binary_expr(alloc, op, a.expr, b.expr)?;
    Ok(counted_flag(expr, is_sound, whole, signs))
}

pub fn binary_expr(alloc: Global, op: BinaryOp, a: FExpr, b: FExpr) -> Result<FExpr, NoMemory>
    ensures { IfOk result (λ e. Makes e (Binary (binary_of op) (expr_of a) (expr_of b))
        (record { width = binary_size_of (binary_of op) (kept_of a).width (kept_of b).width; right = is_sized a && is_sized b })) }
{
    let width = binary_size(op, width_of(&a), width_of(&b));
    let a = boxed(alloc, a)?;
    let b = boxed(alloc, b)?;
    Ok(FExpr::Binary { op, a, b, width })
}

pub fn choose(
    alloc: Global,
    cond: Resolved,
    yes: Resolved,
    other: Resolved,
    faults: &mut Faults,
) -> Result<Resolved, NoMemory>
    ensures { (l : Look) (p q o : Piece) → IsPiece p cond → IsFitPiece p → IsPiece q yes → IsFitPiece q → IsPiece o other → IsFitPiece o
        → IfOk result (λ r. IsPiece (choice_piece l p q o) r × (faults.new ≡ all_noted faults.old (choice_notes p q o))) }
{
    if let (Some(test), Some(first), Some(second)) = (cond.count, yes.count, other.count) {
        let width = yes.width().max(other.width());
        let whole = whole_choice(test.whole, first.whole, second.whole, width);
        return counted_choice(alloc, cond, yes, other, whole);
    }
    open_choice(alloc, cond, yes, other, faults)
}

/// Of parts that aren't all counted.
fn open_choice(
    alloc: Global,
    cond: Resolved,
    yes: Resolved,
    other: Resolved,
    faults: &mut Faults,
) -> Result<Resolved, NoMemory>
    ensures { (l : Look) (p q o : Piece) → IsPiece p cond → IsFitPiece p → IsPiece q yes → IsFitPiece q → IsPiece o other → IsFitPiece o
        → both (λ i k. k) p.size (both (λ j k. k) q.size o.size) ≡ None
        → IfOk result (λ r. IsPiece (choice_piece l p q o) r × (faults.new ≡ all_noted faults.old (pending p ++ pending q ++ pending o))) }
{
    let cond = settled(cond, faults)?;
    let yes = settled(yes, faults)?;
    let other = settled(other, faults)?;
    let is_sound = cond.is_sound && yes.is_sound && other.is_sound;
    let is_constant = cond.is_constant && yes.is_constant && other.is_constant;
    let signs = Signs::of_choice(yes.signs, other.signs);
    let expr = choose_expr(alloc, cond.expr, yes.expr, other.expr)?;
    Ok(Resolved {
        expr,
        is_sound,
        is_constant,
        count: None,
        signs,
    })
}

fn counted_choice(
    alloc: Global,
    cond: Resolved,
    yes: Resolved,
    other: Resolved,
    whole: Option<u64>,
) -> Result<Resolved, NoMemory>
    ensures { (l : Look) (p q o : Piece) (i j k : ℕ) → IsPiece p cond → IsFitPiece p → IsPiece q yes → IsFitPiece q → IsPiece o other → IsFitPiece o
        → p.size ≡ Some i → q.size ≡ Some j → o.size ≡ Some k → whole ≡ choice_value (max j k) p.whole q.whole o.whole
        → IfOk result (λ r. IsPiece (choice_piece l p q o) r) }
{
    if yes.width().max(other.width()) != 1 {
        return Ok(whole_number(whole));
    }
    let is_sound = cond.is_sound && yes.is_sound && other.is_sound;
    let signs = Signs::of_choice(yes.signs, other.signs);
    let expr = choose_expr(alloc, cond.expr, yes.expr, other.expr)?;
    Ok(counted_flag(expr, is_sound, whole, signs))
}

pub fn choose_expr(alloc: Global, cond: FExpr, yes: FExpr, other: FExpr) -> Result<FExpr, NoMemory>
    ensures { IfOk result (λ e. Makes e (Choose (expr_of cond) (expr_of yes) (expr_of other))
        (record { width = max (kept_of yes).width (kept_of other).width; right = is_sized cond && (is_sized yes && is_sized other) })) }
{
    let width = width_of(&yes).max(width_of(&other));
    let cond = boxed(alloc, cond)?;
    let yes = boxed(alloc, yes)?;
    let other = boxed(alloc, other)?;
    Ok(FExpr::Choose {
        cond,
        yes,
        other,
        width,
    })
}

/// Parts of a concatenation or a replication, settled.
#[derive(Drop)]
pub struct Parts {
    pub items: Vec<FExpr>,
    pub width: u64,
    pub is_sound: bool,
    pub is_constant: bool,
}

impl Parts {
    pub fn new(alloc: Global) -> Parts
        ensures { AreRead [] result }
    {
        Parts {
            items: Vec::new(alloc),
            width: 0,
            is_sound: true,
            is_constant: true,
        }
    }

    pub fn add(&mut self, part: Resolved) -> Result<(), NoMemory>
        ensures { (ts : List Term) (t : Term) → AreRead ts self.old → IsRead t part → IfOk result (λ _. AreRead (ts ++ t ∷ []) self.new) }
    {
        self.width = self.width.saturating_add(u64::from(part.width()));
        self.is_sound = self.is_sound && part.is_sound;
        self.is_constant = self.is_constant && part.is_constant;
        push(&mut self.items, part.expr)
    }
}

/// A width of more than 64 bits breaks a rule.
fn joined_width(width: u64, is_sound: bool, faults: &mut Faults) -> Result<Option<u8>, NoMemory>
    ensures { IfOk result (λ w. (w ≡ within_word is_sound width) × (faults.new ≡ all_noted faults.old (breaks_if (is_sound && nat_lt 64 width) 308 []))) }
{
    if !is_sound {
        return Ok(None);
    }
    if width > u64::from(MAX_WIDTH) {
        faults.note(Rule::Width, "")?;
        return Ok(None);
    }
    Ok(u8::try_from(width).ok())
}

pub fn join(parts: Parts, faults: &mut Faults) -> Result<Resolved, NoMemory>
    ensures { (t : Term) (ts : List Term) → AreRead (t ∷ ts) parts
        → IfOk result (λ r. IsRead (join_term (t ∷ ts)) r × (r.count ≡ None) × (faults.new ≡ all_noted faults.old (join_notes (t ∷ ts))) × (r.signs ≡ no_signs)) }
{
    let width = joined_width(parts.width, parts.is_sound, faults)?;
    Ok(Resolved {
        expr: FExpr::Join {
            parts: List::from_vec(parts.items),
            width: width.unwrap_or(1),
        },
        is_sound: width.is_some(),
        is_constant: parts.is_constant,
        count: None,
        signs: Signs::none(),
    })
}

/// The count of a replication or of the bits of a part, which is at least 1.
pub fn repetition(count: &Resolved, faults: &mut Faults) -> Result<Option<u64>, NoMemory>
    ensures { (t : Term) → IsRead (as_constant t) count.now
        → IfOk result (λ n. (n ≡ cond (is_sound_term (as_count t)) (Some (value_of t.expr)) None) × (faults.new ≡ all_noted faults.old (count_notes t))) }
{
    if !count.is_sound {
        return Ok(None);
    }
    let times = own_value(&count.expr);
    if times == 0 || times > MAX_WHOLE {
        faults.note(Rule::ConstantOutOfRange, "")?;
        return Ok(None);
    }
    Ok(Some(times))
}

/// A replication. The count is settled as a constant.
pub fn repeat(count: Resolved, parts: Parts, faults: &mut Faults) -> Result<Resolved, NoMemory>
    ensures { (k t : Term) (ts : List Term) → IsRead (as_constant k) count → AreRead (t ∷ ts) parts
        → IfOk result (λ r. IsRead (repeat_term k (t ∷ ts)) r × (r.count ≡ None) × (faults.new ≡ all_noted faults.old (count_notes k ++ repeat_notes k (t ∷ ts))) × (r.signs ≡ no_signs)) }
{
    let times = repetition(&count, faults)?;
    let total = times.unwrap_or(0).saturating_mul(parts.width);
    let width = joined_width(total, parts.is_sound && times.is_some(), faults)?;
    Ok(Resolved {
        expr: FExpr::Repeat {
            count: kept_count(times),
            parts: List::from_vec(parts.items),
            width: width.unwrap_or(1),
        },
        is_sound: width.is_some(),
        is_constant: parts.is_constant,
        count: None,
        signs: Signs::none(),
    })
}

/// The count of a replication of at most 64 bits.
fn kept_count(times: Option<u64>) -> u8
    ensures { unwrap_or times 0 < 256 → result ≡ unwrap_or times 0 }
{
    u8::try_from(times.unwrap_or(0)).unwrap_or(0)
}
