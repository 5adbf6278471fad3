//! Resets of clocked processes: the form `if (reset) constants else rest`, also with a clear beside the reset.
ghost use Rattle.std.specs.Prelude.{◌≡◌, ℕ, ◌+◌, ◌-◌, ◌^◌, ◌/◌, ◌<◌, ◌≤◌, ◌==◌, ◌++◌, ◌∷◌, [], true, false, not, List, length, map, None, option_map, IfOk};
ghost use Rattle.std.specs.Option.{option_map_or};
ghost use Rattle.cdc_base.specs.declared.signal.ResetPin.{ResetPin};
ghost use Rattle.verilog_reading.specs.ExprTree.{tree_of, trees_of, target_tree_of, target_trees_of};
ghost use Rattle.verilog_reading.specs.StmtTree.{stmt_tree_of, stmt_trees_of, set as set_tree};
ghost use Rattle.flat_meaning.specs.Flat.{target_size, target_sizes};
ghost use Rattle.flat_form.specs.View.{target_of, targets_of};
ghost use Rattle.flat_unfolding.specs.Names as n;
ghost use Rattle.flat_unfolding.specs.Names.{width_at};
ghost use Rattle.flat_unfolding.specs.Expressions.{Term};
ghost use Rattle.flat_unfolding.specs.Targets.{Aim};
ghost use Rattle.flat_unfolding.specs.Mentions.{names_in, all_names_in};
ghost use Rattle.flat_unfolding.specs.Resets.{peeled as peeled_of, signals_among, is_reset as is_reset_of, are_resets as are_resets_of, is_test as is_test_of, at_level, reset_signals as reset_signals_of, is_one_bit as is_one_bit_of, is_or as is_or_of, both_signals as both_signals_of, tested_signals as tested_signals_of, resets_in as resets_in_of, has_variable_index as has_variable_index_of, has_variable_index_in, row_given as row_given_of, rows_given as rows_given_of, branch_given};
ghost use Rattle.flat_unfolding.specs.Design as u;
ghost use Rattle.flat_unfolding.specs.Formed.{IsFormed, IsTargetFormed, AreTargetsFormed, IsStmtFormed, AreRowsFormed};
ghost use Rattle.flat_names.specs.Looks.{Shows, IsFit};
ghost use Rattle.flat_names.specs.Pieces.{IsRead};
ghost use Rattle.flat_names.specs.Designs.{ShowsDesign};
ghost use Rattle.flat_targets.specs.Aims.{IsAim};
ghost use Rattle.flat_process.specs.Resets.{ArePins, signals_of, joined, bits_given, IsPlain, ArePlain, IsPlainAim, given_by, IsGiven, AreGiven, AreGivenIf, AddsGiven, Gives, GivesAll, with_given};

use cdc_base::{Name, NoMemory};
use flat_form::bits::{bits, low_bits, shifted_left, shifted_right};
use flat_form::flat::FTarget;
use flat_form::memory::push;
use flat_form::value::{assigned_value, own_value};
use flat_names::design::{Design, Entry};
use flat_names::expr::resolve;
use flat_names::fault::{Faults, Order};
use flat_names::resolved::Resolved;
use flat_names::scope::{Look, Meaning};
use flat_targets::target::{Assigned, Fixed, fixed_target};
use verilog_ast::{BinaryOp, Expr, Stmt, Target};

/// A value that a reset gives to bits of a register.
#[derive(Clone, Copy, Debug, Drop)]
pub struct Given {
    pub sig: u32,
    pub mask: u64,
    pub value: u64,
}

/// A statement without the blocks of one statement around it.
#[cycle(peeled)]
pub fn peeled(stmt: &Stmt) -> &Stmt
    ensures { stmt_tree_of result.now ≡ peeled_of (stmt_tree_of stmt.now) }
{
    match stmt {
        Stmt::Block(stmts) => match stmts.as_slice() {
            [one] => peeled(one),
            _ => stmt,
        },
        _ => stmt,
    }
}

/// The signals that stand in a condition, and whether any other name but a parameter's does.
#[derive(Drop)]
struct Signals {
    numbers: Vec<u32>,
    has_others: bool,
}

impl Signals {
    fn add(&mut self, look: &Look, name: &Name) -> Result<(), NoMemory>
        ensures { (l : n.Look) → Shows look.now l → IfOk result (λ _. signals_of self.new ≡ joined (signals_of self.old) (signals_among l (name.now ∷ []))) }
    {
        match look.meaning(name) {
            Some(Meaning::Signal(sig)) => push(&mut self.numbers, sig),
            Some(Meaning::Param(_)) => Ok(()),
            _ => {
                self.has_others = true;
                Ok(())
            }
        }
    }

    /// Whether there is no other name, and the signals resolve to resets.
    fn are_resets(&self, look: &Look) -> bool
        ensures { (l : n.Look) → Shows look.now l → result ≡ option_map_or (are_resets_of l) (signals_of self.now) false }
    {
        !self.has_others && are_resets(look, self.numbers.as_slice())
    }
}

#[cycle(add_names)]
fn add_names(look: &Look, expr: &Expr, signals: &mut Signals) -> Result<(), NoMemory>
    ensures { (l : n.Look) → Shows look.now l → IfOk result (λ _. signals_of signals.new ≡ joined (signals_of signals.old) (signals_among l (names_in (tree_of expr.now)))) }
{
    match expr {
        Expr::Number { .. } => Ok(()),
        Expr::Ident(name) => signals.add(look, name),
        Expr::At { name, index } => {
            signals.add(look, name)?;
            add_names(look, index, signals)
        }
        Expr::Part {
            name,
            left,
            right,
            ..
        } => {
            signals.add(look, name)?;
            add_names(look, left, signals)?;
            add_names(look, right, signals)
        }
        Expr::Unary { a, .. } => add_names(look, a, signals),
        Expr::Binary { a, b, .. } => {
            add_names(look, a, signals)?;
            add_names(look, b, signals)
        }
        Expr::Choose { cond, yes, other } => {
            add_names(look, cond, signals)?;
            add_names(look, yes, signals)?;
            add_names(look, other, signals)
        }
        Expr::Join(parts) => add_names_of(look, parts.as_slice(), signals),
        Expr::Repeat { count, parts } => {
            add_names(look, count, signals)?;
            add_names_of(look, parts.as_slice(), signals)
        }
        Expr::Paren(inner) => add_names(look, inner, signals),
    }
}

#[cycle(add_names)]
fn add_names_of(look: &Look, exprs: &[Expr], signals: &mut Signals) -> Result<(), NoMemory>
    ensures { (l : n.Look) → Shows look.now l → IfOk result (λ _. signals_of signals.new ≡ joined (signals_of signals.old) (signals_among l (all_names_in (trees_of (map tree_of exprs.now))))) }
{
    for expr in exprs {
        add_names(look, expr, signals)?;
    }
    Ok(())
}

/// Whether a signal resolves to a reset.
pub fn is_reset(look: &Look, sig: u32) -> bool
    ensures { (l : n.Look) → Shows look.now l → result ≡ is_reset_of l sig }
{
    look.reset(sig).is_some()
}

/// Whether these are one signal or more, each of which resolves to a reset.
fn are_resets(look: &Look, signals: &[u32]) -> bool
    ensures { (l : n.Look) → Shows look.now l → result ≡ are_resets_of l signals.now }
{
    for sig in signals {
        if !is_reset(look, *sig) {
            return false;
        }
    }
    !signals.is_empty()
}

/// The signals of a condition that tests resets alone: it is false at their inactive levels and true at their active
/// ones. `None` where the condition is another one.
pub fn reset_signals(look: &Look, cond: &Expr) -> Result<Option<Vec<u32>>, NoMemory>
    ensures { (l : n.Look) → Shows look.now l → IsFit l → IsFormed (tree_of cond.now) → IfOk result (λ o. option_map (λ v. v.items) o ≡ reset_signals_of l (tree_of cond.now)) }
{
    let mut signals = Signals {
        numbers: Vec::new(look.alloc),
        has_others: false,
    };
    add_names(look, cond, &mut signals)?;
    if signals.are_resets(look) && is_test(look, cond)? {
        Ok(Some(signals.numbers))
    } else {
        Ok(None)
    }
}

/// The signals of an expression that names resets alone, one at least. `None` of any other.
pub fn resets_in(look: &Look, expr: &Expr) -> Result<Option<Vec<u32>>, NoMemory>
    ensures { (l : n.Look) → Shows look.now l → IfOk result (λ o. option_map (λ v. v.items) o ≡ resets_in_of l (tree_of expr.now)) }
{
    let mut signals = Signals {
        numbers: Vec::new(look.alloc),
        has_others: false,
    };
    add_names(look, expr, &mut signals)?;
    if signals.are_resets(look) {
        Ok(Some(signals.numbers))
    } else {
        Ok(None)
    }
}

/// The signals of the greatest conditions over resets alone of which a condition is made by `||`, or by `|` of bits.
/// `None` where there is none.
#[cycle(tested_signals)]
pub fn tested_signals(look: &Look, cond: &Expr) -> Result<Option<Vec<u32>>, NoMemory>
    ensures { (l : n.Look) → Shows look.now l → IsFit l → IsFormed (tree_of cond.now) → IfOk result (λ o. option_map (λ v. v.items) o ≡ tested_signals_of l (tree_of cond.now)) }
{
    match cond {
        Expr::Paren(inner) => tested_signals(look, inner),
        Expr::Binary { op, a, b } => {
            if let Some(signals) = reset_signals(look, cond)? {
                return Ok(Some(signals));
            }
            if !is_or(look, *op, a, b)? {
                return Ok(None);
            }
            let left = tested_signals(look, a)?;
            let right = tested_signals(look, b)?;
            both_signals(left, right)
        }
        _ => reset_signals(look, cond),
    }
}

/// The signals of both operands, or of the one that has some.
fn both_signals(
    left: Option<Vec<u32>>,
    right: Option<Vec<u32>>,
) -> Result<Option<Vec<u32>>, NoMemory>
    ensures { (l : n.Look) → IfOk result (λ o. option_map (λ v. v.items) o ≡ both_signals_of l (option_map (λ v. v.items) left) (option_map (λ v. v.items) right)) }
{
    let Some(mut signals) = left else {
        return Ok(right);
    };
    if let Some(more) = right {
        push_all(&mut signals, more.as_slice())?;
    }
    Ok(Some(signals))
}

fn push_all(signals: &mut Vec<u32>, more: &[u32]) -> Result<(), NoMemory>
    ensures { IfOk result (λ _. signals.new.items ≡ signals.old.items ++ more.now) }
{
    match signals.extend_from_slice(more) {
        Ok(()) => Ok(()),
        Err(_) => Err(NoMemory),
    }
}

/// Whether an operator is `||`, or `|` of two bits.
fn is_or(look: &Look, op: BinaryOp, a: &Expr, b: &Expr) -> Result<bool, NoMemory>
    ensures { (l : n.Look) → Shows look.now l → IsFit l → IsFormed (tree_of a.now) → IsFormed (tree_of b.now) → IfOk result (λ r. r ≡ is_or_of l op (tree_of a.now) (tree_of b.now)) }
{
    match op {
        BinaryOp::LogicOr => Ok(true),
        BinaryOp::Or => Ok(is_one_bit(look, a)? && is_one_bit(look, b)?),
        _ => Ok(false),
    }
}

/// Whether an expression breaks no rule and has one bit.
fn is_one_bit(look: &Look, expr: &Expr) -> Result<bool, NoMemory>
    ensures { (l : n.Look) → Shows look.now l → IsFit l → IsFormed (tree_of expr.now) → IfOk result (λ r. r ≡ is_one_bit_of l (tree_of expr.now)) }
{
    let mut unheard = Faults::new(look.alloc, Order::Other);
    let expr = resolve(look, expr, &mut unheard)?;
    Ok(expr.is_sound && expr.width() == 1)
}

/// Whether a condition over resets is false while they are inactive, and true while they are active.
fn is_test(look: &Look, cond: &Expr) -> Result<bool, NoMemory>
    ensures { (l : n.Look) → Shows look.now l → IsFit l → IsFormed (tree_of cond.now) → IfOk result (λ b. b ≡ is_test_of l (at_level l false (tree_of cond.now)) (at_level l true (tree_of cond.now))) }
{
    let inactive = is_true_at(look, cond, false)?;
    let active = is_true_at(look, cond, true)?;
    Ok(inactive == Some(false) && active == Some(true))
}

/// Whether a condition over resets is true while they are at one of their levels.
fn is_true_at(look: &Look, cond: &Expr, active: bool) -> Result<Option<bool>, NoMemory>
    ensures { (l : n.Look) → Shows look.now l → IsFit l → IsFormed (tree_of cond.now) → IfOk result (λ o. o ≡ option_map (λ n. not (n == 0)) (at_level l active (tree_of cond.now))) }
{
    let level = Look {
        alloc: look.alloc,
        names: look.names,
        signals: look.signals,
        entries: look.entries,
        active,
    };
    let mut faults = Faults::new(look.alloc, Order::Other);
    let cond = resolve(&level, cond, &mut faults)?;
    if faults.rule().is_some() {
        return Ok(None);
    }
    Ok(Some(own_value(&cond.expr) != 0))
}

/// The values that a reset's branch gives, in textual order. `None` where the branch is neither a nonblocking assignment
/// of a constant nor a block of these.
pub fn reset_branch(look: &Look, branch: &Stmt) -> Result<Option<Vec<Given>>, NoMemory>
    ensures { (l : n.Look) → Shows look.now l → IsFit l → IsStmtFormed (stmt_tree_of branch.now) → IfOk result (λ o. AreGivenIf (length l.entries) (branch_given l (stmt_tree_of branch.now)) (option_map (λ v. v.items) o)) }
{
    match branch {
        Stmt::Block(stmts) => block_given(look, stmts.as_slice()),
        stmt => row_given(look, stmt),
    }
}

fn block_given(look: &Look, stmts: &[Stmt]) -> Result<Option<Vec<Given>>, NoMemory>
    ensures { (l : n.Look) → Shows look.now l → IsFit l → AreRowsFormed (stmt_trees_of (map stmt_tree_of stmts.now)) → IfOk result (λ o. AreGivenIf (length l.entries) (rows_given_of l (stmt_trees_of (map stmt_tree_of stmts.now))) (option_map (λ v. v.items) o)) }
{
    let mut given = Vec::new(look.alloc);
    for stmt in stmts {
        if !add_given(look, stmt, &mut given)? {
            return Ok(None);
        }
    }
    Ok(Some(given))
}

fn row_given(look: &Look, stmt: &Stmt) -> Result<Option<Vec<Given>>, NoMemory>
    ensures { (l : n.Look) → Shows look.now l → IsFit l → IsStmtFormed (stmt_tree_of stmt.now) → IfOk result (λ o. AreGivenIf (length l.entries) (row_given_of l (stmt_tree_of stmt.now)) (option_map (λ v. v.items) o)) }
{
    let mut given = Vec::new(look.alloc);
    if add_given(look, stmt, &mut given)? {
        Ok(Some(given))
    } else {
        Ok(None)
    }
}

/// Adds what an assignment of a reset's branch gives. Answers false where it hasn't the form.
fn add_given(look: &Look, stmt: &Stmt, given: &mut Vec<Given>) -> Result<bool, NoMemory>
    ensures { (l : n.Look) (us : List u.Given) → Shows look.now l → IsFit l → IsStmtFormed (stmt_tree_of stmt.now) → AreGiven (length l.entries) us given.old.items
        → IfOk result (λ b. AddsGiven (length l.entries) us (row_given_of l (stmt_tree_of stmt.now)) b given.new.items) }
{
    let Stmt::Set {
        blocking: false,
        target,
        value,
        ..
    } = stmt
    else {
        return Ok(false);
    };
    if has_variable_index(look, target)? {
        return Ok(false);
    }
    add_constant(look, target, value, given)
}

/// Adds what an assignment without a variable index gives. Answers false where its value is no constant.
fn add_constant(
    look: &Look,
    target: &Target,
    value: &Expr,
    given: &mut Vec<Given>,
) -> Result<bool, NoMemory>
    ensures { (l : n.Look) (us : List u.Given) → Shows look.now l → IsFit l → IsTargetFormed (target_tree_of target.now) → IsFormed (tree_of value.now)
        → has_variable_index_of l (target_tree_of target.now) ≡ false → AreGiven (length l.entries) us given.old.items
        → IfOk result (λ b. AddsGiven (length l.entries) us (row_given_of l (set_tree false None (target_tree_of target.now) (tree_of value.now))) b given.new.items) }
{
    let mut unheard = Faults::new(look.alloc, Order::Other);
    let fixed = fixed_target(look, target, Assigned::Registers, &mut unheard)?;
    let value = resolve(look, value, &mut unheard)?;
    if value.is_constant {
        give_constant(look, &fixed, &value, given)?;
    }
    Ok(value.is_constant)
}

/// Gives the target a constant, where neither of them breaks a rule.
fn give_constant(
    look: &Look,
    fixed: &Fixed,
    value: &Resolved,
    given: &mut Vec<Given>,
) -> Result<(), NoMemory>
    ensures { (l : n.Look) (us : List u.Given) (a : Aim) (v : Term) → Shows look.now l → IsAim a fixed.now → IsRead v value.now → IsPlainAim l a → AreGiven (length l.entries) us given.old.items
        → IfOk result (λ _. AreGiven (length l.entries) (us ++ given_by l v a) given.new.items) }
{
    if fixed.is_sound && value.is_sound {
        let width = u8::try_from(fixed.width).unwrap_or(64);
        let word = assigned_value(&value.expr, width);
        give(look, &fixed.target, word, fixed.width, given)?;
    }
    Ok(())
}

/// Whether an index that is no constant stands in the target.
#[cycle(has_variable_index)]
fn has_variable_index(look: &Look, target: &Target) -> Result<bool, NoMemory>
    ensures { (l : n.Look) → Shows look.now l → IsFit l → IsTargetFormed (target_tree_of target.now) → IfOk result (λ b. b ≡ has_variable_index_of l (target_tree_of target.now)) }
{
    match target {
        Target::At { index, .. } => {
            let mut unheard = Faults::new(look.alloc, Order::Other);
            let index = resolve(look, index, &mut unheard)?;
            Ok(!index.is_constant)
        }
        Target::Join(parts) => have_variable_index(look, parts.as_slice()),
        _ => Ok(false),
    }
}

#[cycle(has_variable_index)]
fn have_variable_index(look: &Look, targets: &[Target]) -> Result<bool, NoMemory>
    ensures { (l : n.Look) → Shows look.now l → IsFit l → AreTargetsFormed (target_trees_of (map target_tree_of targets.now)) → IfOk result (λ b. b ≡ has_variable_index_in l (target_trees_of (map target_tree_of targets.now))) }
{
    for target in targets {
        if has_variable_index(look, target)? {
            return Ok(true);
        }
    }
    Ok(false)
}

/// Gives the target its bits of a word, whose lowest `top` bits are those of the target and of all on its right.
/// Answers the number of bits that are left on the right.
#[cycle(give)]
fn give(
    look: &Look,
    target: &FTarget,
    word: u64,
    top: u64,
    given: &mut Vec<Given>,
) -> Result<u64, NoMemory>
    ensures { (l : n.Look) (us : List u.Given) → Shows look.now l → IsPlain (length l.entries) (target_of target.now) → target_size (width_at l.entries) (target_of target.now) ≤ top → top ≤ 64 → AreGiven (length l.entries) us given.old.items
        → IfOk result (λ rest. Gives l us (target_of target.now) word top rest given.new.items) }
{
    match target {
        FTarget::Whole { sig } => give_bits(*sig, 0, look.width(*sig), word, top, given),
        FTarget::Part { sig, at, width } => give_bits(*sig, *at, *width, word, top, given),
        FTarget::At { .. } => Ok(top),
        FTarget::Join(parts) => give_all(look, parts.as_slice(), word, top, given),
    }
}

#[cycle(give)]
fn give_all(
    look: &Look,
    targets: &[FTarget],
    word: u64,
    top: u64,
    given: &mut Vec<Given>,
) -> Result<u64, NoMemory>
    ensures { (l : n.Look) (us : List u.Given) → Shows look.now l → ArePlain (length l.entries) (targets_of (map target_of targets.now)) → target_sizes (width_at l.entries) (targets_of (map target_of targets.now)) ≤ top → top ≤ 64 → AreGiven (length l.entries) us given.old.items
        → IfOk result (λ rest. GivesAll l us (targets_of (map target_of targets.now)) word top rest given.new.items) }
{
    let mut left = top;
    for target in targets {
        left = give(look, target, word, left, given)?;
    }
    Ok(left)
}

fn give_bits(
    sig: u32,
    at: u8,
    width: u8,
    word: u64,
    top: u64,
    given: &mut Vec<Given>,
) -> Result<u64, NoMemory>
    ensures { (n : ℕ) (us : List u.Given) → sig < n → width ≤ top → top ≤ 64 → AreGiven n us given.old.items
        → IfOk result (λ rest. (rest + width ≡ top) × AreGiven n (us ++ bits_given sig at width (word / 2 ^ (top - width)) ∷ []) given.new.items) }
{
    let rest = top.saturating_sub(u64::from(width));
    let one = given_bits(sig, at, width, shifted_right(word, rest));
    push(given, one)?;
    Ok(rest)
}

/// The lowest `width` bits of a word, given to the bits of a signal from `at` on.
fn given_bits(sig: u32, at: u8, width: u8, word: u64) -> Given
    ensures { (n : ℕ) → sig < n → width ≤ 64 → IsGiven n (bits_given sig at width word) result }
{
    Given {
        sig,
        mask: bits(at, width),
        value: shifted_left(word & low_bits(width), u64::from(at)),
    }
}

/// Keeps the values that a reset gives. They win over those of declarations and of `initial`, and later ones over
/// earlier ones.
pub fn keep_given(design: &mut Design, given: &[Given])
    ensures { (pins : List ResetPin) (e : u.Design) (us : List u.Given) → ShowsDesign pins design.old e → AreGiven (length e.entries) us given.now → ShowsDesign pins design.new (record e { givens = e.givens ++ us }) }
{
    for one in given {
        keep_one(design, *one);
    }
}

fn keep_one(design: &mut Design, one: Given)
    ensures { (pins : List ResetPin) (e : u.Design) (v : u.Given) → ShowsDesign pins design.old e → IsGiven (length e.entries) v one → ShowsDesign pins design.new (record e { givens = e.givens ++ v ∷ [] }) }
{
    let place = usize::try_from(one.sig).unwrap_or(usize::MAX);
    write_given(&mut design.entries, place, one);
}

fn write_given(entries: &mut Vec<Entry>, place: usize, one: Given)
    ensures { entries.new.items ≡ with_given place one entries.old.items }
{
    if let Some(entry) = entries.get_mut(place) {
        entry.reset_known |= one.mask;
        entry.reset_start = (entry.reset_start & !one.mask) | one.value;
    }
}
