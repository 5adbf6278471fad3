//! Targets of assignments.
ghost use Rattle.std.specs.Prelude.{◌≡◌, ℕ, ◌+◌, ◌-◌, ◌<◌, ◌≤◌, ◌^◌, ◌&&◌, true, false, List, [], ◌∷◌, ◌++◌, not, min, length, map, nat_lt, Option, Some, None, is_some, slice_get, option_map, option_copied, IfOk};
ghost use Rattle.std.specs.Option.{option_map_or};
ghost use Rattle.verilog_reading.specs.ExprTree.{TargetTree, TargetTrees, trees_of, tree_of, target_tree_of};
ghost use Rattle.flat_meaning.specs.Flat.{Whole as a_whole, Part as a_part};
ghost use Rattle.flat_form.specs.View.{expr_of, target_of, targets_of};
ghost use Rattle.flat_form.specs.Sizes.{is_sized};
ghost use Rattle.flat_form.specs.declared.flat.FTarget.TheVariants as form;
ghost use Rattle.flat_unfolding.specs.Outcome.{breaks_if};
ghost use Rattle.flat_unfolding.specs.Names as definition;
ghost use Rattle.flat_unfolding.specs.Names.{meaning, width_at};
ghost use Rattle.flat_unfolding.specs.Expressions.{Term, one_bit, may_index as always_meets, read};
ghost use Rattle.flat_unfolding.specs.Targets as aims;
ghost use Rattle.flat_unfolding.specs.Targets.{of_wires, of_registers, takes, total, group_of, as_target, as_targets, first_pick, first_pick_in};
ghost use Rattle.flat_unfolding.specs.Formed.{IsFormed, AreFormed, IsTargetFormed, AreTargetsFormed, AreSomeParts};
ghost use Rattle.flat_names.specs.Noting.{all_noted};
ghost use Rattle.flat_names.specs.Looks.{Shows, IsFit, range_of, memory_of};
ghost use Rattle.flat_names.specs.Pieces.{IsRead};
ghost use Rattle.flat_targets.specs.Aims.{use_of, IsAim, IsGoal, broken_in, AreAims, AreAllAims, chosen, trees_in};

use crate::pieces::{note_expr_pieces, note_pieces};
use cdc_base::limits::MAX_WIDTH;
use cdc_base::{List, Name, NoMemory};
use flat_form::flat::{FExpr, FTarget};
use flat_form::memory::push;
use flat_form::value::own_value;
use flat_names::expr::{note_unknown, resolve, resolve_constant};
use flat_names::fault::{Faults, Rule};
use flat_names::resolved::Resolved;
use flat_names::scope::{Bounds, Look, Meaning, Memory};
use flat_names::select::{may_index, may_index_words, offset_in, part_numbers, part_within};
use std::alloc::Global;
use verilog_ast::{Expr, PartKind, Target};

/// What may be assigned: wires by `assign`, gates and the outputs of instances, registers by processes and `initial`.
#[derive(Clone, Copy, PartialEq, Eq, Debug, Drop)]
pub enum Assigned {
    Wires,
    Registers,
}

/// A target whose names are resolved. Where it isn't sound its width means nothing.
#[derive(Drop)]
pub struct Fixed {
    pub target: FTarget,
    pub width: u64,
    pub is_sound: bool,
}

/// A target, or a word of a memory that a variable index chooses.
#[derive(Drop)]
pub enum Aim {
    Fixed(Fixed),
    Word { memory: Memory, index: FExpr },
}

/// What broke a rule assigns nothing.
pub fn nowhere(alloc: Global) -> Fixed
    ensures { result ≡ record { target = form.Join []; width = 0; is_sound = false } }
{
    Fixed {
        target: FTarget::Join(List::new(alloc)),
        width: 0,
        is_sound: false,
    }
}

fn whole(look: &Look, sig: u32) -> Fixed
    ensures { (l : definition.Look) → Shows look.now l → sig < length l.entries → IsAim (aims.aim_at (a_whole sig) (width_at l.entries sig)) result }
{
    Fixed {
        target: FTarget::Whole { sig },
        width: u64::from(look.width(sig)),
        is_sound: true,
    }
}

fn part(sig: u32, at: u8, width: u8) -> Fixed
    ensures { IsAim (aims.aim_at (a_part sig at width) width) result }
{
    Fixed {
        target: FTarget::Part { sig, at, width },
        width: u64::from(width),
        is_sound: true,
    }
}

/// A target of a process, which alone may be a word of a memory with a variable index.
pub fn process_target(look: &Look, target: &Target, faults: &mut Faults) -> Result<Aim, NoMemory>
    ensures { (l : definition.Look) → Shows look.now l → IsFit l → IsTargetFormed (target_tree_of target.now)
        → IfOk result (λ r. IsGoal (aims.goal l (target_tree_of target.now)) r × (faults.new ≡ all_noted faults.old (broken_in (aims.goal l (target_tree_of target.now))))) }
{
    match target {
        Target::At { name, index } => index_goal(look, name, index, Assigned::Registers, faults),
        Target::Whole(_) | Target::Part { .. } | Target::Join(_) => {
            let fixed = fixed_target(look, target, Assigned::Registers, faults)?;
            note_pieces(look, target, &fixed.target, faults)?;
            Ok(Aim::Fixed(fixed))
        }
    }
}

/// A target of `assign`, where a variable index isn't looked at.
pub fn wire_target(look: &Look, target: &Target, faults: &mut Faults) -> Result<Fixed, NoMemory>
    ensures { (l : definition.Look) → Shows look.now l → IsFit l → IsTargetFormed (target_tree_of target.now)
        → IfOk result (λ r. IsAim (aims.with_piece_rules l of_wires (target_tree_of target.now)) r × (faults.new ≡ all_noted faults.old (aims.with_piece_rules l of_wires (target_tree_of target.now)).broken)) }
{
    let fixed = fixed_target(look, target, Assigned::Wires, faults)?;
    note_pieces(look, target, &fixed.target, faults)?;
    Ok(fixed)
}

/// A target of a gate or of an instance's output, where a variable index isn't looked at.
pub fn wire_expr_target(look: &Look, expr: &Expr, faults: &mut Faults) -> Result<Fixed, NoMemory>
    ensures { (l : definition.Look) (t : TargetTree) → Shows look.now l → IsFit l → IsFormed (tree_of expr.now) → as_target (tree_of expr.now) ≡ Some t
        → IfOk result (λ r. IsAim (aims.with_piece_rules l of_wires t) r × (faults.new ≡ all_noted faults.old (aims.with_piece_rules l of_wires t).broken)) }
{
    let fixed = expr_target(look, expr, faults)?;
    note_expr_pieces(look, expr, &fixed.target, faults)?;
    Ok(fixed)
}

/// A target whose signals don't hang on an index's value.
#[cycle(target)]
pub fn fixed_target(
    look: &Look,
    target: &Target,
    assigned: Assigned,
    faults: &mut Faults,
) -> Result<Fixed, NoMemory>
    ensures { (l : definition.Look) → Shows look.now l → IsFit l → IsTargetFormed (target_tree_of target.now)
        → IfOk result (λ r. IsAim (aims.aim l (use_of assigned) (target_tree_of target.now)) r × (faults.new ≡ all_noted faults.old (aims.aim l (use_of assigned) (target_tree_of target.now)).broken)) }
{
    match target {
        Target::Whole(name) => whole_target(look, name, assigned, faults),
        Target::At { name, index } => index_target(look, name, index, assigned, faults),
        Target::Part {
            name,
            kind,
            left,
            right,
        } => part_target(look, name, *kind, left, right, assigned, faults),
        Target::Join(parts) => {
            let parts = fixed_targets(look, parts.as_slice(), assigned, faults)?;
            joined(parts, faults)
        }
    }
}

#[cycle(target)]
fn fixed_targets(
    look: &Look,
    targets: &[Target],
    assigned: Assigned,
    faults: &mut Faults,
) -> Result<FixedParts, NoMemory>
    ensures { (l : definition.Look) → Shows look.now l → IsFit l → AreTargetsFormed (trees_in targets.now)
        → IfOk result (λ r. AreAllAims l (use_of assigned) (trees_in targets.now) faults.old faults.new r) }
{
    let mut parts = FixedParts::new(look.alloc);
    for target in targets {
        let part = fixed_target(look, target, assigned, faults)?;
        parts.add(part)?;
    }
    Ok(parts)
}

/// Whether an expression reads as a target too.
#[cycle(is_target)]
pub fn is_target(expr: &Expr) -> bool
    ensures { result ≡ is_some (as_target (tree_of expr.now)) }
{
    match expr {
        Expr::Ident(_) | Expr::At { .. } | Expr::Part { .. } => true,
        Expr::Join(parts) => are_targets(parts.as_slice()),
        _ => false,
    }
}

#[cycle(is_target)]
fn are_targets(exprs: &[Expr]) -> bool
    ensures { result ≡ is_some (as_targets (trees_of (map tree_of exprs.now))) }
{
    for expr in exprs {
        if !is_target(expr) {
            return false;
        }
    }
    true
}

/// An expression of a connection or a terminal, taken as the target that it reads as.
#[cycle(expr_target)]
pub fn expr_target(look: &Look, expr: &Expr, faults: &mut Faults) -> Result<Fixed, NoMemory>
    ensures { (l : definition.Look) (t : TargetTree) → Shows look.now l → IsFit l → IsFormed (tree_of expr.now) → as_target (tree_of expr.now) ≡ Some t
        → IfOk result (λ r. IsAim (aims.aim l of_wires t) r × (faults.new ≡ all_noted faults.old (aims.aim l of_wires t).broken)) }
{
    match expr {
        Expr::Ident(name) => whole_target(look, name, Assigned::Wires, faults),
        Expr::At { name, index } => index_target(look, name, index, Assigned::Wires, faults),
        Expr::Part {
            name,
            kind,
            left,
            right,
        } => part_target(look, name, *kind, left, right, Assigned::Wires, faults),
        Expr::Join(parts) => {
            let parts = expr_targets(look, parts.as_slice(), faults)?;
            joined(parts, faults)
        }
        _ => Ok(nowhere(look.alloc)),
    }
}

#[cycle(expr_target)]
fn expr_targets(look: &Look, exprs: &[Expr], faults: &mut Faults) -> Result<FixedParts, NoMemory>
    ensures { (l : definition.Look) (ts : TargetTrees) → Shows look.now l → IsFit l → AreFormed (trees_of (map tree_of exprs.now)) → as_targets (trees_of (map tree_of exprs.now)) ≡ Some ts
        → IfOk result (λ r. AreAllAims l of_wires ts faults.old faults.new r) }
{
    let mut parts = FixedParts::new(look.alloc);
    for expr in exprs {
        let part = expr_target(look, expr, faults)?;
        parts.add(part)?;
    }
    Ok(parts)
}

#[derive(Drop)]
struct FixedParts {
    items: Vec<FTarget>,
    width: u64,
    is_sound: bool,
}

impl FixedParts {
    fn new(alloc: Global) -> FixedParts
        ensures { AreAims [] result }
    {
        FixedParts {
            items: Vec::new(alloc),
            width: 0,
            is_sound: true,
        }
    }

    fn add(&mut self, part: Fixed) -> Result<(), NoMemory>
        ensures { (bs : List aims.Aim) (a : aims.Aim) → AreAims bs self.old → IsAim a part → IfOk result (λ _. AreAims (bs ++ a ∷ []) self.new) }
    {
        self.width = self.width.saturating_add(part.width);
        self.is_sound = self.is_sound && part.is_sound;
        push(&mut self.items, part.target)
    }
}

fn joined(parts: FixedParts, faults: &mut Faults) -> Result<Fixed, NoMemory>
    ensures { (bs : List aims.Aim) → AreAims bs parts
        → IfOk result (λ r. IsAim (group_of bs (total bs)) r × (faults.new ≡ all_noted faults.old (breaks_if (option_map_or (nat_lt 64) (total bs) false) 308 []))) }
{
    let is_wide = is_wide(&parts);
    if is_wide {
        faults.note(Rule::Width, "")?;
    }
    Ok(Fixed {
        target: FTarget::Join(List::from_vec(parts.items)),
        width: parts.width,
        is_sound: parts.is_sound && !is_wide,
    })
}

/// Whether sound parts have more bits than a word.
fn is_wide(parts: &FixedParts) -> bool
    ensures { result ≡ (parts.now.is_sound && nat_lt 64 parts.now.width) }
{
    parts.is_sound && parts.width > u64::from(MAX_WIDTH)
}

/// Notes a name that is unknown, or that may not be assigned so.
fn note_kind(
    look: &Look,
    name: &Name,
    assigned: Assigned,
    faults: &mut Faults,
) -> Result<(), NoMemory>
    ensures { (l : definition.Look) → Shows look.now l → IfOk result (λ _. faults.new ≡ all_noted faults.old (aims.name_rules l (use_of assigned) name.now)) }
{
    note_unknown(look, name, faults)?;
    if may_assign(look, name, assigned) {
        return Ok(());
    }
    faults.note(Rule::WrongAssignment, name.as_str())
}

/// Whether what a name stands for may be assigned so. What is unknown is noted as such alone.
fn may_assign(look: &Look, name: &Name, assigned: Assigned) -> bool
    ensures { (l : definition.Look) → Shows look.now l → result ≡ aims.is_assignable (use_of assigned) l.entries (meaning l name.now) }
{
    match look.meaning(name) {
        Some(Meaning::Signal(sig)) => is_assignable(look, sig, assigned),
        Some(Meaning::Memory(_)) => assigned == Assigned::Registers,
        Some(Meaning::Param(_)) => false,
        Some(Meaning::NoValue) | None => true,
    }
}

fn is_assignable(look: &Look, sig: u32, assigned: Assigned) -> bool
    ensures { (l : definition.Look) → Shows look.now l → result ≡ option_map_or (takes (use_of assigned)) (slice_get l.entries sig) false }
{
    match look.entry(sig) {
        Some(entry) => match assigned {
            Assigned::Wires => entry.is_wire(),
            Assigned::Registers => entry.is_reg,
        },
        None => false,
    }
}

pub fn whole_target(
    look: &Look,
    name: &Name,
    assigned: Assigned,
    faults: &mut Faults,
) -> Result<Fixed, NoMemory>
    ensures { (l : definition.Look) → Shows look.now l → IsFit l → IfOk result (λ r. IsAim (aims.whole_aim l (use_of assigned) name.now) r × (faults.new ≡ all_noted faults.old (aims.whole_aim l (use_of assigned) name.now).broken)) }
{
    note_kind(look, name, assigned, faults)?;
    match look.meaning(name) {
        Some(Meaning::Signal(sig)) => Ok(whole(look, sig)),
        Some(Meaning::Memory(_)) => {
            faults.note(Rule::Memory, name.as_str())?;
            Ok(nowhere(look.alloc))
        }
        Some(Meaning::Param(_)) | Some(Meaning::NoValue) | None => Ok(nowhere(look.alloc)),
    }
}

fn part_target(
    look: &Look,
    name: &Name,
    kind: PartKind,
    left: &Expr,
    right: &Expr,
    assigned: Assigned,
    faults: &mut Faults,
) -> Result<Fixed, NoMemory>
    ensures { (l : definition.Look) → Shows look.now l → IsFit l → IsFormed (tree_of left.now) → IsFormed (tree_of right.now)
        → IfOk result (λ r. IsAim (aims.part_aim l (use_of assigned) name.now kind (read l (tree_of left.now)) (read l (tree_of right.now))) r
        × (faults.new ≡ all_noted faults.old (aims.part_aim l (use_of assigned) name.now kind (read l (tree_of left.now)) (read l (tree_of right.now))).broken)) }
{
    note_kind(look, name, assigned, faults)?;
    let left = resolve_constant(look, left, faults)?;
    let right = resolve_constant(look, right, faults)?;
    let numbers = part_numbers(kind, &left, &right, faults)?;
    part_aim(look, name, kind, numbers, faults)
}

/// What a part with these two numbers is of what a name stands for.
fn part_aim(
    look: &Look,
    name: &Name,
    kind: PartKind,
    numbers: Option<Bounds>,
    faults: &mut Faults,
) -> Result<Fixed, NoMemory>
    ensures { (l : definition.Look) (u : aims.Use) → Shows look.now l → IsFit l
        → IfOk result (λ r. IsAim (aims.meant_range l u name.now kind (option_map range_of numbers) (meaning l name.now)) r
        × (faults.new ≡ all_noted faults.old (aims.meant_range l u name.now kind (option_map range_of numbers) (meaning l name.now)).broken)) }
{
    match look.meaning(name) {
        Some(Meaning::Signal(sig)) => match part_within(
            look.bounds(sig),
            kind,
            numbers,
            name,
            faults,
        )? {
            Some((at, width)) => Ok(part(sig, at, width)),
            None => Ok(nowhere(look.alloc)),
        },
        Some(Meaning::Memory(_)) => {
            faults.note(Rule::Memory, name.as_str())?;
            Ok(nowhere(look.alloc))
        }
        Some(Meaning::Param(_)) => Ok(nowhere(look.alloc)),
        Some(Meaning::NoValue) => Ok(nowhere(look.alloc)),
        None => Ok(nowhere(look.alloc)),
    }
}

/// An index of a name where no word of a memory may be chosen by a variable.
fn index_target(
    look: &Look,
    name: &Name,
    index: &Expr,
    assigned: Assigned,
    faults: &mut Faults,
) -> Result<Fixed, NoMemory>
    ensures { (l : definition.Look) → Shows look.now l → IsFit l → IsFormed (tree_of index.now)
        → IfOk result (λ r. IsAim (aims.as_fixed l (use_of assigned) name.now (aims.index_goal l (use_of assigned) name.now (read l (tree_of index.now)))) r
        × (faults.new ≡ all_noted faults.old (aims.as_fixed l (use_of assigned) name.now (aims.index_goal l (use_of assigned) name.now (read l (tree_of index.now)))).broken)) }
{
    match index_goal(look, name, index, assigned, faults)? {
        Aim::Fixed(fixed) => Ok(fixed),
        Aim::Word { .. } => {
            faults.note(Rule::Memory, name.as_str())?;
            Ok(nowhere(look.alloc))
        }
    }
}

fn index_goal(
    look: &Look,
    name: &Name,
    index: &Expr,
    assigned: Assigned,
    faults: &mut Faults,
) -> Result<Aim, NoMemory>
    ensures { (l : definition.Look) → Shows look.now l → IsFit l → IsFormed (tree_of index.now)
        → IfOk result (λ r. IsGoal (aims.index_goal l (use_of assigned) name.now (read l (tree_of index.now))) r
        × (faults.new ≡ all_noted faults.old (broken_in (aims.index_goal l (use_of assigned) name.now (read l (tree_of index.now)))))) }
{
    note_kind(look, name, assigned, faults)?;
    let index = resolve(look, index, faults)?;
    index_aim(look, name, index, faults)
}

/// What an index that is settled chooses of what a name stands for.
fn index_aim(
    look: &Look,
    name: &Name,
    index: Resolved,
    faults: &mut Faults,
) -> Result<Aim, NoMemory>
    ensures { (l : definition.Look) (t : Term) (u : aims.Use) → Shows look.now l → IsFit l → IsRead t index
        → IfOk result (λ r. IsGoal (chosen l u name.now t) r × (faults.new ≡ all_noted faults.old (broken_in (chosen l u name.now t)))) }
{
    if !index.is_sound {
        return Ok(Aim::Fixed(nowhere(look.alloc)));
    }
    match look.meaning(name) {
        Some(Meaning::Signal(sig)) => {
            let fixed = bit_target(look, sig, name, index, faults)?;
            Ok(Aim::Fixed(fixed))
        }
        Some(Meaning::Memory(memory)) => word_aim(look, memory, name, index, faults),
        Some(Meaning::Param(_)) | Some(Meaning::NoValue) | None => {
            Ok(Aim::Fixed(nowhere(look.alloc)))
        }
    }
}

fn bit_target(
    look: &Look,
    sig: u32,
    name: &Name,
    index: Resolved,
    faults: &mut Faults,
) -> Result<Fixed, NoMemory>
    ensures { (l : definition.Look) (t : Term) (u : aims.Use) → Shows look.now l → IsFit l → sig < length l.entries → IsRead t index → index.is_sound ≡ true
        → IfOk result (λ r. IsAim (aims.signal_aim l u name.now sig t) r × (faults.new ≡ all_noted faults.old (aims.signal_aim l u name.now sig t).broken)) }
{
    if index.is_constant {
        let at = offset_in(look.bounds(sig), &index.expr);
        return bit_at(look, sig, at, name, faults);
    }
    note_miss(look.bounds(sig), index.width(), name, faults)?;
    Ok(Fixed {
        target: FTarget::At {
            sig,
            index: index.expr,
        },
        width: 1,
        is_sound: true,
    })
}

/// A bit that a constant index chooses, where there is one.
fn bit_at(
    look: &Look,
    sig: u32,
    at: Option<u8>,
    name: &Name,
    faults: &mut Faults,
) -> Result<Fixed, NoMemory>
    ensures { (l : definition.Look) (u : aims.Use) → IfOk result (λ r. IsAim (aims.select_aim l u name.now sig (one_bit at)) r × (faults.new ≡ all_noted faults.old (aims.select_aim l u name.now sig (one_bit at)).broken)) }
{
    match at {
        Some(at) => Ok(part(sig, at, 1)),
        None => {
            faults.note(Rule::IndexOutOfRange, name.as_str())?;
            Ok(nowhere(look.alloc))
        }
    }
}

/// Notes a variable index that has values outside the range.
fn note_miss(
    bounds: Option<Bounds>,
    index_width: u8,
    name: &Name,
    faults: &mut Faults,
) -> Result<(), NoMemory>
    ensures { IfOk result (λ _. faults.new ≡ all_noted faults.old (breaks_if (not (always_meets (option_map range_of bounds) index_width)) 315 name.now)) }
{
    if may_index(bounds, index_width) {
        return Ok(());
    }
    faults.note(Rule::IndexMayMiss, name.as_str())
}

fn word_aim(
    look: &Look,
    memory: Memory,
    name: &Name,
    index: Resolved,
    faults: &mut Faults,
) -> Result<Aim, NoMemory>
    ensures { (l : definition.Look) (t : Term) (u : aims.Use) → Shows look.now l → memory.first + memory.words ≤ length l.entries → length l.entries ≤ 2 ^ 32
        → IsRead t index → index.is_sound ≡ true
        → IfOk result (λ r. IsGoal (aims.memory_goal l u name.now (memory_of memory) t) r × (faults.new ≡ all_noted faults.old (broken_in (aims.memory_goal l u name.now (memory_of memory) t)))) }
{
    if index.is_constant {
        let word = memory.word(own_value(&index.expr));
        let fixed = word_at(look, word, name, faults)?;
        return Ok(Aim::Fixed(fixed));
    }
    if !may_index_words(memory, index.width()) {
        faults.note(Rule::IndexMayMiss, name.as_str())?;
        return Ok(Aim::Fixed(nowhere(look.alloc)));
    }
    Ok(Aim::Word {
        memory,
        index: index.expr,
    })
}

/// A word that a constant index chooses, where there is one.
fn word_at(
    look: &Look,
    word: Option<u32>,
    name: &Name,
    faults: &mut Faults,
) -> Result<Fixed, NoMemory>
    ensures { (l : definition.Look) (u : aims.Use) → Shows look.now l → ((w : ℕ) → word ≡ Some w → w < length l.entries)
        → IfOk result (λ r. IsAim (aims.word_aim l u name.now word) r × (faults.new ≡ all_noted faults.old (aims.word_aim l u name.now word).broken)) }
{
    match word {
        Some(word) => Ok(whole(look, word)),
        None => {
            faults.note(Rule::IndexOutOfRange, name.as_str())?;
            Ok(nowhere(look.alloc))
        }
    }
}

/// The first name of a target.
#[cycle(first_name)]
pub fn first_name(target: &Target) -> Option<&Name>
    ensures { IsTargetFormed (target_tree_of target.now) → option_copied result ≡ Some (aims.first_name (target_tree_of target.now)) }
{
    match target {
        Target::Whole(name) | Target::At { name, .. } | Target::Part { name, .. } => Some(name),
        Target::Join(parts) => first_name_of(parts.as_slice()),
    }
}

#[cycle(first_name)]
fn first_name_of(targets: &[Target]) -> Option<&Name>
    ensures { AreSomeParts (trees_in targets.now) → AreTargetsFormed (trees_in targets.now) → option_copied result ≡ Some (aims.first_name_in (trees_in targets.now)) }
{
    for target in targets {
        if let Some(name) = first_name(target) {
            return Some(name);
        }
    }
    None
}

/// The first name of a target as a text, empty where it has none.
pub fn first_text(target: &Target) -> &str
    ensures { IsTargetFormed (target_tree_of target.now) → result.now ≡ aims.first_name (target_tree_of target.now) }
{
    match first_name(target) {
        Some(name) => name.as_str(),
        None => "",
    }
}

/// The signal of the first variable index in a target.
#[cycle(first_index)]
pub fn first_index(target: &FTarget) -> Option<u32>
    ensures { result ≡ first_pick (target_of target.now) }
{
    match target {
        FTarget::Whole { .. } | FTarget::Part { .. } => None,
        FTarget::At { sig, .. } => Some(*sig),
        FTarget::Join(parts) => first_index_of(parts.as_slice()),
    }
}

#[cycle(first_index)]
fn first_index_of(targets: &[FTarget]) -> Option<u32>
    ensures { result ≡ first_pick_in (targets_of (map target_of targets.now)) }
{
    for target in targets {
        if let Some(sig) = first_index(target) {
            return Some(sig);
        }
    }
    None
}
