//! Reads of an index or of a part of a name.
ghost use Rattle.std.specs.Prelude.{◌≡◌, ◌+◌, ◌-◌, ◌/◌, ◌%◌, ◌^◌, ◌<◌, ◌≤◌, ◌++◌, true, Option, None, Some, cond, List, length, option_map, is_some, not, IfOk, nat_le};
ghost use Rattle.flat_form.specs.View.{expr_of};
ghost use Rattle.flat_form.specs.Sizes.{kept_of, is_sized};
ghost use Rattle.flat_form.specs.declared.flat.FExpr.TheVariants as form;
ghost use Rattle.flat_unfolding.specs.Outcome.{Broken, breaks_if};
ghost use Rattle.flat_unfolding.specs.Names.{Look as LookOf, width_of as width_in, offset_in as offset_of, range_at, meaning as meaning_in, a_param, a_signal, a_memory, whole_of};
ghost use Rattle.flat_unfolding.specs.Constants.{own_value as value_of};
ghost use Rattle.flat_unfolding.specs.Expressions.{Term, bit_select, signal_bits, word_bits, word_of, is_empty, is_sound, as_constant, as_bound, as_count, as_second, range_of as range_between, may_index as may_index_of, ascends as ascends_of, part_select, indices_select, kind_select, is_index as is_index_of, words_from, index_term, part_term};
ghost use Rattle.flat_names.specs.Noting.{all_noted};
ghost use Rattle.flat_names.specs.Looks.{range_of, param_of, memory_of, Shows, IsFit, IsFitParam};
ghost use Rattle.flat_names.specs.Pieces.{IsRead, Makes, count_notes};
ghost use Rattle.flat_names.specs.Signs.{no_signs};
ghost use Rattle.flat_names.specs.Selects.{index_of, part_at, bound_notes, second_notes, select_of, part_in, part_notes, IsSelected, StandsFor};

use crate::fault::{Faults, Rule};
use crate::resolved::{Resolved, binary_expr, choose_expr, nothing, repetition};
use crate::scope::{Bounds, Look, Meaning, Memory, Param};
use crate::signs::Signs;
use cdc_base::{Name, NoMemory};
use flat_form::bits::{low_bits, shifted_left, shifted_right};
use flat_form::copy::copy;
use flat_form::flat::FExpr;
use flat_form::memory::boxed;
use flat_form::size::width_of;
use flat_form::value::own_value;
use flat_form::whole::MAX_WHOLE;
use std::alloc::Global;
use verilog_ast::{BinaryOp, PartKind};

/// Whether a variable index of this size always meets a bit of the range: the range begins at 0 on the right, and the
/// index has no value that passes its left bound.
pub fn may_index(bounds: Option<Bounds>, index_width: u8) -> bool
    ensures { result ≡ may_index_of (option_map range_of bounds) index_width }
{
    match bounds {
        Some(bounds) => bounds.right == 0 && has_all(bounds.width(), index_width),
        None => false,
    }
}

/// Whether there are as many indices as words of this size.
fn has_all(indices: u64, index_width: u8) -> bool
    ensures { result ≡ nat_le (2 ^ index_width) indices }
{
    index_width < 64 && shifted_right(indices, u64::from(index_width)) != 0
}

/// Whether a variable index of this size always meets a word of the memory.
pub fn may_index_words(memory: Memory, index_width: u8) -> bool
    ensures { result ≡ nat_le (2 ^ index_width) memory.words }
{
    has_all(u64::from(memory.words), index_width)
}

/// How many values an index of this size has.
pub fn index_values(index_width: u8) -> u32
    ensures { 2 ^ index_width < 2 ^ 32 → result ≡ 2 ^ index_width }
{
    u32::try_from(shifted_left(1, u64::from(index_width))).unwrap_or(u32::MAX)
}

/// Bounds that a constant gives, from 0 to 2^31 - 1.
pub fn bounds_of(
    left: &Resolved,
    right: &Resolved,
    faults: &mut Faults,
) -> Result<Option<Bounds>, NoMemory>
    ensures { (t u : Term) → IsRead (as_constant t) left.now → IsRead (as_constant u) right.now
        → IfOk result (λ b. (option_map range_of b ≡ range_between (as_bound t) (as_bound u)) × (faults.new ≡ all_noted faults.old (bound_notes t ++ bound_notes u))) }
{
    part_numbers(PartKind::Range, left, right, faults)
}

/// The two numbers of a part: bounds, or a bound and a count of bits.
pub fn part_numbers(
    kind: PartKind,
    left: &Resolved,
    right: &Resolved,
    faults: &mut Faults,
) -> Result<Option<Bounds>, NoMemory>
    ensures { (t u : Term) → IsRead (as_constant t) left.now → IsRead (as_constant u) right.now
        → IfOk result (λ b. (option_map range_of b ≡ range_between (as_bound t) (as_second kind u)) × (faults.new ≡ all_noted faults.old (bound_notes t ++ second_notes kind u))) }
{
    let left = bound(left, faults)?;
    let right = second(kind, right, faults)?;
    match (left, right) {
        (Some(left), Some(right)) => Ok(Some(Bounds { left, right })),
        _ => Ok(None),
    }
}

/// The second number of a part.
fn second(kind: PartKind, constant: &Resolved, faults: &mut Faults) -> Result<Option<u32>, NoMemory>
    ensures { (t : Term) → IsRead (as_constant t) constant.now
        → IfOk result (λ b. (b ≡ cond (is_sound (as_second kind t)) (Some (value_of (as_second kind t).expr)) None) × (faults.new ≡ all_noted faults.old (second_notes kind t))) }
{
    match kind {
        PartKind::Range => bound(constant, faults),
        PartKind::Up | PartKind::Down => count(constant, faults),
    }
}

fn count(constant: &Resolved, faults: &mut Faults) -> Result<Option<u32>, NoMemory>
    ensures { (t : Term) → IsRead (as_constant t) constant.now
        → IfOk result (λ b. (b ≡ cond (is_sound (as_count t)) (Some (value_of t.expr)) None) × (faults.new ≡ all_noted faults.old (count_notes t))) }
{
    match repetition(constant, faults)? {
        Some(count) => Ok(narrowed(count)),
        None => Ok(None),
    }
}

fn bound(constant: &Resolved, faults: &mut Faults) -> Result<Option<u32>, NoMemory>
    ensures { (t : Term) → IsRead (as_constant t) constant.now
        → IfOk result (λ b. (b ≡ cond (is_sound (as_bound t)) (Some (value_of t.expr)) None) × (faults.new ≡ all_noted faults.old (bound_notes t))) }
{
    if !constant.is_sound {
        return Ok(None);
    }
    let value = own_value(&constant.expr);
    if value > MAX_WHOLE {
        faults.note(Rule::ConstantOutOfRange, "")?;
        return Ok(None);
    }
    Ok(narrowed(value))
}

fn narrowed(value: u64) -> Option<u32>
    ensures { value < 2 ^ 32 → result ≡ Some value }
{
    u32::try_from(value).ok()
}

/// The lowest bit and the width of a part of a range; `None` where an index is outside, or bounds have the other
/// direction than the range's.
pub fn part_of_range(range: Option<Bounds>, kind: PartKind, part: Bounds) -> Option<(u8, u8)>
    ensures { width_in (option_map range_of range) ≤ 64 → option_map select_of result ≡ kind_select (option_map range_of range) kind (range_of part) }
{
    let base = u64::from(part.left);
    let more = u64::from(part.right).saturating_sub(1);
    match kind {
        PartKind::Range => bits_between(range, base, u64::from(part.right)),
        PartKind::Up => bits_of_indices(range, base, base + more),
        PartKind::Down => bits_of_indices(range, base.checked_sub(more)?, base),
    }
}

/// The bits with the indices from `low` to `high`.
fn bits_of_indices(range: Option<Bounds>, low: u64, high: u64) -> Option<(u8, u8)>
    ensures { width_in (option_map range_of range) ≤ 64 → option_map select_of result ≡ indices_select (option_map range_of range) low high }
{
    if ascends(range) {
        bits_between(range, low, high)
    } else {
        bits_between(range, high, low)
    }
}

fn ascends(range: Option<Bounds>) -> bool
    ensures { result ≡ ascends_of (option_map range_of range) }
{
    match range {
        Some(range) => range.left < range.right,
        None => false,
    }
}

fn bits_between(range: Option<Bounds>, left: u64, right: u64) -> Option<(u8, u8)>
    ensures { width_in (option_map range_of range) ≤ 64 → option_map select_of result ≡ part_select (option_map range_of range) (record { left = left; right = right }) }
{
    let range = range?;
    let high = range.offset(left)?;
    let low = range.offset(right)?;
    let rest = high.checked_sub(low)?;
    Some((low, rest.checked_add(1)?))
}

/// `name[index]`. The index is settled.
pub fn index_read(
    look: &Look,
    name: &Name,
    index: Resolved,
    faults: &mut Faults,
) -> Result<Resolved, NoMemory>
    ensures { (l : LookOf) (t : Term) → Shows look.now l → IsFit l → IsRead t index
        → IfOk result (λ r. IsRead (index_term l name.now t) r × (r.count ≡ None)
        × (faults.new ≡ all_noted faults.old (index_of l name.now t (meaning_in l name.now)).broken) × (r.signs ≡ no_signs)) }
{
    match look.meaning(name) {
        Some(Meaning::Param(param)) => index_of_parameter(param, name, index, faults),
        Some(Meaning::Signal(sig)) => index_of_signal(look, sig, name, index, faults),
        Some(Meaning::Memory(memory)) => index_of_memory(look, memory, name, index, faults),
        Some(Meaning::NoValue) => Ok(Resolved::broken(index.expr, false)),
        None => Ok(Resolved::broken(index.expr, false)),
    }
}

fn index_of_parameter(
    param: Param,
    name: &Name,
    index: Resolved,
    faults: &mut Faults,
) -> Result<Resolved, NoMemory>
    ensures { (l : LookOf) (t : Term) → IsFitParam (param_of param) → IsRead t index
        → IfOk result (λ r. IsSelected t.broken (index_of l name.now t (Some (a_param (param_of param)))) faults.old faults.new r) }
{
    if !index.is_sound {
        return Ok(Resolved::broken(index.expr, index.is_constant));
    }
    if !index.is_constant {
        faults.note(Rule::IndexMayMiss, name.as_str())?;
        return Ok(Resolved::broken(index.expr, false));
    }
    match offset_in(param.bounds, &index.expr) {
        Some(at) => Ok(Resolved::constant(bits_of(param, at, 1), Signs::none())),
        None => {
            faults.note(Rule::IndexOutOfRange, name.as_str())?;
            Ok(Resolved::broken(nothing(), true))
        }
    }
}

/// The offset of a constant index.
pub fn offset_in(bounds: Option<Bounds>, index: &FExpr) -> Option<u8>
    ensures { is_sized index.now ≡ true → width_in (option_map range_of bounds) ≤ 64 → result ≡ offset_of (option_map range_of bounds) (value_of (expr_of index.now)) }
{
    bounds?.offset(own_value(index))
}

fn bits_of(param: Param, at: u8, width: u8) -> FExpr
    ensures { width ≤ 64 → result ≡ form.Number (param.value / 2 ^ at % 2 ^ width) width }
{
    FExpr::Number {
        value: shifted_right(param.value, u64::from(at)) & low_bits(width),
        width,
    }
}

fn index_of_signal(
    look: &Look,
    sig: u32,
    name: &Name,
    index: Resolved,
    faults: &mut Faults,
) -> Result<Resolved, NoMemory>
    ensures { (l : LookOf) (t : Term) → Shows look.now l → IsFit l → sig < length l.entries → IsRead t index
        → IfOk result (λ r. IsSelected t.broken (index_of l name.now t (Some (a_signal sig))) faults.old faults.new r) }
{
    if !index.is_sound {
        return Ok(Resolved::broken(index.expr, false));
    }
    if index.is_constant {
        return bit_of_signal(look, sig, name, &index.expr, faults);
    }
    let is_sound = surely_meets(look.bounds(sig), index.width(), name, faults)?;
    let index = boxed(look.alloc, index.expr)?;
    Ok(Resolved {
        expr: FExpr::At {
            sig,
            index,
            width: 1,
        },
        is_sound,
        is_constant: false,
        count: None,
        signs: Signs::none(),
    })
}

/// The bit of a constant index.
fn bit_of_signal(
    look: &Look,
    sig: u32,
    name: &Name,
    index: &FExpr,
    faults: &mut Faults,
) -> Result<Resolved, NoMemory>
    ensures { (l : LookOf) (bs : List Broken) → Shows look.now l → IsFit l → is_sized index.now ≡ true → is_empty bs ≡ true
        → IfOk result (λ r. IsSelected bs (signal_bits l name.now sig (bit_select (range_at l.entries sig) (value_of (expr_of index.now)))) faults.old faults.new r) }
{
    match offset_in(look.bounds(sig), index) {
        Some(at) => Ok(Resolved::variable(look.read(sig, at, 1))),
        None => {
            faults.note(Rule::IndexOutOfRange, name.as_str())?;
            Ok(Resolved::broken(nothing(), false))
        }
    }
}

/// Whether a variable index always meets a bit of the range; notes one that may miss.
fn surely_meets(
    bounds: Option<Bounds>,
    index_width: u8,
    name: &Name,
    faults: &mut Faults,
) -> Result<bool, NoMemory>
    ensures { IfOk result (λ s. (s ≡ may_index_of (option_map range_of bounds) index_width) × (faults.new ≡ all_noted faults.old (breaks_if (not s) 315 name.now))) }
{
    if may_index(bounds, index_width) {
        return Ok(true);
    }
    faults.note(Rule::IndexMayMiss, name.as_str())?;
    Ok(false)
}

fn index_of_memory(
    look: &Look,
    memory: Memory,
    name: &Name,
    index: Resolved,
    faults: &mut Faults,
) -> Result<Resolved, NoMemory>
    ensures { (l : LookOf) (t : Term) → Shows look.now l → IsFit l → memory.first + memory.words ≤ length l.entries → IsRead t index
        → IfOk result (λ r. IsSelected t.broken (index_of l name.now t (Some (a_memory (memory_of memory)))) faults.old faults.new r) }
{
    if !index.is_sound {
        return Ok(Resolved::broken(index.expr, false));
    }
    if index.is_constant {
        return word_of_memory(look, memory, name, &index.expr, faults);
    }
    if !may_index_words(memory, index.width()) {
        faults.note(Rule::IndexMayMiss, name.as_str())?;
        return Ok(Resolved::broken(index.expr, false));
    }
    let read = memory_read(look, memory, &index.expr)?;
    Ok(Resolved::variable(read))
}

/// The word of a constant index.
fn word_of_memory(
    look: &Look,
    memory: Memory,
    name: &Name,
    index: &FExpr,
    faults: &mut Faults,
) -> Result<Resolved, NoMemory>
    ensures { (l : LookOf) (bs : List Broken) → Shows look.now l → IsFit l → memory.first + memory.words ≤ length l.entries → is_sized index.now ≡ true → is_empty bs ≡ true
        → IfOk result (λ r. IsSelected bs (word_bits l name.now (word_of (memory_of memory) (value_of (expr_of index.now)))) faults.old faults.new r) }
{
    match memory.word(own_value(index)) {
        Some(word) => Ok(Resolved::variable(look.read(word, 0, look.width(word)))),
        None => {
            faults.note(Rule::IndexOutOfRange, name.as_str())?;
            Ok(Resolved::broken(nothing(), false))
        }
    }
}

/// A copy of an index.
fn copied(alloc: Global, index: &FExpr) -> Result<FExpr, NoMemory>
    ensures { IfOk result (λ e. Makes e (expr_of index.now) (kept_of index.now)) }
{
    let index = copy(alloc, index)?;
    Ok(index)
}

/// `index == n`, with a number as wide as the index.
pub fn is_index(alloc: Global, index: &FExpr, n: u32) -> Result<FExpr, NoMemory>
    ensures { is_sized index.now ≡ true → n < 2 ^ (kept_of index.now).width
        → IfOk result (λ e. Makes e (is_index_of (expr_of index.now) n) (record { width = 1; right = is_sized index.now })) }
{
    let number = FExpr::Number {
        value: u64::from(n),
        width: width_of(index),
    };
    let index = copied(alloc, index)?;
    let equal = binary_expr(alloc, BinaryOp::Eq, index, number)?;
    Ok(equal)
}

/// The word that a variable index chooses: the first where the index is 0, and so on up to the last that it reaches.
fn memory_read(look: &Look, memory: Memory, index: &FExpr) -> Result<FExpr, NoMemory>
    ensures { (l : LookOf) → Shows look.now l → IsFit l → memory.first + memory.words ≤ length l.entries → is_sized index.now ≡ true → 2 ^ (kept_of index.now).width ≤ memory.words
        → IfOk result (λ e. StandsFor e (words_from l (memory_of memory) (expr_of index.now) 0 (2 ^ (kept_of index.now).width - 1))) }
{
    let mut n = index_values(width_of(index)).saturating_sub(1);
    let mut read = word_read(look, memory, n);
    while n > 0 {
        n -= 1;
        let cond = is_index(look.alloc, index, n)?;
        let word = word_read(look, memory, n);
        read = choose_expr(look.alloc, cond, word, read)?;
    }
    Ok(read)
}

fn word_read(look: &Look, memory: Memory, n: u32) -> FExpr
    ensures { (l : LookOf) → Shows look.now l → IsFit l → memory.first + n < length l.entries → StandsFor result (whole_of l (memory.first + n)) }
{
    let sig = memory.first.saturating_add(n);
    look.read(sig, 0, look.width(sig))
}

/// A part of a name. The two numbers are settled as constants.
pub fn part_read(
    look: &Look,
    name: &Name,
    kind: PartKind,
    left: &Resolved,
    right: &Resolved,
    faults: &mut Faults,
) -> Result<Resolved, NoMemory>
    ensures { (l : LookOf) (t u : Term) → Shows look.now l → IsFit l → IsRead (as_constant t) left.now → IsRead (as_constant u) right.now
        → IfOk result (λ r. IsRead (part_term l name.now kind t u) r × (r.count ≡ None)
        × (faults.new ≡ all_noted faults.old (bound_notes t ++ second_notes kind u ++ (part_at l name.now kind (range_between (as_bound t) (as_second kind u)) (meaning_in l name.now)).broken)) × (r.signs ≡ no_signs)) }
{
    let bounds = part_numbers(kind, left, right, faults)?;
    match look.meaning(name) {
        Some(Meaning::Param(param)) => part_of_parameter(param, name, kind, bounds, faults),
        Some(Meaning::Signal(sig)) => part_of_signal(look, sig, name, kind, bounds, faults),
        Some(Meaning::Memory(_)) => {
            faults.note(Rule::Memory, name.as_str())?;
            Ok(Resolved::broken(nothing(), false))
        }
        Some(Meaning::NoValue) => Ok(Resolved::broken(nothing(), false)),
        None => Ok(Resolved::broken(nothing(), false)),
    }
}

/// The lowest bit and the width of a part; notes a part that is outside.
pub fn part_within(
    range: Option<Bounds>,
    kind: PartKind,
    part: Option<Bounds>,
    name: &Name,
    faults: &mut Faults,
) -> Result<Option<(u8, u8)>, NoMemory>
    ensures { width_in (option_map range_of range) ≤ 64
        → IfOk result (λ f. (option_map select_of f ≡ part_in (option_map range_of range) kind (option_map range_of part))
        × (faults.new ≡ all_noted faults.old (part_notes name.now (option_map range_of range) kind (option_map range_of part)))) }
{
    let Some(part) = part else {
        return Ok(None);
    };
    let found = part_of_range(range, kind, part);
    if found.is_none() {
        faults.note(Rule::IndexOutOfRange, name.as_str())?;
    }
    Ok(found)
}

fn part_of_parameter(
    param: Param,
    name: &Name,
    kind: PartKind,
    part: Option<Bounds>,
    faults: &mut Faults,
) -> Result<Resolved, NoMemory>
    ensures { (l : LookOf) (bs : List Broken) → IsFitParam (param_of param) → is_empty bs ≡ is_some part
        → IfOk result (λ r. IsSelected bs (part_at l name.now kind (option_map range_of part) (Some (a_param (param_of param)))) faults.old faults.new r) }
{
    match part_within(param.bounds, kind, part, name, faults)? {
        Some((at, width)) => Ok(Resolved::constant(bits_of(param, at, width), Signs::none())),
        None => Ok(Resolved::broken(nothing(), true)),
    }
}

fn part_of_signal(
    look: &Look,
    sig: u32,
    name: &Name,
    kind: PartKind,
    part: Option<Bounds>,
    faults: &mut Faults,
) -> Result<Resolved, NoMemory>
    ensures { (l : LookOf) (bs : List Broken) → Shows look.now l → IsFit l → sig < length l.entries → is_empty bs ≡ is_some part
        → IfOk result (λ r. IsSelected bs (part_at l name.now kind (option_map range_of part) (Some (a_signal sig))) faults.old faults.new r) }
{
    match part_within(look.bounds(sig), kind, part, name, faults)? {
        Some((at, width)) => Ok(Resolved::variable(look.read(sig, at, width))),
        None => Ok(Resolved::broken(nothing(), false)),
    }
}
