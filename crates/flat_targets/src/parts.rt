//! Parts of resolved target concatenations: what they may assign, and what their indices read.
ghost use Rattle.std.specs.Prelude.{◌≡◌, ℕ, ◌<◌, ◌&&◌, ◌==◌, ◌++◌, true, false, [], List, map, length, All, IfOk};
ghost use Rattle.std.specs.List.{list_any};
ghost use Rattle.cell_graph.specs.Tree.{bit_at, any_below};
ghost use Rattle.flat_meaning.specs.Assigned.{is_within, reaches};
ghost use Rattle.flat_meaning.specs.Flat.{Target};
ghost use Rattle.flat_meaning.specs.Law.{expr_reads};
ghost use Rattle.flat_form.specs.View.{expr_of, exprs_of, target_of, targets_of};
ghost use Rattle.flat_form.specs.Masks.{bits_in, Adds};
ghost use Rattle.flat_form.specs.Uses.{exprs_read};
ghost use Rattle.flat_targets.specs.Parts.{width_among, AreWidths, IsPart, parts as parts_of, parts_in, within, Holds, is_read as is_read_of, shares, reads_from, is_met as is_met_of, first_met as first_met_of};

use cdc_base::NoMemory;
use flat_form::bits::{bits, low_bits};
use flat_form::flat::{FExpr, FTarget};
use flat_form::masks::Masks;
use flat_form::memory::push;
use flat_names::design::Entry;
use std::alloc::Global;

/// All bits of a signal.
fn all_bits(entries: &[Entry], sig: u32) -> u64
    ensures { (i : ℕ) → i < 64 → bit_at result i ≡ is_within 0 (width_among entries.now sig) i }
{
    match entries.get(usize::try_from(sig).unwrap_or(usize::MAX)) {
        Some(entry) => low_bits(entry.width),
        None => 0,
    }
}

/// Adds the bits that an index reads. A variable index in it reads its whole signal. A read of a large memory is a long
/// chain of choices, which is walked without a recursion.
#[cycle(add_reads)]
fn add_reads(entries: &[Entry], expr: &FExpr, reads: &mut Masks) -> Result<(), NoMemory>
    ensures { IfOk result (λ _. Adds reads.old reads.new (expr_reads (width_among entries.now) (expr_of expr.now))) }
{
    let mut inner = expr;
    loop {
        match inner {
            FExpr::Number { .. } => return Ok(()),
            FExpr::Read { sig, at, width } => return reads.add(*sig, bits(*at, *width)),
            FExpr::At { sig, index, .. } => {
                reads.add(*sig, all_bits(entries, *sig))?;
                inner = index;
            }
            FExpr::Unary { a, .. } => inner = a,
            FExpr::Binary { a, b, .. } => {
                add_reads(entries, b, reads)?;
                inner = a;
            }
            FExpr::Choose {
                cond,
                yes,
                other,
                ..
            } => {
                add_reads(entries, cond, reads)?;
                add_reads(entries, yes, reads)?;
                inner = other;
            }
            FExpr::Gate { inputs, .. } => return add_reads_of(entries, inputs.as_slice(), reads),
            FExpr::Join { parts, .. } => return add_reads_of(entries, parts.as_slice(), reads),
            FExpr::Repeat { parts, .. } => return add_reads_of(entries, parts.as_slice(), reads),
        }
    }
}

#[cycle(add_reads)]
fn add_reads_of(entries: &[Entry], exprs: &[FExpr], reads: &mut Masks) -> Result<(), NoMemory>
    ensures { IfOk result (λ _. Adds reads.old reads.new (exprs_read (width_among entries.now) (exprs_of (map expr_of exprs.now)))) }
{
    for expr in exprs {
        add_reads(entries, expr, reads)?;
    }
    Ok(())
}

/// The signal of which a part may assign bits, and a mask of these. A variable index may choose each bit of its signal.
fn may_assign(entries: &[Entry], part: &FTarget) -> (u32, u64)
    ensures { IsPart (target_of part.now) → (s i : ℕ) → i < 64
        → ((s == result.0) && bit_at result.1 i) ≡ within (width_among entries.now) (reaches (width_among entries.now) (target_of part.now)) s i }
{
    match part {
        FTarget::Whole { sig } | FTarget::At { sig, .. } => (*sig, all_bits(entries, *sig)),
        FTarget::Part { sig, at, width } => (*sig, bits(*at, *width) & all_bits(entries, *sig)),
        FTarget::Join(_) => (0, 0),
    }
}

/// Adds the bits that a part may assign.
fn add_part(entries: &[Entry], part: &FTarget, assigned: &mut Masks) -> Result<(), NoMemory>
    ensures { IsPart (target_of part.now) → IfOk result (λ _. Adds assigned.old assigned.new (within (width_among entries.now) (reaches (width_among entries.now) (target_of part.now)))) }
{
    let (sig, mask) = may_assign(entries, part);
    assigned.add(sig, mask)
}

/// The bits that the parts may assign.
fn assigned_by(alloc: Global, entries: &[Entry], parts: &[&FTarget]) -> Result<Masks, NoMemory>
    ensures { All IsPart (map (λ p. target_of p.now) parts.now) → IfOk result (Holds (width_among entries.now) (map (λ p. target_of p.now) parts.now)) }
{
    let mut assigned = Masks::new(alloc);
    for part in parts {
        add_part(entries, part, &mut assigned)?;
    }
    Ok(assigned)
}

/// Whether a part may assign a bit that other parts may assign.
fn overlaps(entries: &[Entry], part: &FTarget, assigned: &Masks) -> bool
    ensures { (n : ℕ) (others : List Target) → AreWidths (width_among entries.now) n → IsPart (target_of part.now) → Holds (width_among entries.now) others assigned.now
        → result ≡ list_any (shares (width_among entries.now) n (target_of part.now)) others }
{
    let (sig, mask) = may_assign(entries, part);
    assigned.of(sig) & mask != 0
}

/// Whether some bit of the signal is read and some bit of it is assigned.
fn is_read(entries: &[Entry], reads: &Masks, assigned: &Masks, sig: u32) -> bool
    ensures { result ≡ is_read_of (width_among entries.now) (bits_in reads.now) (bits_in assigned.now) sig }
{
    reads.of(sig) & all_bits(entries, sig) != 0 && assigned.of(sig) != 0
}

/// Whether some signal is read of which some bit is assigned.
fn are_read(entries: &[Entry], reads: &Masks, assigned: &Masks) -> bool
    ensures { (n : ℕ) → AreWidths (width_among entries.now) n → result ≡ any_below (is_read_of (width_among entries.now) (bits_in reads.now) (bits_in assigned.now)) n }
{
    for sig in reads.signals() {
        if is_read(entries, reads, assigned, *sig) {
            return true;
        }
    }
    false
}

/// Whether an index reads a signal that the parts assign.
fn reads_assigned(
    alloc: Global,
    entries: &[Entry],
    part: &FTarget,
    assigned: &Masks,
) -> Result<bool, NoMemory>
    ensures { (n : ℕ) (all : List Target) → AreWidths (width_among entries.now) n → IsPart (target_of part.now) → Holds (width_among entries.now) all assigned.now
        → IfOk result (λ b. b ≡ list_any (reads_from (width_among entries.now) n (target_of part.now)) all) }
{
    match part {
        FTarget::At { index, .. } => {
            let mut reads = Masks::new(alloc);
            add_reads(entries, index, &mut reads)?;
            Ok(are_read(entries, &reads, assigned))
        }
        FTarget::Whole { .. } => Ok(false),
        FTarget::Part { .. } => Ok(false),
        FTarget::Join(_) => Ok(false),
    }
}

/// Whether a part may assign what earlier ones may assign, or its index reads what the parts assign.
fn is_met(
    alloc: Global,
    entries: &[Entry],
    part: &FTarget,
    before: &Masks,
    all: &Masks,
) -> Result<bool, NoMemory>
    ensures { (n : ℕ) (earlier whole : List Target) → AreWidths (width_among entries.now) n → IsPart (target_of part.now)
        → Holds (width_among entries.now) earlier before.now → Holds (width_among entries.now) whole all.now
        → IfOk result (λ b. b ≡ is_met_of (width_among entries.now) n whole earlier (target_of part.now)) }
{
    if overlaps(entries, part, before) {
        return Ok(true);
    }
    reads_assigned(alloc, entries, part, all)
}

/// The place of the first part that may assign what an earlier one may assign, or whose index reads what they assign.
fn first_met(
    alloc: Global,
    entries: &[Entry],
    parts: &[&FTarget],
) -> Result<Option<usize>, NoMemory>
    ensures { (n : ℕ) → AreWidths (width_among entries.now) n → All IsPart (map (λ p. target_of p.now) parts.now)
        → IfOk result (λ o. o ≡ first_met_of (width_among entries.now) n (map (λ p. target_of p.now) parts.now) [] (map (λ p. target_of p.now) parts.now)) }
{
    let all = assigned_by(alloc, entries, parts)?;
    let mut before = Masks::new(alloc);
    for (place, part) in parts.iter().enumerate() {
        if is_met(alloc, entries, part, &before, &all)? {
            return Ok(Some(place));
        }
        add_part(entries, part, &mut before)?;
    }
    Ok(None)
}

/// Adds the parts of a target that are no concatenations of parts.
#[cycle(add_parts)]
fn add_parts<'a>(target: &'a FTarget, parts: &mut Vec<&'a FTarget>) -> Result<(), NoMemory>
    ensures { IfOk result (λ _. map (λ p. target_of p.now) parts.new.items ≡ map (λ p. target_of p.now) parts.old.items ++ parts_of (target_of target.now)) }
{
    match target {
        FTarget::Whole { .. } | FTarget::At { .. } | FTarget::Part { .. } => push(parts, target),
        FTarget::Join(inner) => {
            let inner = inner.as_slice();
            if inner.is_empty() {
                return push(parts, target);
            }
            add_parts_of(inner, parts)
        }
    }
}

#[cycle(add_parts)]
fn add_parts_of<'a>(targets: &'a [FTarget], parts: &mut Vec<&'a FTarget>) -> Result<(), NoMemory>
    ensures { IfOk result (λ _. map (λ p. target_of p.now) parts.new.items ≡ map (λ p. target_of p.now) parts.old.items ++ parts_in (targets_of (map target_of targets.now))) }
{
    for target in targets {
        add_parts(target, parts)?;
    }
    Ok(())
}

/// The place of the first part of a target that may assign what an earlier one may assign, or whose index reads what
/// the target assigns.
pub fn first_meeting(
    alloc: Global,
    entries: &[Entry],
    target: &FTarget,
) -> Result<Option<usize>, NoMemory>
    ensures { (n : ℕ) → AreWidths (width_among entries.now) n
        → IfOk result (λ o. o ≡ first_met_of (width_among entries.now) n (parts_of (target_of target.now)) [] (parts_of (target_of target.now))) }
{
    let mut parts = Vec::new(alloc);
    add_parts(target, &mut parts)?;
    first_met(alloc, entries, parts.as_slice())
}
