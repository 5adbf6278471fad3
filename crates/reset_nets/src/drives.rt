//! Which assignments go to a signal: none, one under its plain name, or others.
ghost use Rattle.std.specs.Prelude.{◌≡◌, ◌==◌, ℕ, cond, map, Some, option_map, length, replicate, slice_get, IfOk};
ghost use Rattle.flat_form.specs.View.{target_of, targets_of};
ghost use Rattle.flat_meaning.specs.Flat.{is_target, are_targets};
ghost use Rattle.reset_nets.specs.Finding.{pair_of, also as also_of, noted, Tells};
ghost use Rattle.reset_nets.specs.declared.drives.Drive as mark;
ghost use Rattle.reset_nets.specs.declared.drives.Drive.TheVariants as marks;

use cdc_base::NoMemory;
use flat_form::flat::{FTarget, FlatAssign};
use std::alloc::Global;

/// The assignments that go to a signal: there is none; or one alone, under the signal's plain name, with its number; or
/// any others.
#[derive(Clone, Copy, PartialEq, Eq, Debug, Drop)]
pub enum Drive {
    Nothing,
    Once(usize),
    Otherwise,
}

/// What goes to each of so many signals.
pub fn drives_of(
    alloc: Global,
    count: usize,
    assigns: &[FlatAssign],
) -> Result<Vec<Drive>, NoMemory>
    ensures count { IfOk result (λ drives. length drives.items ≡ count) }
    ensures tells { IfOk result (λ drives. (s : ℕ) (d : mark.Drive) → slice_get drives.items s ≡ Some d → Tells (map pair_of assigns.now) s d) }
{
    let mut drives = undriven(alloc, count)?;
    for (number, assign) in assigns.iter().enumerate() {
        note(&mut drives, number, &assign.target);
    }
    Ok(drives)
}

fn undriven(alloc: Global, count: usize) -> Result<Vec<Drive>, NoMemory>
    ensures { IfOk result (λ drives. drives.items ≡ replicate count marks.Nothing) }
{
    match vec![in alloc; Drive::Nothing; count] {
        Ok(drives) => Ok(drives),
        Err(_) => Err(NoMemory),
    }
}

/// Notes the assignment of this number.
fn note(drives: &mut Vec<Drive>, number: usize, target: &FTarget)
    ensures count { length drives.new.items ≡ length drives.old.items }
    ensures noted { (s : ℕ) → slice_get drives.new.items s ≡ option_map (noted s number (target_of target.now)) (slice_get drives.old.items s) }
{
    match target {
        FTarget::Whole { sig } => add(drives, *sig, Drive::Once(number)),
        _ => spoil(drives, target),
    }
}

/// Notes that an assignment goes to a signal.
fn add(drives: &mut Vec<Drive>, sig: u32, drive: Drive)
    ensures count { length drives.new.items ≡ length drives.old.items }
    ensures noted { (s : ℕ) → slice_get drives.new.items s ≡ option_map (λ d. cond (s == sig) (also_of d drive) d) (slice_get drives.old.items s) }
{
    if let Some(old) = drives.get_mut(sig as usize) {
        *old = also(*old, drive);
    }
}

fn also(old: Drive, drive: Drive) -> Drive
    ensures { result ≡ also_of old drive }
{
    match old {
        Drive::Nothing => drive,
        _ => Drive::Otherwise,
    }
}

/// Notes each signal of a target as one to which something else goes.
#[cycle(spoil)]
fn spoil(drives: &mut Vec<Drive>, target: &FTarget)
    ensures count { length drives.new.items ≡ length drives.old.items }
    ensures noted { (s : ℕ) → slice_get drives.new.items s ≡ option_map (λ d. cond (is_target (target_of target.now) s) marks.Otherwise d) (slice_get drives.old.items s) }
{
    match target {
        FTarget::Whole { sig } | FTarget::At { sig, .. } | FTarget::Part { sig, .. } => {
            add(drives, *sig, Drive::Otherwise)
        }
        FTarget::Join(parts) => spoil_all(drives, parts.as_slice()),
    }
}

#[cycle(spoil)]
fn spoil_all(drives: &mut Vec<Drive>, targets: &[FTarget])
    ensures count { length drives.new.items ≡ length drives.old.items }
    ensures noted { (s : ℕ) → slice_get drives.new.items s ≡ option_map (λ d. cond (are_targets (targets_of (map target_of targets.now)) s) marks.Otherwise d) (slice_get drives.old.items s) }
{
    for target in targets {
        spoil(drives, target);
    }
}
