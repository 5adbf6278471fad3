//! Runs of bits in a word.
ghost use Rattle.std.specs.Prelude.{◌≡◌, ℕ, ◌+◌, ◌-◌, ◌≤◌, ◌^◌, Bool, cond, List, ◌++◌, ◌∷◌, [], map, IfOk, OnOk};
ghost use Rattle.cell_graph.specs.Tree.{bit_at};
ghost use Rattle.flat_meaning.specs.Pieces.{Run as MeaningRun, add_bit, runs as longest_runs};
ghost use Rattle.driver_trees.specs.Collected.{run_of, begun, IsBegun, IsAbove};

use crate::memory::push;
use cdc_base::NoMemory;
use cell_graph::word::shifted_right;
use std::alloc::Global;

/// A run of bits from `at` on.
#[derive(Clone, Copy, PartialEq, Eq, Debug, Drop)]
pub struct Run {
    pub at: u8,
    pub width: u8,
}

/// The lowest `width` bits set.
pub fn mask(width: u8) -> u64
    ensures { width ≤ 64 → result ≡ 2 ^ width - 1 }
{
    match 1u64.checked_shl(u32::from(width)) {
        Some(bit) => bit.wrapping_sub(1),
        None => u64::MAX,
    }
}

/// The longest runs of set bits, the lowest one first.
pub fn runs(alloc: Global, bits: u64) -> Result<Vec<Run>, NoMemory>
    ensures { (n : ℕ) → n ≡ 64 → IfOk result (λ rs. map run_of rs.items ≡ longest_runs (bit_at bits) n []) }
{
    let mut runs = Vec::new(alloc);
    let mut from = None;
    for at in 0u8..64 {
        from = next(&mut runs, from, at, is_set(bits, at))?;
    }
    end_run(&mut runs, from, 64)?;
    Ok(runs)
}

/// Whether the bit at that place is set.
pub fn is_set(bits: u64, at: u8) -> bool
    ensures { result ≡ bit_at bits at }
{
    shifted_right(bits, u64::from(at)) % 2 == 1
}

/// Begins a run at the place or goes on with the one that begins at `from`; ends that one where the bit isn't set.
fn next(runs: &mut Vec<Run>, from: Option<u8>, at: u8, is_set: bool) -> Result<Option<u8>, NoMemory>
    ensures goes_on { (above : List MeaningRun) → IsBegun from at → IsAbove at above
        → IfOk result (λ to. IsBegun to (at + 1)
        × (map run_of runs.old.items ++ begun from at (cond is_set (add_bit at above) above) ≡ map run_of runs.new.items ++ begun to (at + 1) above)) }
{
    if !is_set {
        end_run(runs, from, at)?;
        return Ok(None);
    }
    match from {
        Some(low) => Ok(Some(low)),
        None => Ok(Some(at)),
    }
}

/// Ends the run that begins at `from`, if there is one, below `end`.
fn end_run(runs: &mut Vec<Run>, from: Option<u8>, end: u8) -> Result<(), NoMemory>
    ensures ends { (above : List MeaningRun) → IsBegun from end → IsAbove end above
        → OnOk result (map run_of runs.old.items ++ begun from end above ≡ map run_of runs.new.items ++ above) }
{
    match from {
        Some(low) => add_run(runs, low, end),
        None => Ok(()),
    }
}

fn add_run(runs: &mut Vec<Run>, low: u8, end: u8) -> Result<(), NoMemory>
    ensures { low ≤ end → OnOk result (map run_of runs.new.items ≡ map run_of runs.old.items ++ record { at = low; bits = end - low } ∷ []) }
{
    let width = end.saturating_sub(low);
    push(runs, Run { at: low, width })
}
