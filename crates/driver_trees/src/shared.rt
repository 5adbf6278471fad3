//! A register's next value where several processes assign it: each bit is that of the process that may assign it.
ghost use Rattle.std.specs.Prelude.{◌≡◌, ℕ, suc, ◌+◌, ◌<◌, ◌≤◌, List, IfOk, position};
ghost use Rattle.cell_graph.specs.Tree.{bit_at};
ghost use Rattle.flat_meaning.specs.Flat.{Stmt};
ghost use Rattle.flat_meaning.specs.Trees.{Selects};
ghost use Rattle.flat_meaning.specs.SignalTrees.{with_run as tree_with_run, with_bits, joined_runs};
ghost use Rattle.driver_trees.specs.Drafts.{AreDrafts};
ghost use Rattle.driver_trees.specs.Growth.{Grows, IsBuilt};
ghost use Rattle.driver_trees.specs.Givers.{giver_at, AreGiven, IsOpen, low_tree, Words};
ghost use Rattle.driver_trees.specs.Sketched.{AreGivers, next_by};

use crate::draft::Drafts;
use crate::mask::is_set;
use cdc_base::NoMemory;
use cell_graph::CellId;

/// What one process gives a register: the register's last tree in it, and the bits that it may assign.
#[derive(Clone, Copy, Drop)]
pub struct Giver {
    pub tree: CellId,
    pub bits: u64,
}

/// Bits with one giver from `from` on, up to a place that isn't known yet, and the word below them.
#[derive(Clone, Copy, Drop)]
struct OpenRun {
    from: u8,
    giver: usize,
    low: Option<CellId>,
}

/// The register's next value. Bits that no process may assign are its own.
pub fn next_tree(
    drafts: &mut Drafts,
    sig: u32,
    width: u8,
    givers: &[Giver],
) -> Result<CellId, NoMemory>
    ensures built { (wid : ℕ → ℕ) (bodies : List Stmt) → AreDrafts wid drafts.old → width ≡ wid sig → 1 ≤ width → width ≤ 64 → AreGivers wid drafts.old sig givers.now bodies
        → IfOk result (λ id. IsBuilt wid drafts.old drafts.new id (wid sig) (λ sel. next_by wid sel bodies sig)) }
{
    match givers {
        [] => drafts.read(sig, 0, width),
        [giver] => Ok(giver.tree),
        _ => joined(drafts, sig, width, givers),
    }
}

/// The runs of bits with one giver, one above the other.
fn joined(drafts: &mut Drafts, sig: u32, width: u8, givers: &[Giver]) -> Result<CellId, NoMemory>
    ensures built { (wid : ℕ → ℕ) (words : Words) (giver : ℕ → ℕ) → AreDrafts wid drafts.old → width ≡ wid sig → 1 ≤ width → width ≤ 64 → AreGiven wid drafts.old sig givers.now words giver
        → IfOk result (λ id. IsBuilt wid drafts.old drafts.new id (wid sig) (λ sel. joined_runs (wid sig) (words sel) giver)) }
{
    let mut run = OpenRun {
        from: 0,
        giver: giver_of(givers, 0),
        low: None,
    };
    for at in 1..width {
        run = go_on(drafts, sig, width, givers, run, at)?;
    }
    with_run(drafts, sig, width, givers, run, width)
}

/// Goes on with the run, or ends it and begins another one where the bit has another giver.
fn go_on(
    drafts: &mut Drafts,
    sig: u32,
    width: u8,
    givers: &[Giver],
    run: OpenRun,
    at: u8,
) -> Result<OpenRun, NoMemory>
    ensures goes_on { (wid : ℕ → ℕ) (words : Words) (giver : ℕ → ℕ) → AreDrafts wid drafts.old → width ≡ wid sig → 1 ≤ width → width ≤ 64 → AreGiven wid drafts.old sig givers.now words giver
        → IsOpen drafts.old run at → at < width
        → IfOk result (λ to. Grows wid drafts.old drafts.new × IsOpen drafts.new to (at + 1) × ((sel : Selects) (n : ℕ) → with_bits (wid sig) (words sel) giver n to.from (at + 1) to.giver (low_tree sel drafts.new to)
        ≡ with_bits (wid sig) (words sel) giver (suc n) run.from at run.giver (low_tree sel drafts.old run))) }
{
    let giver = giver_of(givers, at);
    if giver == run.giver {
        return Ok(run);
    }
    let low = with_run(drafts, sig, width, givers, run, at)?;
    Ok(OpenRun {
        from: at,
        giver,
        low: Some(low),
    })
}

/// The run, which ends below `to`, on top of the word below it.
fn with_run(
    drafts: &mut Drafts,
    sig: u32,
    width: u8,
    givers: &[Giver],
    run: OpenRun,
    to: u8,
) -> Result<CellId, NoMemory>
    ensures built { (wid : ℕ → ℕ) (words : Words) (giver : ℕ → ℕ) → AreDrafts wid drafts.old → width ≡ wid sig → 1 ≤ width → width ≤ 64 → AreGiven wid drafts.old sig givers.now words giver
        → IsOpen drafts.old run to → to ≤ width
        → IfOk result (λ id. IsBuilt wid drafts.old drafts.new id to (λ sel. tree_with_run (wid sig) (words sel) giver run.from to run.giver (low_tree sel drafts.old run))) }
{
    let word = word_of(drafts, sig, width, givers, run.giver)?;
    let bits = drafts.cut(word, run.from, to.saturating_sub(run.from))?;
    drafts.above(bits, run.low)
}

/// The word of the giver with that number; behind the last one, the register's own.
fn word_of(
    drafts: &mut Drafts,
    sig: u32,
    width: u8,
    givers: &[Giver],
    giver: usize,
) -> Result<CellId, NoMemory>
    ensures built { (wid : ℕ → ℕ) (words : Words) (numbers : ℕ → ℕ) → AreDrafts wid drafts.old → width ≡ wid sig → 1 ≤ width → width ≤ 64 → AreGiven wid drafts.old sig givers.now words numbers
        → IfOk result (λ id. IsBuilt wid drafts.old drafts.new id (wid sig) (λ sel. words sel giver)) }
{
    match givers.get(giver) {
        Some(giver) => Ok(giver.tree),
        None => drafts.read(sig, 0, width),
    }
}

/// Which giver may assign the bit, the first counting; where none may, how many they are.
fn giver_of(givers: &[Giver], at: u8) -> usize
    ensures { result ≡ giver_at givers.now at }
{
    first_giver(givers, at).unwrap_or(givers.len())
}

fn first_giver(givers: &[Giver], at: u8) -> Option<usize>
    ensures { result ≡ position (λ g. bit_at g.bits at) givers.now }
{
    givers.iter().position(|giver| is_set(giver.bits, at))
}
