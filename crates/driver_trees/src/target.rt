//! Assignments: the parts of a target, each with its share of the value.
ghost use Rattle.std.specs.Prelude.{◌≡◌, ℕ, ◌+◌, ◌-◌, ◌≤◌, ◌<◌, ◌^◌, Bool, true, cond, nat_lt, ◌==◌, List, ◌++◌, map, [], ◌∷◌, IfOk, OnOk};
ghost use Rattle.cell_graph.specs.Tree.{Tree, Mux as MuxTree, Eq as EqTree, Const as ConstTree, Slice as SliceTree};
ghost use Rattle.flat_form.specs.View.{target_of, targets_of, expr_of};
ghost use Rattle.flat_form.specs.Sizes.{target_kept, all_right};
ghost use Rattle.flat_meaning.specs.Flat.{target_size, target_sizes};
ghost use Rattle.flat_meaning.specs.Assigned.{Done, FitTargets};
ghost use Rattle.flat_meaning.specs.Trees.{Selects, Trees, part_tree, picked, value_tree};
ghost use Rattle.driver_trees.specs.Drafts.{tree_in, width_at, AreDrafts, IsDraftOf};
ghost use Rattle.driver_trees.specs.Growth.{Grows, IsBuilt};
ghost use Rattle.driver_trees.specs.Presents.{width_in, Sees, IsRead, IsWithin};
ghost use Rattle.driver_trees.specs.Changes.{Assigns, IsProcess};
ghost use Rattle.driver_trees.specs.Shares.{Share, shares, all_shares, placed_tree, place_of, FitsPlace, IsPart, put_of, share_tree, share_trees, has_share, put_share, IsPut, ArePuts, IsPlaced};

use crate::draft::Drafts;
use crate::expr::{own_tree, tree};
use crate::mask::mask;
use crate::memory::push;
use crate::present::Present;
use cdc_base::NoMemory;
use cell_graph::{Cell, CellId};
use flat_form::size::width_of;
use flat_form::{FExpr, FTarget};
use std::alloc::Global;

/// Where in its signal an assigned word goes.
#[derive(Clone, Copy, Drop)]
pub enum Spot {
    Whole,
    Part { at: u8, width: u8 },
    /// The one bit that the index names.
    Chosen { index: CellId },
}

/// A word that is assigned to a signal.
#[derive(Clone, Copy, Drop)]
pub struct Put {
    pub sig: u32,
    pub spot: Spot,
    pub tree: CellId,
}

/// The bits of the target.
pub fn target_width(present: &Present, target: &FTarget) -> u8
    ensures { (wid : ℕ → ℕ) → ((s : ℕ) → width_in present.now s ≡ wid s) → (target_kept wid target.now).right ≡ true → result ≡ (target_kept wid target.now).width }
{
    match target {
        FTarget::Whole { sig } => present.width(*sig),
        FTarget::At { .. } => 1,
        FTarget::Part { width, .. } => *width,
        FTarget::Join(parts) => {
            let mut width = 0u8;
            for part in parts.as_slice() {
                width = width.saturating_add(target_width(present, part));
            }
            width
        }
    }
}

/// The words that an assignment gives to signals, from the left. Value and indices are read before any is assigned.
pub fn puts(
    alloc: Global,
    drafts: &mut Drafts,
    present: &Present,
    target: &FTarget,
    value: &FExpr,
) -> Result<Vec<Put>, NoMemory>
    ensures shares { (wid : ℕ → ℕ) (look : Selects → Selects) → AreDrafts wid drafts.old → Sees wid drafts.old present.now look → IsPlaced wid target.now → IsRead wid value.now
        → IfOk result (λ puts. Grows wid drafts.old drafts.new × ArePuts wid drafts.new puts.items
        (λ sel. shares wid (look sel) (target_of target.now) (value_tree wid (look sel) (target_of target.now) (expr_of value.now)))) }
{
    let width = target_width(present, target);
    let whole = tree(alloc, drafts, present, value, width.max(width_of(value)))?;
    let word = drafts.cut(whole, 0, width)?;
    let mut puts = Vec::new(alloc);
    split(alloc, drafts, present, target, word, &mut puts)?;
    Ok(puts)
}

/// Adds the words of the target, whose value is `word`.
#[cycle(split)]
fn split(
    alloc: Global,
    drafts: &mut Drafts,
    present: &Present,
    target: &FTarget,
    word: CellId,
    puts: &mut Vec<Put>,
) -> Result<(), NoMemory>
    ensures shares { (wid : ℕ → ℕ) (look : Selects → Selects) (before : Selects → List Share) → AreDrafts wid drafts.old → Sees wid drafts.old present.now look → IsPlaced wid target.now
        → IsDraftOf drafts.old word (target_size wid (target_of target.now)) → ArePuts wid drafts.old puts.old.items before
        → OnOk result (Grows wid drafts.old drafts.new × ArePuts wid drafts.new puts.new.items
        (λ sel. before sel ++ shares wid (look sel) (target_of target.now) (tree_in sel drafts.old word))) }
{
    match target {
        FTarget::Whole { sig } => add_put(puts, *sig, Spot::Whole, word),
        FTarget::Part { sig, at, width } => {
            let spot = Spot::Part {
                at: *at,
                width: *width,
            };
            add_put(puts, *sig, spot, word)
        }
        FTarget::At { sig, index } => {
            let index = own_tree(alloc, drafts, present, index)?;
            add_put(puts, *sig, Spot::Chosen { index }, word)
        }
        FTarget::Join(parts) => split_all(alloc, drafts, present, parts.as_slice(), word, puts),
    }
}

/// Adds the words of the targets side by side, whose value is `word`.
#[cycle(split)]
fn split_all(
    alloc: Global,
    drafts: &mut Drafts,
    present: &Present,
    parts: &[FTarget],
    word: CellId,
    puts: &mut Vec<Put>,
) -> Result<(), NoMemory>
    ensures shares { (wid : ℕ → ℕ) (look : Selects → Selects) (before : Selects → List Share) (done : Done) → AreDrafts wid drafts.old → Sees wid drafts.old present.now look
        → all_right (map (target_kept wid) parts.now) ≡ true → FitTargets wid (λ d. IsWithin wid) done (targets_of (map target_of parts.now))
        → IsDraftOf drafts.old word (target_sizes wid (targets_of (map target_of parts.now))) → ArePuts wid drafts.old puts.old.items before
        → OnOk result (Grows wid drafts.old drafts.new × ArePuts wid drafts.new puts.new.items
        (λ sel. before sel ++ all_shares wid (look sel) (targets_of (map target_of parts.now)) (tree_in sel drafts.old word))) }
{
    let mut low = drafts.width(word);
    for part in parts {
        let width = target_width(present, part);
        low = low.saturating_sub(width);
        let share = drafts.add(Cell::Slice {
            a: word,
            at: low,
            width,
        })?;
        split(alloc, drafts, present, part, share, puts)?;
    }
    Ok(())
}

fn add_put(puts: &mut Vec<Put>, sig: u32, spot: Spot, tree: CellId) -> Result<(), NoMemory>
    ensures { OnOk result (puts.new.items ≡ puts.old.items ++ put_of sig spot tree ∷ []) }
{
    push(puts, Put { sig, spot, tree })
}

/// Gives the targets of the words their next trees.
pub fn assign_all(drafts: &mut Drafts, present: &mut Present, puts: &[Put]) -> Result<(), NoMemory>
    ensures assigns { (wid : ℕ → ℕ) (target : ℕ → Bool) (ts : Selects → Trees) (ss : Selects → List Share) (sel₀ : Selects) → IsProcess wid drafts.old present.old target ts → ArePuts wid drafts.old puts.now ss
        → ((x : ℕ) → has_share (ss sel₀) x ≡ true → target x ≡ true)
        → OnOk result (Grows wid drafts.old drafts.new × Assigns present.old present.new (has_share (ss sel₀))
        × IsProcess wid drafts.new present.new target (λ sel. share_trees wid (ss sel) (ts sel))) }
{
    for put in puts {
        assign(drafts, present, *put)?;
    }
    Ok(())
}

/// Gives the target of the word its next tree.
fn assign(drafts: &mut Drafts, present: &mut Present, put: Put) -> Result<(), NoMemory>
    ensures assigns { (wid : ℕ → ℕ) (target : ℕ → Bool) (ts : Selects → Trees) → IsProcess wid drafts.old present.old target ts → IsPut wid drafts.old put → target put.sig ≡ true
        → OnOk result (Grows wid drafts.old drafts.new × Assigns present.old present.new (λ x. x == put.sig)
        × IsProcess wid drafts.new present.new target (λ sel. share_tree wid (put_share sel drafts.old put) (ts sel))) }
{
    if let Some(old) = present.tree(put.sig) {
        let next = placed(drafts, old, put.spot, put.tree)?;
        present.set(put.sig, next)?;
    }
    Ok(())
}

/// The old word with the new one at its place.
fn placed(drafts: &mut Drafts, old: CellId, spot: Spot, word: CellId) -> Result<CellId, NoMemory>
    ensures built { (wid : ℕ → ℕ) (n w : ℕ) → AreDrafts wid drafts.old → IsDraftOf drafts.old old n → n ≤ 64 → IsDraftOf drafts.old word w → FitsPlace n drafts.old spot w
        → IfOk result (λ id. IsBuilt wid drafts.old drafts.new id n (λ sel. placed_tree n (place_of sel drafts.old spot) (tree_in sel drafts.old word) (tree_in sel drafts.old old))) }
{
    match spot {
        Spot::Whole => Ok(word),
        Spot::Part { at, width } => with_part(drafts, old, at, width, word),
        Spot::Chosen { index } => with_bit(drafts, old, index, word),
    }
}

/// The old word with other bits from `at` on.
fn with_part(
    drafts: &mut Drafts,
    old: CellId,
    at: u8,
    width: u8,
    word: CellId,
) -> Result<CellId, NoMemory>
    ensures built { (wid : ℕ → ℕ) (n : ℕ) → AreDrafts wid drafts.old → IsDraftOf drafts.old old n → n ≤ 64 → IsDraftOf drafts.old word width → 1 ≤ width → at + width ≤ n
        → IfOk result (λ id. IsBuilt wid drafts.old drafts.new id n (λ sel. part_tree n at width (tree_in sel drafts.old word) (tree_in sel drafts.old old))) }
{
    let all = drafts.width(old);
    let end = at.saturating_add(width);
    let below = part_of(drafts, old, 0, at)?;
    let lower = drafts.above(word, below)?;
    match part_of(drafts, old, end, all.saturating_sub(end))? {
        Some(high) => drafts.add(Cell::Concat { high, low: lower }),
        None => Ok(lower),
    }
}

/// Bits of the word, where there are some.
fn part_of(drafts: &mut Drafts, word: CellId, at: u8, width: u8) -> Result<Option<CellId>, NoMemory>
    ensures part { (wid : ℕ → ℕ) (n : ℕ) → AreDrafts wid drafts.old → IsDraftOf drafts.old word n → at + width ≤ n
        → IfOk result (λ o. IsPart wid drafts.old drafts.new o width (λ sel. SliceTree (tree_in sel drafts.old word) at width)) }
{
    if width == 0 {
        return Ok(None);
    }
    let part = drafts.add(Cell::Slice { a: word, at, width })?;
    Ok(Some(part))
}

/// The old word with another bit at a variable index. Bits that the index can't name stay.
fn with_bit(
    drafts: &mut Drafts,
    old: CellId,
    index: CellId,
    bit: CellId,
) -> Result<CellId, NoMemory>
    ensures built { (wid : ℕ → ℕ) (n m : ℕ) → AreDrafts wid drafts.old → IsDraftOf drafts.old old n → 1 ≤ n → n ≤ 64 → IsDraftOf drafts.old index m → 1 ≤ m → m ≤ 64
        → IsDraftOf drafts.old bit 1
        → IfOk result (λ id. IsBuilt wid drafts.old drafts.new id n
        (λ sel. picked (tree_in sel drafts.old index) m (tree_in sel drafts.old bit) (tree_in sel drafts.old old) n)) }
{
    let mut word = None;
    for at in 0..drafts.width(old) {
        let stays = drafts.add(Cell::Slice {
            a: old,
            at,
            width: 1,
        })?;
        let next = next_bit(drafts, stays, index, at, bit)?;
        word = Some(drafts.above(next, word)?);
    }
    Ok(word.unwrap_or(old))
}

/// The bit at `at`: the new one where the index names it.
fn next_bit(
    drafts: &mut Drafts,
    old: CellId,
    index: CellId,
    at: u8,
    bit: CellId,
) -> Result<CellId, NoMemory>
    ensures built { (wid : ℕ → ℕ) (m : ℕ) → AreDrafts wid drafts.old → IsDraftOf drafts.old old 1 → IsDraftOf drafts.old index m → 1 ≤ m → m ≤ 64 → IsDraftOf drafts.old bit 1
        → IfOk result (λ id. IsBuilt wid drafts.old drafts.new id 1 (λ sel. cond (nat_lt at (2 ^ m))
        (MuxTree (EqTree (tree_in sel drafts.old index) (ConstTree m at)) (tree_in sel drafts.old bit) (tree_in sel drafts.old old)) (tree_in sel drafts.old old))) }
{
    let size = drafts.width(index);
    if u64::from(at) > mask(size) {
        return Ok(old);
    }
    let place = drafts.constant(size, u64::from(at))?;
    let cond = drafts.add(Cell::Eq { a: index, b: place })?;
    drafts.add(Cell::Mux {
        cond,
        yes: bit,
        other: old,
    })
}
