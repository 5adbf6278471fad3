//! The present trees of a process's targets, while it is executed statement by statement.
ghost use Rattle.std.specs.Prelude.{◌≡◌, ℕ, ◌+◌, ◌≤◌, Bool, true, false, cond, not, ◌&&◌, ◌||◌, ◌==◌, [], length, take, drop, slice_set, Option, Some, None, is_some, unwrap_or, option_map, map, replicate, IsSomeAnd, IfOk, OnOk};
ghost use Rattle.std.specs.Option.{option_or};
ghost use Rattle.std.specs.Ordering.{nat_cmp};
ghost use Rattle.std.specs.BTreeMap.{get};
ghost use Rattle.cell_graph.specs.Tree.{Tree};
ghost use Rattle.cdc_base.specs.declared.signal.Signal.{Signal as OneSignal};
ghost use Rattle.flat_meaning.specs.Design.{width_in as signal_width};
ghost use Rattle.flat_meaning.specs.Trees.{Selects, Trees, merge};
ghost use Rattle.driver_trees.specs.Drafts.{AreDrafts};
ghost use Rattle.driver_trees.specs.Growth.{Grows, IsBuilt};
ghost use Rattle.driver_trees.specs.Presents.{width_in, present_of, shown_of, is_target, Sees};
ghost use Rattle.driver_trees.specs.Changes.{first_of, Assigns, IsWordOf, IsProcess, AreChanges, LeavesTrees, IsBranch, IsCondition, chosen};

use crate::draft::Drafts;
use crate::memory::{insert, push};
use cdc_base::{NoMemory, Signal};
use cell_graph::{Cell, CellId};
use std::alloc::Global;
use std::collections::BTreeMap;

/// The signals that a branch assigned, with the trees that they have after it.
pub type Changes = BTreeMap<u32, CellId>;

/// What reads and assignments of one process see.
#[derive(Drop)]
pub struct Present {
    /// The bits of each signal.
    widths: Vec<u8>,
    /// For each target of the process its present tree; None for all other signals.
    trees: Vec<Option<CellId>>,
    /// Whether a target that is read is its present tree; else it is what it was before the process began.
    blocking: bool,
    /// The assignments so far, each with the tree that the target had before.
    log: Vec<(u32, CellId)>,
}

impl Present {
    /// No process: each signal is read as it is.
    pub fn new(alloc: Global, signals: &[Signal]) -> Result<Present, NoMemory>
        ensures widths { IfOk result (λ p. (s : ℕ) → width_in p s ≡ signal_width signals.now s) }
        ensures trees { IfOk result (λ p. (s : ℕ) → present_of p s ≡ None) }
        ensures rest { IfOk result (λ p. (p.blocking ≡ false) × (p.log.items ≡ [])) }
    {
        Ok(Present {
            widths: widths(alloc, signals)?,
            trees: no_trees(alloc, signals.len())?,
            blocking: false,
            log: Vec::new(alloc),
        })
    }

    /// The bits of the signal.
    pub fn width(&self, sig: u32) -> u8
        ensures { result ≡ width_in self.now sig }
    {
        self.widths.get(sig as usize).copied().unwrap_or(0)
    }

    /// The present tree of a target.
    pub fn tree(&self, sig: u32) -> Option<CellId>
        ensures { result ≡ present_of self.now sig }
    {
        self.trees.get(sig as usize).copied().flatten()
    }

    /// Begins a process. Its targets then get their first trees by `start`.
    pub fn begin(&mut self, blocking: bool)
        ensures trees { self.new.trees.items ≡ self.old.trees.items }
        ensures log { self.new.log.items ≡ [] }
        ensures widths { self.new.widths.items ≡ self.old.widths.items }
        ensures blocking { self.new.blocking ≡ blocking }
    {
        self.blocking = blocking;
        self.log.clear();
    }

    /// The tree that a target has when its process begins.
    pub fn start(&mut self, sig: u32, tree: CellId)
        ensures trees { self.new.trees.items ≡ slice_set self.old.trees.items sig (Some tree) }
        ensures log { self.new.log.items ≡ self.old.log.items }
        ensures widths { self.new.widths.items ≡ self.old.widths.items }
        ensures blocking { self.new.blocking ≡ self.old.blocking }
    {
        if let Some(place) = self.trees.get_mut(sig as usize) {
            *place = Some(tree);
        }
    }

    /// Ends the target's process, and gives its last tree.
    pub fn finish(&mut self, sig: u32) -> Option<CellId>
        ensures last { result ≡ present_of self.old sig }
        ensures trees { self.new.trees.items ≡ slice_set self.old.trees.items sig None }
        ensures widths { self.new.widths.items ≡ self.old.widths.items }
        ensures blocking { self.new.blocking ≡ self.old.blocking }
    {
        let last = self.tree(sig);
        if let Some(place) = self.trees.get_mut(sig as usize) {
            *place = None;
        }
        last
    }

    /// What a constant select or a whole read of the signal stands for.
    pub fn read(&self, drafts: &mut Drafts, sig: u32, at: u8, width: u8) -> Result<CellId, NoMemory>
        ensures built { (wid : ℕ → ℕ) (look : Selects → Selects) → AreDrafts wid drafts.old → Sees wid drafts.old self.now look → 1 ≤ width → at + width ≤ wid sig
            → IfOk result (λ id. IsBuilt wid drafts.old drafts.new id width (λ sel. look sel sig at width)) }
    {
        match self.shown(sig) {
            Some(tree) => drafts.cut(tree, at, width),
            None => drafts.read(sig, at, width),
        }
    }

    /// The tree that a read of the signal sees; None where it sees the signal as it is.
    fn shown(&self, sig: u32) -> Option<CellId>
        ensures { result ≡ shown_of self.now sig }
    {
        if self.blocking { self.tree(sig) } else { None }
    }

    /// The whole signal.
    pub fn whole(&self, drafts: &mut Drafts, sig: u32) -> Result<CellId, NoMemory>
        ensures built { (wid : ℕ → ℕ) (look : Selects → Selects) → AreDrafts wid drafts.old → Sees wid drafts.old self.now look → 1 ≤ wid sig
            → IfOk result (λ id. IsBuilt wid drafts.old drafts.new id (wid sig) (λ sel. look sel sig 0 (wid sig))) }
    {
        self.read(drafts, sig, 0, self.width(sig))
    }

    /// Gives a target its next present tree. The log keeps the one before.
    pub fn set(&mut self, sig: u32, tree: CellId) -> Result<(), NoMemory>
        ensures assigns { is_target self.old sig ≡ true → OnOk result (Assigns self.old self.new (λ x. x == sig)) }
        ensures tree { is_target self.old sig ≡ true → OnOk result ((x : ℕ) → present_of self.new x ≡ cond (x == sig) (Some tree) (present_of self.old x)) }
    {
        if let Some(before) = self.tree(sig) {
            push(&mut self.log, (sig, before))?;
            self.start(sig, tree);
        }
        Ok(())
    }

    pub fn set_all(&mut self, changes: &Changes) -> Result<(), NoMemory>
        ensures assigns { ((x : ℕ) → is_some (get nat_cmp changes.now x) ≡ true → is_target self.old x ≡ true)
            → OnOk result (Assigns self.old self.new (λ x. is_some (get nat_cmp changes.now x))) }
        ensures trees { ((x : ℕ) → is_some (get nat_cmp changes.now x) ≡ true → is_target self.old x ≡ true)
            → OnOk result ((x : ℕ) → present_of self.new x ≡ option_or (get nat_cmp changes.now x) (present_of self.old x)) }
    {
        for (sig, tree) in changes {
            self.set(*sig, *tree)?;
        }
        Ok(())
    }

    /// The place of the next assignment, for `take_back`.
    pub fn mark(&self) -> usize
        ensures { result ≡ length self.now.log.items }
    {
        self.log.len()
    }

    /// Undoes the assignments since the mark, and tells what they were.
    pub fn take_back(&mut self, alloc: Global, mark: usize) -> Result<Changes, NoMemory>
        ensures changes { IfOk result (λ changes. (x : ℕ)
            → get nat_cmp changes x ≡ cond (is_some (first_of (drop mark self.old.log.items) x)) (present_of self.old x) None) }
        ensures present { OnOk result ((x : ℕ)
            → present_of self.new x ≡ option_map (unwrap_or (first_of (drop mark self.old.log.items) x)) (present_of self.old x)) }
        ensures log { OnOk result (self.new.log.items ≡ take mark self.old.log.items) }
        ensures widths { self.new.widths.items ≡ self.old.widths.items }
        ensures blocking { self.new.blocking ≡ self.old.blocking }
    {
        let mut changes = BTreeMap::new(alloc);
        for place in mark..self.log.len() {
            if let Some((sig, before)) = self.log.get(place).copied() {
                self.undo(&mut changes, sig, before)?;
            }
        }
        self.log.truncate(mark);
        Ok(changes)
    }

    /// Undoes the assignments to one signal, where the first of them is met. The tree that it has is that of the last.
    fn undo(&mut self, changes: &mut Changes, sig: u32, before: CellId) -> Result<(), NoMemory>
        ensures changes { OnOk result ((x : ℕ) → get nat_cmp changes.new x
            ≡ cond (x == sig) (option_or (get nat_cmp changes.old sig) (present_of self.old sig)) (get nat_cmp changes.old x)) }
        ensures present { OnOk result ((x : ℕ) → present_of self.new x
            ≡ cond (x == sig && not (is_some (get nat_cmp changes.old sig))) (option_map (λ _. before) (present_of self.old sig)) (present_of self.old x)) }
        ensures log { self.new.log.items ≡ self.old.log.items }
        ensures widths { self.new.widths.items ≡ self.old.widths.items }
        ensures blocking { self.new.blocking ≡ self.old.blocking }
    {
        if changes.contains_key(&sig) {
            return Ok(());
        }
        if let Some(tree) = self.tree(sig) {
            insert(changes, sig, tree)?;
            self.start(sig, before);
        }
        Ok(())
    }

    /// What two branches of a condition make together: each target that either assigns is chosen between its trees
    /// after them. Before the branches the targets have their present trees.
    pub fn merged(
        &self,
        alloc: Global,
        drafts: &mut Drafts,
        cond: CellId,
        yes: &Changes,
        other: &Changes,
    ) -> Result<Changes, NoMemory>
        ensures merged { (wid : ℕ → ℕ) (target a b : ℕ → Bool) (t : Selects → Tree) (before ts us : Selects → Trees)
            → IsProcess wid drafts.old self.now target before → IsCondition drafts.old cond t
            → IsBranch wid drafts.old self.now yes.now a ts → IsBranch wid drafts.old self.now other.now b us
            → IfOk result (λ m. Grows wid drafts.old drafts.new
            × IsBranch wid drafts.new self.now m (λ x. a x || b x) (λ sel. merge (λ x. a x || b x) (t sel) (ts sel) (us sel) (before sel))) }
    {
        let mut merged = BTreeMap::new(alloc);
        self.choose(drafts, cond, yes, other, yes, &mut merged)?;
        self.choose(drafts, cond, yes, other, other, &mut merged)?;
        Ok(merged)
    }

    /// Adds the choices for the signals of `some`, one of both branches.
    fn choose(
        &self,
        drafts: &mut Drafts,
        cond: CellId,
        yes: &Changes,
        other: &Changes,
        some: &Changes,
        merged: &mut Changes,
    ) -> Result<(), NoMemory>
        ensures chosen { (wid : ℕ → ℕ) (p : ℕ → Bool) (t : Selects → Tree) (ts us : Selects → Trees)
            → AreDrafts wid drafts.old → IsCondition drafts.old cond t
            → LeavesTrees wid drafts.old self.now yes.now ts → LeavesTrees wid drafts.old self.now other.now us
            → ((x : ℕ) → is_some (get nat_cmp some.now x) ≡ true → is_target self.now x ≡ true)
            → AreChanges wid drafts.old merged.old p (chosen t ts us)
            → OnOk result (Grows wid drafts.old drafts.new
            × AreChanges wid drafts.new merged.new (λ x. p x || is_some (get nat_cmp some.now x)) (chosen t ts us)) }
    {
        for (sig, _) in some {
            if !merged.contains_key(sig) {
                if let Some(tree) = self.choice(drafts, cond, yes, other, *sig)? {
                    insert(merged, *sig, tree)?;
                }
            }
        }
        Ok(())
    }

    /// The signal's tree after either branch. One that doesn't assign it leaves it its present tree.
    fn choice(
        &self,
        drafts: &mut Drafts,
        cond: CellId,
        yes: &Changes,
        other: &Changes,
        sig: u32,
    ) -> Result<Option<CellId>, NoMemory>
        ensures chosen { (wid : ℕ → ℕ) (t : Selects → Tree) (ts us : Selects → Trees)
            → AreDrafts wid drafts.old → IsCondition drafts.old cond t
            → LeavesTrees wid drafts.old self.now yes.now ts → LeavesTrees wid drafts.old self.now other.now us
            → is_target self.now sig ≡ true
            → IfOk result (λ o. Grows wid drafts.old drafts.new × IsSomeAnd o (λ id. IsWordOf wid drafts.new id sig (chosen t ts us))) }
    {
        let before = self.tree(sig);
        let yes = yes.get(&sig).copied().or(before);
        let other = other.get(&sig).copied().or(before);
        match (yes, other) {
            (Some(yes), Some(other)) => Ok(Some(drafts.add(Cell::Mux { cond, yes, other })?)),
            _ => Ok(None),
        }
    }
}

fn widths(alloc: Global, signals: &[Signal]) -> Result<Vec<u8>, NoMemory>
    ensures { IfOk result (λ widths. widths.items ≡ map (λ (x : OneSignal). x.width) signals.now) }
{
    let mut widths = Vec::new(alloc);
    for signal in signals {
        push(&mut widths, signal.width)?;
    }
    Ok(widths)
}

fn no_trees(alloc: Global, count: usize) -> Result<Vec<Option<CellId>>, NoMemory>
    ensures { IfOk result (λ trees. trees.items ≡ replicate count None) }
{
    match vec![in alloc; None; count] {
        Ok(trees) => Ok(trees),
        Err(_) => Err(NoMemory),
    }
}
