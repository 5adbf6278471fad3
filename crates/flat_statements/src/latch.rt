//! Latches: bits that a process of wires doesn't assign on each of its paths, or reads before it assigns them.
ghost use Rattle.std.specs.Prelude.{◌≡◌, ℕ, ◌<◌, ◌≤◌, Bool, true, false, not, ◌&&◌, ◌||◌, min, map, length, IfOk};
ghost use Rattle.std.specs.Option.{option_map_or};
ghost use Rattle.flat_meaning.specs.Flat.{Stmt, Set as set_of, If as if_of};
ghost use Rattle.flat_meaning.specs.Design.{width_in};
ghost use Rattle.flat_meaning.specs.Assigned.{surely, surely_all, covers, cover};
ghost use Rattle.flat_meaning.specs.Deps.{Bits};
ghost use Rattle.flat_form.specs.View.{expr_of, target_of, targets_of, stmt_of, stmts_of};
ghost use Rattle.flat_form.specs.Masks.{bits_in, Adds};
ghost use Rattle.flat_form.specs.Uses.{without};
ghost use Rattle.flat_meaning.specs.Law.{expr_reads};
ghost use Rattle.flat_unfolding.specs.Reads.{early, early_all, first_from};
ghost use Rattle.flat_statements.specs.Statements.{items_in, IsFull, AreFull, AreItemsFull};
ghost use Rattle.flat_statements.specs.Latches.{IsPaths, IsPathsOf, behind, AreBranches, some_bit, open_bits, sure_if, early_if, latch_in, IsWithin};

use cdc_base::{NoMemory, Signal};
use flat_form::flat::{FCaseItem, FExpr, FStmt, FTarget};
use flat_form::masks::Masks;
use flat_form::uses::{add_assigned, add_may_assign, add_reads, add_reads_of, add_target_reads};
use std::alloc::Global;

/// What holds on all paths through a statement: `surely` are the bits that each path assigns, and `exposed` those that
/// some path reads without having assigned them.
#[derive(Drop)]
struct Paths {
    surely: Masks,
    exposed: Masks,
}

impl Paths {
    fn new(alloc: Global) -> Paths
        ensures surely { (s i : ℕ) → bits_in result.surely s i ≡ false }
        ensures exposed { (s i : ℕ) → bits_in result.exposed s i ≡ false }
    {
        Paths {
            surely: Masks::new(alloc),
            exposed: Masks::new(alloc),
        }
    }

    /// The paths go on through another statement.
    fn then(&mut self, next: &Paths) -> Result<(), NoMemory>
        ensures surely { IfOk result (λ _. Adds self.old.surely self.new.surely (bits_in next.now.surely)) }
        ensures exposed { IfOk result (λ _. Adds self.old.exposed self.new.exposed (without (bits_in self.old.surely) (bits_in next.now.exposed))) }
    {
        self.exposed.add_all_but(&next.exposed, &self.surely)?;
        self.surely.add_all(&next.surely)
    }

    /// The paths go through another statement in place of this one.
    fn or(&mut self, alloc: Global, other: &Paths) -> Result<(), NoMemory>
        ensures surely { IfOk result (λ _. (s i : ℕ) → i < 64 → bits_in self.new.surely s i ≡ (bits_in self.old.surely s i && bits_in other.now.surely s i)) }
        ensures exposed { IfOk result (λ _. Adds self.old.exposed self.new.exposed (bits_in other.now.exposed)) }
    {
        self.exposed.add_all(&other.exposed)?;
        self.surely = self.surely.common(alloc, &other.surely)?;
        Ok(())
    }
}

/// The first signal with a bit that a process of wires may assign, and that it leaves out on some path or reads before.
pub fn first_latch(alloc: Global, signals: &[Signal], body: &FStmt) -> Result<Option<u32>, NoMemory>
    ensures { ((s : ℕ) → width_in signals.now s ≤ 64) → IsFull (stmt_of body.now) → IsWithin (width_in signals.now) (stmt_of body.now)
        → IfOk result (λ o. o ≡ latch_in (width_in signals.now) (stmt_of body.now) (length signals.now)) }
{
    let mut may = Masks::new(alloc);
    add_may_assign(signals, body, &mut may)?;
    let paths = statement_paths(alloc, signals, body)?;
    Ok(first_open(&may, &paths))
}

/// The first signal with a bit that may be assigned and isn't kept from being a latch, where no signal from the n-th on
/// may be assigned.
fn first_open(may: &Masks, paths: &Paths) -> Option<u32>
    ensures { (n : ℕ) → ((s i : ℕ) → i < 64 → bits_in may.now s i ≡ true → s < n) → result ≡ first_from (λ s. some_bit (open_bits may.now paths.now s)) 0 n }
{
    let mut first = None;
    for sig in may.signals() {
        if is_open(may, paths, *sig) {
            first = Some(least(first, *sig));
        }
    }
    first
}

/// Whether a bit of the signal may be assigned and isn't kept from being a latch.
fn is_open(may: &Masks, paths: &Paths, sig: u32) -> bool
    ensures { result ≡ some_bit (open_bits may.now paths.now sig) }
{
    let kept = paths.surely.of(sig) & !paths.exposed.of(sig);
    may.of(sig) & !kept != 0
}

/// The signal, or the one that was found first if that is less.
fn least(first: Option<u32>, sig: u32) -> u32
    ensures { result ≡ option_map_or (λ f. min f sig) first sig }
{
    match first {
        Some(first) => first.min(sig),
        None => sig,
    }
}

#[cycle(statement_paths)]
fn statement_paths(alloc: Global, signals: &[Signal], stmt: &FStmt) -> Result<Paths, NoMemory>
    ensures { IsFull (stmt_of stmt.now) → IfOk result (IsPathsOf (width_in signals.now) (stmt_of stmt.now)) }
{
    match stmt {
        FStmt::Null => Ok(Paths::new(alloc)),
        FStmt::Set { target, value, .. } => assignment_paths(alloc, signals, target, value),
        FStmt::If { cond, yes, other } => {
            let yes = statement_paths(alloc, signals, yes)?;
            match other {
                Some(other) => {
                    let other = statement_paths(alloc, signals, other)?;
                    chosen_paths(alloc, signals, cond, yes, &other)
                }
                None => chosen_paths(alloc, signals, cond, yes, &Paths::new(alloc)),
            }
        }
        FStmt::Case {
            subject,
            items,
            default,
        } => {
            let branches = item_paths(alloc, signals, items.as_slice())?;
            match default {
                Some(default) => {
                    let default = statement_paths(alloc, signals, default)?;
                    let all = either(alloc, branches, default)?;
                    behind_reads(signals, subject, all)
                }
                None => behind_reads(signals, subject, branches.unwrap_or(Paths::new(alloc))),
            }
        }
        FStmt::Block(stmts) => block_paths(alloc, signals, stmts.as_slice()),
    }
}

fn assignment_paths(
    alloc: Global,
    signals: &[Signal],
    target: &FTarget,
    value: &FExpr,
) -> Result<Paths, NoMemory>
    ensures { IfOk result (λ p. (b : Bool) → IsPathsOf (width_in signals.now) (set_of b (target_of target.now) (expr_of value.now)) p) }
{
    let mut paths = Paths::new(alloc);
    add_reads(signals, value, &mut paths.exposed)?;
    add_target_reads(signals, target, &mut paths.exposed)?;
    add_surely(signals, target, &mut paths.surely)?;
    Ok(paths)
}

/// The paths through an `if`.
fn chosen_paths(
    alloc: Global,
    signals: &[Signal],
    cond: &FExpr,
    yes: Paths,
    other: &Paths,
) -> Result<Paths, NoMemory>
    ensures { (x y : Stmt) → IsPathsOf (width_in signals.now) x yes → IsPathsOf (width_in signals.now) y other.now
        → IfOk result (IsPathsOf (width_in signals.now) (if_of (expr_of cond.now) x y)) }
{
    let mut all = yes;
    all.or(alloc, other)?;
    behind_reads(signals, cond, all)
}

/// The paths behind an expression that is read first.
fn behind_reads(signals: &[Signal], expr: &FExpr, paths: Paths) -> Result<Paths, NoMemory>
    ensures { (sure early : Bits → Bits) → IsPaths sure early paths → IfOk result (IsPaths sure (behind (expr_reads (width_in signals.now) (expr_of expr.now)) early)) }
{
    let mut paths = paths;
    add_reads(signals, expr, &mut paths.exposed)?;
    Ok(paths)
}

#[cycle(statement_paths)]
fn block_paths(alloc: Global, signals: &[Signal], stmts: &[FStmt]) -> Result<Paths, NoMemory>
    ensures { AreFull (stmts_of (map stmt_of stmts.now))
        → IfOk result (λ p. IsPaths (surely_all (width_in signals.now) (stmts_of (map stmt_of stmts.now))) (early_all (width_in signals.now) (stmts_of (map stmt_of stmts.now))) p) }
{
    let mut all = Paths::new(alloc);
    for stmt in stmts {
        let next = statement_paths(alloc, signals, stmt)?;
        all.then(&next)?;
    }
    Ok(all)
}

/// The paths through the items of a `case`, which read all labels.
#[cycle(statement_paths)]
fn item_paths(
    alloc: Global,
    signals: &[Signal],
    items: &[FCaseItem],
) -> Result<Option<Paths>, NoMemory>
    ensures { AreItemsFull (items_in items.now) → IfOk result (λ o. AreBranches (width_in signals.now) (items_in items.now) o) }
{
    let mut all = None;
    for item in items {
        let mut next = statement_paths(alloc, signals, &item.body)?;
        add_reads_of(signals, item.labels.as_slice(), &mut next.exposed)?;
        all = Some(either(alloc, all, next)?);
    }
    Ok(all)
}

/// The paths through one item or another. Before the first item there are none.
fn either(alloc: Global, before: Option<Paths>, next: Paths) -> Result<Paths, NoMemory>
    ensures surely { IfOk result (λ p. (d : Bits) (s i : ℕ) → i < 64 → (bits_in p.surely s i || d s i) ≡ (sure_if before d s i && (bits_in next.surely s i || d s i))) }
    ensures exposed { IfOk result (λ p. (d : Bits) (s i : ℕ) → i < 64 → (bits_in p.exposed s i && not (d s i)) ≡ (early_if before d s i || (bits_in next.exposed s i && not (d s i)))) }
{
    match before {
        None => Ok(next),
        Some(mut all) => {
            all.or(alloc, &next)?;
            Ok(all)
        }
    }
}

/// Adds the bits that an assignment to the target assigns surely. A variable index assigns none so.
#[cycle(add_surely)]
fn add_surely(signals: &[Signal], target: &FTarget, surely: &mut Masks) -> Result<(), NoMemory>
    ensures { IfOk result (λ _. Adds surely.old surely.new (covers (width_in signals.now) (target_of target.now))) }
{
    match target {
        FTarget::Whole { .. } | FTarget::Part { .. } => add_assigned(signals, target, surely),
        FTarget::At { .. } => Ok(()),
        FTarget::Join(parts) => add_surely_of(signals, parts.as_slice(), surely),
    }
}

#[cycle(add_surely)]
fn add_surely_of(
    signals: &[Signal],
    targets: &[FTarget],
    surely: &mut Masks,
) -> Result<(), NoMemory>
    ensures { IfOk result (λ _. Adds surely.old surely.new (cover (width_in signals.now) (targets_of (map target_of targets.now)))) }
{
    for target in targets {
        add_surely(signals, target, surely)?;
    }
    Ok(())
}
