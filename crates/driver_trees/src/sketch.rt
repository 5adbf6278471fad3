//! A design's drivers as drafts: which bits of which signal are driven by which tree.
ghost use Rattle.std.specs.Prelude.{◌≡◌, ℕ, ◌+◌, ◌*◌, ◌<◌, ◌≤◌, Bool, true, false, cond, ◌&&◌, ◌||◌, ◌==◌, List, [], ◌∷◌, ◌++◌, IfOk, OnOk, All, map, length, vec_len, Some, None, is_some, option_map, unwrap_or, slice_get};
ghost use Rattle.std.specs.List.{AllByRecursion as Each};
ghost use Rattle.std.specs.Option.{option_or};
ghost use Rattle.std.specs.Ordering.{nat_cmp};
ghost use Rattle.std.specs.BTreeMap.{get};
ghost use Rattle.cell_graph.specs.Nets.{is_register as register_kind, register_signals};
ghost use Rattle.cell_graph.specs.Tree.{bit_at};
ghost use Rattle.flat_form.specs.Sizes.{IsWellSized};
ghost use Rattle.flat_form.specs.View.{flat_of, target_of, expr_of, stmt_of};
ghost use Rattle.flat_meaning.specs.Flat.{Stmt, assigns};
ghost use Rattle.flat_meaning.specs.Trees.{Selects, Trees, value_tree, after};
ghost use Rattle.flat_meaning.specs.Assigned.{Done, may_assign};
ghost use Rattle.flat_meaning.specs.Law.{AreWords};
ghost use Rattle.flat_meaning.specs.Pieces.{pieces as target_pieces, comb_pieces, assigned_pieces, all_comb_pieces, run_pieces, runs as longest_runs};
ghost use Rattle.flat_meaning.specs.Design.{width_in as signal_width, size_in};
ghost use Rattle.flat_meaning.specs.Sound.{IsSound};
ghost use Rattle.flat_meaning.specs.SignalTrees.{pieces_of as signal_pieces};
ghost use Rattle.driver_trees.specs.declared.sketch.Register.{Register as RegisterDraft};
ghost use Rattle.driver_trees.specs.declared.draft.Draft.{Draft as OneDraft};
ghost use Rattle.cdc_base.specs.declared.signal.Signal.{Signal as OneSignal};
ghost use Rattle.cell_graph.specs.declared.cell.CellId.{CellId as Id};
ghost use Rattle.flat_form.specs.declared.flat.FlatComb.{FlatComb as CombForm};
ghost use Rattle.flat_form.specs.declared.flat.FlatClocked.{FlatClocked as ClockedForm};
ghost use Rattle.driver_trees.specs.Drafts.{tree_in, width_at, AreDrafts, IsDraftOf};
ghost use Rattle.driver_trees.specs.Growth.{Grows, IsBuilt};
ghost use Rattle.driver_trees.specs.Presents.{width_in, present_of};
ghost use Rattle.driver_trees.specs.Changes.{IsProcess, IsWordOf, look_of};
ghost use Rattle.driver_trees.specs.Shares.{Share, put_share, IsPut, ArePuts};
ghost use Rattle.driver_trees.specs.Statements.{IsStmtRead};
ghost use Rattle.driver_trees.specs.Collected.{has_bit, run_of, IsRunIn};
ghost use Rattle.driver_trees.specs.Sketched.{drafted_piece, IsIdle, Driven, ArePieces, IsAssignRead, assign_of, share_pieces, begin_tree, AreNexts, IsNext, IsRegisterOf, next_in, clock_in, givers_in, clock_at, given_by};
ghost use Rattle.driver_trees.specs.Sketches.{IsSketchOf, AreOrdered};

use crate::assigned::{Assigned, collect};
use crate::draft::Drafts;
use crate::mask::{Run, runs};
use crate::memory::{insert, numbered, push};
use crate::present::Present;
use crate::process::run;
use crate::shared::{Giver, next_tree};
use crate::target::{Put, Spot, puts};
use cdc_base::{NoMemory, SigKind, Signal};
use cell_graph::CellId;
use flat_form::{FStmt, Flat, FlatAssign, FlatClocked, FlatComb};
use std::alloc::Global;
use std::collections::BTreeMap;

/// The bits of a signal that one driver gives it in one run: `width` bits from `at` on are those of `tree` from
/// `inside` on.
#[derive(Clone, Copy, PartialEq, Eq, PartialOrd, Ord, Debug, Drop)]
pub struct Piece {
    pub sig: u32,
    pub at: u8,
    pub width: u8,
    pub tree: CellId,
    pub inside: u8,
}

/// A register's next value and its clock.
#[derive(Clone, Copy, Drop)]
pub struct Register {
    pub sig: u32,
    pub next: CellId,
    pub clock: CellId,
}

/// All drivers of a design. `pieces` are ordered by signal, then place; `registers` by signal; `outputs` are the trees
/// of the top's outputs.
#[derive(Drop)]
pub struct Sketch {
    pub drafts: Drafts,
    pub pieces: Vec<Piece>,
    pub registers: Vec<Register>,
    pub outputs: Vec<CellId>,
}

/// What the processes that assign a register give it, and their clock.
#[derive(Drop)]
struct Next {
    clock: CellId,
    givers: Vec<Giver>,
}

/// The registers that processes assign.
type Nexts = BTreeMap<u32, Next>;

impl Sketch {
    /// The drivers of the design.
    pub fn of(alloc: Global, flat: &Flat) -> Result<Sketch, NoMemory>
        ensures registers { IfOk result (λ s. map (λ (r : RegisterDraft). r.sig) s.registers.items ≡ register_signals 0 flat.now.signals) }
        ensures exact { IsWellSized flat.now → IsSound (flat_of flat.now) → IfOk result (λ s. IsSketchOf (flat_of flat.now) s.drafts s) }
        ensures outputs { IfOk result (λ s. vec_len s.outputs ≡ length flat.now.outputs) }
    {
        let signals = flat.signals.as_slice();
        let mut drafts = Drafts::new(alloc);
        let mut present = Present::new(alloc, signals)?;
        let pieces = pieces(alloc, &mut drafts, &mut present, flat)?;
        let nexts = all_nexts(alloc, &mut drafts, &mut present, flat.clocked.as_slice())?;
        let registers = registers(alloc, &mut drafts, signals, &nexts)?;
        let outputs = outputs(alloc, &mut drafts, &present, flat.outputs.as_slice())?;
        Ok(Sketch {
            drafts,
            pieces,
            registers,
            outputs,
        })
    }
}

/// The pieces that assignments and processes of wires drive, by signal and place.
fn pieces(
    alloc: Global,
    drafts: &mut Drafts,
    present: &mut Present,
    flat: &Flat,
) -> Result<Vec<Piece>, NoMemory>
    ensures exact { IsWellSized flat.now → IsSound (flat_of flat.now) → AreDrafts (size_in (flat_of flat.now)) drafts.old → IsIdle (size_in (flat_of flat.now)) present.old
        → IfOk result (λ ps. Grows (size_in (flat_of flat.now)) drafts.old drafts.new × IsIdle (size_in (flat_of flat.now)) present.new
        × ArePieces drafts.new ps.items (signal_pieces (flat_of flat.now)) × AreOrdered ps.items) }
{
    let mut pieces = Vec::new(alloc);
    add_assigns(alloc, drafts, present, flat.assigns.as_slice(), &mut pieces)?;
    add_combs(alloc, drafts, present, flat.combs.as_slice(), &mut pieces)?;
    pieces.sort_unstable_by_key(|piece| place_of(piece));
    Ok(pieces)
}

/// Ascends by signal, and in each by place.
fn place_of(piece: &Piece) -> u64
    ensures { result ≡ piece.now.sig * 256 + piece.now.at }
{
    u64::from(piece.sig) * 256 + u64::from(piece.at)
}

fn add_assigns(
    alloc: Global,
    drafts: &mut Drafts,
    present: &Present,
    assigns: &[FlatAssign],
    pieces: &mut Vec<Piece>,
) -> Result<(), NoMemory>
    ensures adds { (wid : ℕ → ℕ) (before : Driven) → AreDrafts wid drafts.old → IsIdle wid present.now → Each (IsAssignRead wid) assigns.now → ArePieces drafts.old pieces.old.items before
        → OnOk result (Grows wid drafts.old drafts.new × ArePieces drafts.new pieces.new.items (λ sel x. before sel x ++ assigned_pieces wid sel x (map assign_of assigns.now))) }
{
    for assign in assigns {
        add_assign(alloc, drafts, present, assign, pieces)?;
    }
    Ok(())
}

fn add_assign(
    alloc: Global,
    drafts: &mut Drafts,
    present: &Present,
    assign: &FlatAssign,
    pieces: &mut Vec<Piece>,
) -> Result<(), NoMemory>
    ensures adds { (wid : ℕ → ℕ) (before : Driven) → AreDrafts wid drafts.old → IsIdle wid present.now → IsAssignRead wid assign.now → ArePieces drafts.old pieces.old.items before
        → OnOk result (Grows wid drafts.old drafts.new × ArePieces drafts.new pieces.new.items
        (λ sel x. before sel x ++ target_pieces wid x (target_of assign.now.target) (value_tree wid sel (target_of assign.now.target) (expr_of assign.now.value)))) }
{
    let puts = puts(alloc, drafts, present, &assign.target, &assign.value)?;
    add_puts(present, puts.as_slice(), pieces)
}

/// Adds what the words drive.
fn add_puts(present: &Present, puts: &[Put], pieces: &mut Vec<Piece>) -> Result<(), NoMemory>
    ensures adds { (wid : ℕ → ℕ) (ds : List OneDraft) (ss : Selects → List Share) (before : Driven) → ((s : ℕ) → width_in present.now s ≡ wid s) → ArePuts wid ds puts.now ss → ArePieces ds pieces.old.items before
        → OnOk result (ArePieces ds pieces.new.items (λ sel x. before sel x ++ share_pieces wid x (ss sel))) }
{
    for put in puts {
        add_put(present, *put, pieces)?;
    }
    Ok(())
}

/// Adds what the word drives: nothing at a variable index, which no flat design assigns outside processes.
fn add_put(present: &Present, put: Put, pieces: &mut Vec<Piece>) -> Result<(), NoMemory>
    ensures adds { (wid : ℕ → ℕ) (ds : List OneDraft) (before : Driven) → ((s : ℕ) → width_in present.now s ≡ wid s) → IsPut wid ds put → ArePieces ds pieces.old.items before
        → OnOk result (ArePieces ds pieces.new.items (λ sel x. before sel x ++ share_pieces wid x (put_share sel ds put ∷ []))) }
{
    match put.spot {
        Spot::Whole => push(pieces, word_piece(put, 0, present.width(put.sig))),
        Spot::Part { at, width } => push(pieces, word_piece(put, at, width)),
        Spot::Chosen { .. } => Ok(()),
    }
}

fn word_piece(put: Put, at: u8, width: u8) -> Piece
    ensures { result ≡ drafted_piece put at width }
{
    Piece {
        sig: put.sig,
        at,
        width,
        tree: put.tree,
        inside: 0,
    }
}

fn add_combs(
    alloc: Global,
    drafts: &mut Drafts,
    present: &mut Present,
    processes: &[FlatComb],
    pieces: &mut Vec<Piece>,
) -> Result<(), NoMemory>
    ensures adds { (wid : ℕ → ℕ) (before : Driven) → AreDrafts wid drafts.old → IsIdle wid present.old → Each (λ (p : CombForm). IsStmtRead wid p.body) processes.now → ArePieces drafts.old pieces.old.items before
        → OnOk result (Grows wid drafts.old drafts.new × IsIdle wid present.new
        × ArePieces drafts.new pieces.new.items (λ sel x. before sel x ++ all_comb_pieces wid sel x (map (λ (p : CombForm). stmt_of p.body) processes.now))) }
{
    for process in processes {
        add_comb(alloc, drafts, present, process, pieces)?;
    }
    Ok(())
}

/// A process of wires. Each run of bits that it may assign is a piece of the signal's last tree.
fn add_comb(
    alloc: Global,
    drafts: &mut Drafts,
    present: &mut Present,
    process: &FlatComb,
    pieces: &mut Vec<Piece>,
) -> Result<(), NoMemory>
    ensures adds { (wid : ℕ → ℕ) (before : Driven) → AreDrafts wid drafts.old → IsIdle wid present.old → IsStmtRead wid process.now.body → ArePieces drafts.old pieces.old.items before
        → OnOk result (Grows wid drafts.old drafts.new × IsIdle wid present.new
        × ArePieces drafts.new pieces.new.items (λ sel x. before sel x ++ comb_pieces wid sel x (stmt_of process.now.body))) }
{
    let assigned = execute(alloc, drafts, present, &process.body, true)?;
    add_wires(alloc, present, &assigned, pieces)
}

/// Executes a process whose signals have no trees yet, and tells what it may assign.
fn execute(
    alloc: Global,
    drafts: &mut Drafts,
    present: &mut Present,
    body: &FStmt,
    blocking: bool,
) -> Result<Assigned, NoMemory>
    ensures executes { (wid : ℕ → ℕ) → AreDrafts wid drafts.old → IsIdle wid present.old → IsStmtRead wid body.now
        → IfOk result (λ m. Grows wid drafts.old drafts.new
        × IsProcess wid drafts.new present.new (assigns (stmt_of body.now)) (λ sel. after wid (look_of wid blocking (assigns (stmt_of body.now)) sel) (stmt_of body.now) (begin_tree blocking (assigns (stmt_of body.now)) wid sel))
        × ((x : ℕ) → is_some (get nat_cmp m x) ≡ assigns (stmt_of body.now) x)
        × ((x i : ℕ) → i < 64 → has_bit m x i ≡ may_assign wid (stmt_of body.now) x i)) }
{
    let mut assigned = BTreeMap::new(alloc);
    collect(present, body, &mut assigned)?;
    begin(drafts, present, &assigned, blocking)?;
    run(alloc, drafts, present, body)?;
    Ok(assigned)
}

/// Begins a process that assigns those signals.
fn begin(
    drafts: &mut Drafts,
    present: &mut Present,
    assigned: &Assigned,
    blocking: bool,
) -> Result<(), NoMemory>
    ensures begins { (wid : ℕ → ℕ) → AreDrafts wid drafts.old → IsIdle wid present.old
        → OnOk result (Grows wid drafts.old drafts.new
        × IsProcess wid drafts.new present.new (λ x. is_some (get nat_cmp assigned.now x)) (begin_tree blocking (λ x. is_some (get nat_cmp assigned.now x)) wid)) }
    ensures blocking { OnOk result (present.new.blocking ≡ blocking) }
{
    present.begin(blocking);
    for (sig, _) in assigned {
        start(drafts, present, *sig, blocking)?;
    }
    Ok(())
}

/// Gives a signal the tree with which its process begins: a wire's is zero, a register's is its own.
fn start(
    drafts: &mut Drafts,
    present: &mut Present,
    sig: u32,
    blocking: bool,
) -> Result<(), NoMemory>
    ensures starts { (wid : ℕ → ℕ) (target done : ℕ → Bool) → IsProcess wid drafts.old present.old done (begin_tree blocking target wid) → target sig ≡ true
        → OnOk result (Grows wid drafts.old drafts.new × IsProcess wid drafts.new present.new (λ x. done x || (x == sig)) (begin_tree blocking target wid)) }
    ensures blocking { present.new.blocking ≡ present.old.blocking }
{
    let width = known_width(present, sig)?;
    let tree = first_tree(drafts, sig, width, blocking)?;
    place(present, sig, tree)
}

fn first_tree(drafts: &mut Drafts, sig: u32, width: u8, blocking: bool) -> Result<CellId, NoMemory>
    ensures first { (wid : ℕ → ℕ) (target : ℕ → Bool) → AreDrafts wid drafts.old → 1 ≤ width → width ≡ wid sig → wid sig ≤ 64 → target sig ≡ true
        → IfOk result (λ id. IsBuilt wid drafts.old drafts.new id (wid sig) (λ sel. begin_tree blocking target wid sel sig)) }
{
    if blocking {
        drafts.constant(width, 0)
    } else {
        drafts.read(sig, 0, width)
    }
}

/// The bits of a signal. One that isn't there counts as want of memory.
fn known_width(present: &Present, sig: u32) -> Result<u8, NoMemory>
    ensures { IfOk result (λ width. (width ≡ width_in present.now sig) × (1 ≤ width)) }
{
    let width = present.width(sig);
    if width == 0 {
        return Err(NoMemory);
    }
    Ok(width)
}

/// Gives a signal its present tree. One that has no place counts as want of memory.
fn place(present: &mut Present, sig: u32, tree: CellId) -> Result<(), NoMemory>
    ensures trees { OnOk result ((x : ℕ) → present_of present.new x ≡ cond (x == sig) (Some tree) (present_of present.old x)) }
    ensures widths { present.new.widths.items ≡ present.old.widths.items }
    ensures blocking { present.new.blocking ≡ present.old.blocking }
{
    present.start(sig, tree);
    match present.tree(sig) {
        Some(_) => Ok(()),
        None => Err(NoMemory),
    }
}

/// Ends a process of wires: what it may assign are pieces of their last trees.
fn add_wires(
    alloc: Global,
    present: &mut Present,
    assigned: &Assigned,
    pieces: &mut Vec<Piece>,
) -> Result<(), NoMemory>
    ensures adds { (wid : ℕ → ℕ) (ds : List OneDraft) (target : ℕ → Bool) (ts : Selects → Trees) (may : Done) (before : Driven) → IsProcess wid ds present.old target ts
        → ((x : ℕ) → is_some (get nat_cmp assigned.now x) ≡ target x) → ((x i : ℕ) → i < 64 → has_bit assigned.now x i ≡ may x i)
        → ((x i : ℕ) → may x i ≡ true → i < wid x) → ((x i : ℕ) → target x ≡ false → may x i ≡ false) → ArePieces ds pieces.old.items before
        → OnOk result (IsIdle wid present.new × ArePieces ds pieces.new.items (λ sel x. before sel x ++ run_pieces (wid x) (ts sel x) (longest_runs (may x) (wid x) []))) }
{
    for (sig, bits) in assigned {
        add_wire(alloc, present, *sig, *bits, pieces)?;
    }
    Ok(())
}

fn add_wire(
    alloc: Global,
    present: &mut Present,
    sig: u32,
    bits: u64,
    pieces: &mut Vec<Piece>,
) -> Result<(), NoMemory>
    ensures adds { (wid : ℕ → ℕ) (ds : List OneDraft) (ts : Selects → Trees) (set : ℕ → Bool) (before : Driven) → wid sig ≤ 64 → ((id : Id) → present_of present.old sig ≡ Some id → IsWordOf wid ds id sig ts)
        → ((i : ℕ) → i < 64 → bit_at bits i ≡ set i) → ((i : ℕ) → set i ≡ true → i < wid sig) → ArePieces ds pieces.old.items before
        → OnOk result (ArePieces ds pieces.new.items (λ sel x. before sel x ++ cond (is_some (present_of present.old sig) && (x == sig)) (run_pieces (wid sig) (ts sel sig) (longest_runs set (wid sig) [])) [])) }
    ensures trees { (x : ℕ) → present_of present.new x ≡ cond (x == sig) None (present_of present.old x) }
    ensures widths { present.new.widths.items ≡ present.old.widths.items }
{
    match finish(present, sig) {
        Some(tree) => add_runs(alloc, sig, bits, tree, pieces),
        None => Ok(()),
    }
}

/// Takes the signal's last tree.
fn finish(present: &mut Present, sig: u32) -> Option<CellId>
    ensures last { result ≡ present_of present.old sig }
    ensures trees { (x : ℕ) → present_of present.new x ≡ cond (x == sig) None (present_of present.old x) }
    ensures widths { present.new.widths.items ≡ present.old.widths.items }
{
    present.finish(sig)
}

fn add_runs(
    alloc: Global,
    sig: u32,
    bits: u64,
    tree: CellId,
    pieces: &mut Vec<Piece>,
) -> Result<(), NoMemory>
    ensures adds { (wid : ℕ → ℕ) (ds : List OneDraft) (ts : Selects → Trees) (set : ℕ → Bool) (before : Driven) → wid sig ≤ 64 → IsWordOf wid ds tree sig ts
        → ((i : ℕ) → i < 64 → bit_at bits i ≡ set i) → ((i : ℕ) → set i ≡ true → i < wid sig) → ArePieces ds pieces.old.items before
        → OnOk result (ArePieces ds pieces.new.items (λ sel x. before sel x ++ cond (x == sig) (run_pieces (wid sig) (ts sel sig) (longest_runs set (wid sig) [])) [])) }
{
    let runs = runs(alloc, bits)?;
    add_all_runs(sig, tree, runs.as_slice(), pieces)
}

fn add_all_runs(
    sig: u32,
    tree: CellId,
    runs: &[Run],
    pieces: &mut Vec<Piece>,
) -> Result<(), NoMemory>
    ensures adds { (wid : ℕ → ℕ) (ds : List OneDraft) (ts : Selects → Trees) (before : Driven) → IsWordOf wid ds tree sig ts → Each (IsRunIn (wid sig)) (map run_of runs.now) → ArePieces ds pieces.old.items before
        → OnOk result (ArePieces ds pieces.new.items (λ sel x. before sel x ++ cond (x == sig) (run_pieces (wid sig) (ts sel sig) (map run_of runs.now)) [])) }
{
    for run in runs {
        let piece = Piece {
            sig,
            at: run.at,
            width: run.width,
            tree,
            inside: run.at,
        };
        push(pieces, piece)?;
    }
    Ok(())
}

/// What all processes give their registers, and the clocks of these.
fn all_nexts(
    alloc: Global,
    drafts: &mut Drafts,
    present: &mut Present,
    processes: &[FlatClocked],
) -> Result<Nexts, NoMemory>
    ensures nexts { (wid : ℕ → ℕ) → AreDrafts wid drafts.old → IsIdle wid present.old → Each (λ (p : ClockedForm). IsStmtRead wid p.body × (1 ≤ wid p.clock)) processes.now
        → IfOk result (λ m. Grows wid drafts.old drafts.new × IsIdle wid present.new × AreNexts wid drafts.new m (map (λ (p : ClockedForm). (p.clock, stmt_of p.body)) processes.now)) }
{
    let mut nexts = BTreeMap::new(alloc);
    for process in processes {
        add_clocked(alloc, drafts, present, process, &mut nexts)?;
    }
    Ok(nexts)
}

/// A clocked process. A register begins it with its own value.
fn add_clocked(
    alloc: Global,
    drafts: &mut Drafts,
    present: &mut Present,
    process: &FlatClocked,
    nexts: &mut Nexts,
) -> Result<(), NoMemory>
    ensures adds { (wid : ℕ → ℕ) (before : List (ℕ × Stmt)) → AreDrafts wid drafts.old → IsIdle wid present.old → IsStmtRead wid process.now.body → 1 ≤ wid process.now.clock → AreNexts wid drafts.old nexts.old before
        → OnOk result (Grows wid drafts.old drafts.new × IsIdle wid present.new × AreNexts wid drafts.new nexts.new (before ++ (process.now.clock, stmt_of process.now.body) ∷ [])) }
{
    let assigned = execute(alloc, drafts, present, &process.body, false)?;
    let clock = drafts.read(process.clock, 0, 1)?;
    add_nexts(alloc, present, &assigned, clock, nexts)
}

/// Ends a clocked process: it gives its registers their last trees. A register that has a clock already keeps it.
fn add_nexts(
    alloc: Global,
    present: &mut Present,
    assigned: &Assigned,
    clock: CellId,
    nexts: &mut Nexts,
) -> Result<(), NoMemory>
    ensures idle { (wid : ℕ → ℕ) → AreWords wid → ((s : ℕ) → width_in present.old s ≡ wid s) → ((x : ℕ) → is_some (present_of present.old x) ≡ true → is_some (get nat_cmp assigned.now x) ≡ true) → OnOk result (IsIdle wid present.new) }
    ensures givers { ((x : ℕ) → is_some (present_of present.old x) ≡ true → is_some (get nat_cmp assigned.now x) ≡ true)
        → OnOk result ((x : ℕ) → givers_in nexts.new x ≡ givers_in nexts.old x ++ given_by (present_of present.old x) (unwrap_or (get nat_cmp assigned.now x) 0)) }
    ensures clocks { ((x : ℕ) → is_some (present_of present.old x) ≡ true → is_some (get nat_cmp assigned.now x) ≡ true)
        → OnOk result ((x : ℕ) → clock_at nexts.new x ≡ option_or (clock_at nexts.old x) (option_map (λ id. clock) (present_of present.old x))) }
{
    for (sig, bits) in assigned {
        add_next(alloc, present, *sig, *bits, clock, nexts)?;
    }
    Ok(())
}

fn add_next(
    alloc: Global,
    present: &mut Present,
    sig: u32,
    bits: u64,
    clock: CellId,
    nexts: &mut Nexts,
) -> Result<(), NoMemory>
    ensures givers { OnOk result ((x : ℕ) → givers_in nexts.new x ≡ givers_in nexts.old x ++ cond (x == sig) (given_by (present_of present.old sig) bits) []) }
    ensures clocks { OnOk result ((x : ℕ) → clock_at nexts.new x ≡ option_or (clock_at nexts.old x) (cond (x == sig) (option_map (λ id. clock) (present_of present.old sig)) None)) }
    ensures trees { (x : ℕ) → present_of present.new x ≡ cond (x == sig) None (present_of present.old x) }
    ensures widths { present.new.widths.items ≡ present.old.widths.items }
{
    match finish(present, sig) {
        Some(tree) => add_giver(alloc, nexts, sig, clock, Giver { tree, bits }),
        None => Ok(()),
    }
}

/// Adds what a process gives the register. Its clock is that of the first process.
fn add_giver(
    alloc: Global,
    nexts: &mut Nexts,
    sig: u32,
    clock: CellId,
    giver: Giver,
) -> Result<(), NoMemory>
    ensures givers { OnOk result ((x : ℕ) → givers_in nexts.new x ≡ givers_in nexts.old x ++ cond (x == sig) (giver ∷ []) []) }
    ensures clocks { OnOk result ((x : ℕ) → clock_at nexts.new x ≡ option_or (clock_at nexts.old x) (cond (x == sig) (Some clock) None)) }
{
    let mut next = take_next(alloc, nexts, sig, clock);
    push(&mut next.givers, giver)?;
    insert(nexts, sig, next)
}

/// Takes the register out of the map. One that isn't there has that clock and no giver yet.
fn take_next(alloc: Global, nexts: &mut Nexts, sig: u32, clock: CellId) -> Next
    ensures givers { result.givers.items ≡ givers_in nexts.old sig }
    ensures clock { Some result.clock ≡ option_or (clock_at nexts.old sig) (Some clock) }
    ensures others { (x : ℕ) → get nat_cmp nexts.new x ≡ cond (x == sig) None (get nat_cmp nexts.old x) }
{
    match nexts.remove(&sig) {
        Some(next) => next,
        None => Next {
            clock,
            givers: Vec::new(alloc),
        },
    }
}

/// The registers in ascending order. One that no process assigns keeps its value.
fn registers(
    alloc: Global,
    drafts: &mut Drafts,
    signals: &[Signal],
    nexts: &Nexts,
) -> Result<Vec<Register>, NoMemory>
    ensures signals { IfOk result (λ rs. map (λ (r : RegisterDraft). r.sig) rs.items ≡ register_signals 0 signals.now) }
    ensures exact { (wid : ℕ → ℕ) (all : List (ℕ × Stmt)) → AreDrafts wid drafts.old → AreWords wid → ((s : ℕ) → signal_width signals.now s ≡ wid s)
        → ((s : ℕ) (x : OneSignal) → slice_get signals.now s ≡ Some x → 1 ≤ x.width) → AreNexts wid drafts.old nexts.now all
        → IfOk result (λ rs. Grows wid drafts.old drafts.new × All (λ r. IsRegisterOf wid signals.now drafts.new r (next_in wid all) (clock_in all)) rs.items) }
{
    let mut registers = Vec::new(alloc);
    for (place, signal) in signals.iter().enumerate() {
        add_register(drafts, place, signal, nexts, &mut registers)?;
    }
    Ok(registers)
}

fn add_register(
    drafts: &mut Drafts,
    place: usize,
    signal: &Signal,
    nexts: &Nexts,
    registers: &mut Vec<Register>,
) -> Result<(), NoMemory>
    ensures signals { OnOk result (map (λ (r : RegisterDraft). r.sig) registers.new.items ≡ map (λ (r : RegisterDraft). r.sig) registers.old.items ++ cond (register_kind signal.now.kind) (place ∷ []) []) }
    ensures exact { (wid : ℕ → ℕ) (signals : List OneSignal) (all : List (ℕ × Stmt)) → AreDrafts wid drafts.old → AreWords wid → slice_get signals place ≡ Some signal.now → signal.now.width ≡ wid place → 1 ≤ signal.now.width
        → AreNexts wid drafts.old nexts.now all → All (λ r. IsRegisterOf wid signals drafts.old r (next_in wid all) (clock_in all)) registers.old.items
        → OnOk result (Grows wid drafts.old drafts.new × All (λ r. IsRegisterOf wid signals drafts.new r (next_in wid all) (clock_in all)) registers.new.items) }
{
    if !is_register(signal) {
        return Ok(());
    }
    let sig = numbered(place)?;
    let (next, clock) = next_of(drafts, sig, signal.width, nexts)?;
    push(registers, Register { sig, next, clock })
}

/// A register's next value and clock.
fn next_of(
    drafts: &mut Drafts,
    sig: u32,
    width: u8,
    nexts: &Nexts,
) -> Result<(CellId, CellId), NoMemory>
    ensures exact { (wid : ℕ → ℕ) (all : List (ℕ × Stmt)) → AreDrafts wid drafts.old → width ≡ wid sig → 1 ≤ width → width ≤ 64 → AreNexts wid drafts.old nexts.now all
        → IfOk result (λ e. Grows wid drafts.old drafts.new × IsNext wid drafts.new e sig (next_in wid all) (clock_in all)) }
{
    match nexts.get(&sig) {
        Some(known) => {
            let next = next_tree(drafts, sig, width, known.givers.as_slice())?;
            Ok((next, known.clock))
        }
        None => {
            let own = drafts.read(sig, 0, width)?;
            let clock = drafts.constant(1, 0)?;
            Ok((own, clock))
        }
    }
}

fn is_register(signal: &Signal) -> bool
    ensures { result ≡ register_kind signal.now.kind }
{
    match signal.kind {
        SigKind::Register => true,
        SigKind::Input | SigKind::Wire => false,
    }
}

/// The trees of the top's outputs.
fn outputs(
    alloc: Global,
    drafts: &mut Drafts,
    present: &Present,
    outputs: &[u32],
) -> Result<Vec<CellId>, NoMemory>
    ensures count { IfOk result (λ ids. vec_len ids ≡ length outputs.now) }
    ensures exact { (wid : ℕ → ℕ) → AreDrafts wid drafts.old → IsIdle wid present.now → Each (λ s. 1 ≤ wid s) outputs.now
        → IfOk result (λ ids. Grows wid drafts.old drafts.new × All (λ id. IsDraftOf drafts.new id (width_at drafts.new id)) ids.items
        × ((sel : Selects) → map (tree_in sel drafts.new) ids.items ≡ map (λ s. sel s 0 (wid s)) outputs.now)) }
{
    let mut trees = Vec::new(alloc);
    for sig in outputs {
        add_output(drafts, present, *sig, &mut trees)?;
    }
    Ok(trees)
}

fn add_output(
    drafts: &mut Drafts,
    present: &Present,
    sig: u32,
    trees: &mut Vec<CellId>,
) -> Result<(), NoMemory>
    ensures count { OnOk result (vec_len trees.new ≡ vec_len trees.old + 1) }
    ensures exact { (wid : ℕ → ℕ) → AreDrafts wid drafts.old → IsIdle wid present.now → 1 ≤ wid sig
        → OnOk result ((id : Id) × IsBuilt wid drafts.old drafts.new id (wid sig) (λ sel. sel sig 0 (wid sig)) × (trees.new.items ≡ trees.old.items ++ id ∷ [])) }
{
    let tree = drafts.read(sig, 0, present.width(sig))?;
    push(trees, tree)
}
