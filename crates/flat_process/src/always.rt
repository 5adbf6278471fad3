//! Processes: their events, latches and resets.
ghost use Rattle.std.specs.Prelude.{◌≡◌, ℕ, ◌++◌, ◌∷◌, [], true, false, not, ◌&&◌, ◌||◌, ◌==◌, List, Option, Some, None, is_some, option_copied, length, map, flat_map, unwrap_or, option_map, IfOk, IfErr};
ghost use Rattle.std.specs.Option.{option_map_or};
ghost use Rattle.std.specs.List.{list_all, list_any};
ghost use Rattle.refusals.specs.Numbers.{HasNumberIn, unfolding_numbers};
ghost use Rattle.cdc_base.specs.declared.signal.ResetPin.{ResetPin};
ghost use Rattle.verilog_reading.specs.ExprTree.{tree_of};
ghost use Rattle.verilog_reading.specs.StmtTree.{StmtTree, subject_of, arms_of, stmt_tree_of};
ghost use Rattle.flat_meaning.specs.Flat.{Stmt as FlatStmt};
ghost use Rattle.flat_form.specs.View.{stmt_of};
ghost use Rattle.flat_unfolding.specs.Outcome.{Broken, breaks_if, then_, judged, by_number};
ghost use Rattle.flat_unfolding.specs.Names as n;
ghost use Rattle.flat_unfolding.specs.Statements.{clocked as clocked_kind, of_wires, done};
ghost use Rattle.flat_unfolding.specs.Reads.{latch_rule};
ghost use Rattle.flat_unfolding.specs.Resets as q;
ghost use Rattle.flat_unfolding.specs.Resets.{left as left_of, other_branch as other_branch_of, form_with as form_with_of, items_form as items_form_of, reset_form as reset_form_of, reset_rules, is_edge_of as is_edge_of_reset, is_active_edge as is_active, is_malformed as is_malformed_of};
ghost use Rattle.flat_unfolding.specs.Design as u;
ghost use Rattle.flat_unfolding.specs.Design.{Stage, look_of};
ghost use Rattle.flat_unfolding.specs.Processes as w;
ghost use Rattle.flat_unfolding.specs.Processes.{always_item, edge_rules, event_rules, clocked_rules, pair_rules, taking_rules, clocked_body, body_with, reset_of, reset_gives, form_of};
ghost use Rattle.flat_unfolding.specs.Widths.{stmt_keeps_sizes};
ghost use Rattle.flat_unfolding.specs.Formed.{IsFormed, IsStmtFormed, AreArmsFormed};
ghost use Rattle.flat_names.specs.Noting.{all_noted};
ghost use Rattle.flat_names.specs.Looks.{Shows, IsFit};
ghost use Rattle.flat_names.specs.Designs.{IsPin, ShowsDesign, ShowsStage, Ends, Meets, signal_of};
ghost use Rattle.flat_statements.specs.Statements.{kind_of, arm_tree_of, IsDone};
ghost use Rattle.flat_process.specs.Assigns.{fresh};
ghost use Rattle.flat_process.specs.Resets.{ArePins, tested_of};
ghost use Rattle.flat_process.specs.Processes.{lacks_reset, IsBody, reset_with, IsClocked, IsForm, IsFormIf, has_rule};

use crate::kept::with_kept;
use crate::others::reads_other;
use crate::reset::{Given, is_reset, keep_given, peeled, reset_branch};
use crate::sensitivity::{edges_of, is_of_wires, lacks_level};
use crate::tested::{Tested, condition_tested, item_tested};
use cdc_base::{Name, NoMemory, Place, Stop};
use flat_form::flat::{FStmt, FlatClocked, FlatComb, FlatReset};
use flat_form::memory::push;
use flat_names::design::{Design, Late, Reset};
use flat_names::fault::{Faults, Order, Rule};
use flat_names::scope::{Look, Meaning, Names};
use flat_statements::latch::first_latch;
use flat_statements::statement::{Mode, statement};
use process_delays::first_clash;
use process_names::first_mixed;
use std::alloc::Global;
use verilog_ast::{CaseItem, Edge, EdgeKind, Event, Expr, Stmt};

/// `always`: a process of wires, or one with a clock.
pub fn add_process(
    alloc: Global,
    place: Place,
    event: &Event,
    body: &Stmt,
    names: &Names,
    design: &mut Design,
) -> Result<(), Stop>
    ensures meets { (pins : List ResetPin) (s : Stage) → ShowsStage pins names.now design.old s → IsFit (look_of s) → IsStmtFormed (stmt_tree_of body.now)
        → Meets pins names.now (always_item s place event.now (stmt_tree_of body.now)) result design.new }
    ensures numbered { IfErr result (HasNumberIn unfolding_numbers) }
{
    if is_of_wires(event) {
        add_wires_process(alloc, place, event, body, names, design)
    } else {
        add_clocked_process(alloc, place, edges_of(event), body, names, design)
    }
}

fn add_wires_process(
    alloc: Global,
    place: Place,
    event: &Event,
    body: &Stmt,
    names: &Names,
    design: &mut Design,
) -> Result<(), Stop>
    ensures meets { (pins : List ResetPin) (s : Stage) → ShowsStage pins names.now design.old s → IsFit (look_of s) → IsStmtFormed (stmt_tree_of body.now)
        → Meets pins names.now (w.wires_process s place event.now (stmt_tree_of body.now)) result design.new }
    ensures numbered { IfErr result (HasNumberIn unfolding_numbers) }
{
    let mut faults = Faults::new(alloc, Order::Other);
    let body = {
        let look = design.look(alloc, names);
        wires_process(&look, event, body, &mut faults)?
    };
    keep_wires_process(place, faults, body, design)
}

fn wires_process(
    look: &Look,
    event: &Event,
    body: &Stmt,
    faults: &mut Faults,
) -> Result<FStmt, NoMemory>
    ensures { (l : n.Look) → Shows look.now l → IsFit l → look.now.signals.now ≡ map signal_of l.entries → IsStmtFormed (stmt_tree_of body.now)
        → IfOk result (λ r. IsBody (done l of_wires (stmt_tree_of body.now)).stmt (done l of_wires (stmt_tree_of body.now)).broken r
        × (faults.new ≡ all_noted faults.old (w.level_rules l event.now (stmt_tree_of body.now) ++ (done l of_wires (stmt_tree_of body.now)).broken ++ w.later_rules (stmt_tree_of body.now) ++ latch_rule l.entries (done l of_wires (stmt_tree_of body.now)).stmt))) }
{
    note_levels(look, event, body, faults)?;
    let resolved = statement(look, body, Mode::Wires, faults)?;
    note_wrong(first_mixed(look.alloc, body)?, faults)?;
    if let Some(sig) = first_latch(look.alloc, look.signals, &resolved)? {
        faults.note(Rule::Latch, look.own_name(sig))?;
    }
    Ok(resolved)
}

/// Notes what a list of levels breaks. `@*` breaks nothing.
fn note_levels(look: &Look, event: &Event, body: &Stmt, faults: &mut Faults) -> Result<(), NoMemory>
    ensures { (l : n.Look) → Shows look.now l → IfOk result (λ _. faults.new ≡ all_noted faults.old (w.level_rules l event.now (stmt_tree_of body.now))) }
{
    match event {
        Event::Star => Ok(()),
        Event::Edges(levels) => note_list(look, levels.as_slice(), body, faults),
    }
}

/// Notes a name in a list of levels that is no signal's, and a list that lacks one.
fn note_list(look: &Look, levels: &[Edge], body: &Stmt, faults: &mut Faults) -> Result<(), NoMemory>
    ensures { (l : n.Look) → Shows look.now l → IfOk result (λ _. faults.new ≡ all_noted faults.old (w.list_rules l levels.now (stmt_tree_of body.now))) }
{
    note_edges(look, levels, faults)?;
    let is_short = lacks_level(look, levels, body)?;
    if is_short {
        faults.note(Rule::ClockForm, first_edge(levels))?;
    }
    Ok(())
}

/// Notes a name that is assigned in a wrong way, if there is one.
fn note_wrong(name: Option<&str>, faults: &mut Faults) -> Result<(), NoMemory>
    ensures { IfOk result (λ _. faults.new ≡ all_noted faults.old (w.wrong_name (option_map (λ n. n.now) name.entry))) }
{
    match name {
        Some(name) => faults.note(Rule::WrongAssignment, name),
        None => Ok(()),
    }
}

/// Adds a process of wires, if its item broke no rule.
fn keep_wires_process(
    place: Place,
    faults: Faults,
    body: FStmt,
    design: &mut Design,
) -> Result<(), Stop>
    ensures kept { (pins : List ResetPin) (e : u.Design) (x : FlatStmt) (bs : List Broken) → ShowsDesign pins design.old e → faults ≡ all_noted fresh bs → IsBody x bs body
        → Ends (ShowsDesign pins design.new) (judged by_number place bs (record e { combs = e.combs ++ x ∷ [] })) result }
    ensures numbered { IfErr result (HasNumberIn unfolding_numbers) }
{
    faults.raise(place)?;
    push(&mut design.combs, FlatComb { body })?;
    Ok(())
}

/// A clocked process with what its reset tells of its drivers, and gives.
#[derive(Drop)]
struct Clocked {
    clock: u32,
    body: FStmt,
    reset: FlatReset,
    given: Vec<Given>,
}

fn add_clocked_process(
    alloc: Global,
    place: Place,
    edges: &[Edge],
    body: &Stmt,
    names: &Names,
    design: &mut Design,
) -> Result<(), Stop>
    ensures meets { (pins : List ResetPin) (s : Stage) → ShowsStage pins names.now design.old s → IsFit (look_of s) → IsStmtFormed (stmt_tree_of body.now)
        → Meets pins names.now (w.clocked_process s place edges.now (stmt_tree_of body.now)) result design.new }
    ensures numbered { IfErr result (HasNumberIn unfolding_numbers) }
{
    let mut faults = Faults::new(alloc, Order::Other);
    let mut late = Faults::new(alloc, Order::Other);
    let process = {
        let look = design.look(alloc, names);
        clocked_process(&look, edges, body, &mut faults, &mut late)?
    };
    keep_clocked_process(place, faults, late, process, design)
}

/// Adds a clocked process, if its item broke no rule. The rules of resets that it breaks are `late`.
fn keep_clocked_process(
    place: Place,
    faults: Faults,
    late: Faults,
    process: Clocked,
    design: &mut Design,
) -> Result<(), Stop>
    ensures kept { (pins : List ResetPin) (e : u.Design) (clock : ℕ) (x : FlatStmt) (reset : Option ℕ × FlatStmt) (us : List u.Given) (bs ts : List Broken) → ShowsDesign pins design.old e
        → faults ≡ all_noted fresh bs → late ≡ all_noted fresh ts → IsClocked (length e.entries) clock x reset us bs process
        → Ends (ShowsDesign pins design.new) (judged by_number place bs (record e { clocked = e.clocked ++ (clock, x) ∷ []; resets = e.resets ++ reset ∷ []; givens = e.givens ++ us; late = then_ e.late (λ u. judged by_number place ts (tt {0})) })) result }
    ensures numbered { IfErr result (HasNumberIn unfolding_numbers) }
{
    faults.raise(place)?;
    keep_late(place, late, design);
    keep_given(design, process.given.as_slice());
    push(&mut design.resets, process.reset)?;
    let process = FlatClocked {
        clock: process.clock,
        body: process.body,
    };
    push(&mut design.clocked, process)?;
    Ok(())
}

/// Keeps the rules of resets that a process breaks, if it is the first that breaks one.
fn keep_late(place: Place, faults: Faults, design: &mut Design)
    ensures { (pins : List ResetPin) (e : u.Design) (ts : List Broken) → ShowsDesign pins design.old e → faults ≡ all_noted fresh ts
        → ShowsDesign pins design.new (record e { late = then_ e.late (λ u. judged by_number place ts (tt {0})) }) }
{
    if is_first_late(&design.late, &faults) {
        design.late = Some(Late { place, faults });
    }
}

fn is_first_late(late: &Option<Late>, faults: &Faults) -> bool
    ensures { result ≡ (not (has_rule late.now) && is_some faults.now.found) }
{
    !is_late(late) && faults.rule().is_some()
}

/// Whether a process is kept whose resets break a rule.
fn is_late(late: &Option<Late>) -> bool
    ensures { result ≡ has_rule late.now }
{
    match late {
        Some(late) => late.faults.rule().is_some(),
        None => false,
    }
}

/// A clocked process. The rules of resets that it breaks are noted in `late`.
fn clocked_process(
    look: &Look,
    edges: &[Edge],
    body: &Stmt,
    faults: &mut Faults,
    late: &mut Faults,
) -> Result<Clocked, NoMemory>
    ensures { (pins : List ResetPin) (l : n.Look) → Shows look.now l → IsFit l → ArePins pins look.now l → IsStmtFormed (stmt_tree_of body.now)
        → IfOk result (λ p. IsClocked (length l.entries) (unwrap_or (w.clock_of l edges.now) 0) (clocked_body l edges.now (stmt_tree_of body.now)) (reset_of l edges.now (stmt_tree_of body.now))
        (reset_gives l (form_of l edges.now (stmt_tree_of body.now))) (clocked_rules l edges.now (stmt_tree_of body.now)) p
        × (faults.new ≡ all_noted faults.old (clocked_rules l edges.now (stmt_tree_of body.now))) × (late.new ≡ all_noted late.old (taking_rules l edges.now (stmt_tree_of body.now)))) }
{
    note_event(look, edges, faults)?;
    note_pair(look, edges, late)?;
    let clock = clock_of(look, edges).unwrap_or(0);
    if has_form(edges) {
        process_with_form(look, edges, clock, body, faults, late)
    } else {
        let body = body_at_edges(look, body, Mode::Neither, faults)?;
        note_reset(look, edges, &None, late)?;
        Ok(Clocked {
            clock,
            body,
            reset: FlatReset {
                edge: None,
                branch: FStmt::Null,
            },
            given: Vec::new(look.alloc),
        })
    }
}

/// The body of a process with edges, in which a name has one delay on each path.
fn body_at_edges(
    look: &Look,
    body: &Stmt,
    mode: Mode,
    faults: &mut Faults,
) -> Result<FStmt, NoMemory>
    ensures { (l : n.Look) → Shows look.now l → IsFit l → IsStmtFormed (stmt_tree_of body.now)
        → IfOk result (λ r. IsDone (done l (kind_of mode) (stmt_tree_of body.now)) r × (faults.new ≡ all_noted faults.old ((done l (kind_of mode) (stmt_tree_of body.now)).broken ++ w.delay_rules (stmt_tree_of body.now)))) }
{
    let resolved = statement(look, body, mode, faults)?;
    note_wrong(first_clash(look.alloc, body)?, faults)?;
    Ok(resolved)
}

/// Whether an event is one rising edge, or two edges of which one rises at least.
fn has_form(edges: &[Edge]) -> bool
    ensures { result ≡ w.has_form edges.now }
{
    match edges {
        [clock] => clock.kind == EdgeKind::Pos,
        [one, other] => are_edges(one.kind, other.kind),
        _ => false,
    }
}

fn are_edges(one: EdgeKind, other: EdgeKind) -> bool
    ensures { result ≡ (w.is_an_edge one && w.is_an_edge other && (w.is_rising one || w.is_rising other)) }
{
    match (one, other) {
        (EdgeKind::Pos, EdgeKind::Pos | EdgeKind::Neg) => true,
        (EdgeKind::Neg, EdgeKind::Pos) => true,
        _ => false,
    }
}

/// The name of the first edge, which faults of clocks and resets tell.
fn first_edge(edges: &[Edge]) -> &str
    ensures { result.now ≡ w.first_edge edges.now }
{
    match edges.first() {
        Some(edge) => edge.name.as_str(),
        None => "",
    }
}

/// Notes where an event hasn't its form, or an edge is that of no signal or of several bits.
fn note_event(look: &Look, edges: &[Edge], faults: &mut Faults) -> Result<(), NoMemory>
    ensures { (l : n.Look) → Shows look.now l → IsFit l → IfOk result (λ _. faults.new ≡ all_noted faults.old (event_rules l edges.now)) }
{
    note_edges(look, edges, faults)?;
    if breaks_event(look, edges) {
        faults.note(Rule::ClockForm, first_edge(edges))?;
    }
    Ok(())
}

fn breaks_event(look: &Look, edges: &[Edge]) -> bool
    ensures { (l : n.Look) → Shows look.now l → IsFit l → result ≡ (not (w.has_form edges.now) || list_any (w.is_wide l) edges.now) }
{
    !has_form(edges) || has_wide_edge(look, edges)
}

fn note_edges(look: &Look, edges: &[Edge], faults: &mut Faults) -> Result<(), NoMemory>
    ensures { (l : n.Look) → Shows look.now l → IfOk result (λ _. faults.new ≡ all_noted faults.old (flat_map (edge_rules l (w.first_edge edges.now)) edges.now)) }
{
    let first = first_edge(edges);
    for edge in edges {
        note_edge(look, first, &edge.name, faults)?;
    }
    Ok(())
}

/// Notes the name of an edge that stands for no signal.
fn note_edge(look: &Look, first: &str, name: &Name, faults: &mut Faults) -> Result<(), NoMemory>
    ensures { (l : n.Look) (e : Edge) → Shows look.now l → e.name ≡ name.now → IfOk result (λ _. faults.new ≡ all_noted faults.old (edge_rules l first.now e)) }
{
    match look.meaning(name) {
        Some(Meaning::Signal(_)) => Ok(()),
        Some(_) => faults.note(Rule::ClockForm, first),
        None => faults.note(Rule::UnknownName, name.as_str()),
    }
}

fn clock_of(look: &Look, edges: &[Edge]) -> Option<u32>
    ensures { (l : n.Look) → Shows look.now l → result ≡ w.clock_of l edges.now }
{
    edge_signal(look, clock_edge(look, edges)?)
}

/// The signal of the reset's edge, if there is one.
fn reset_signal(look: &Look, edges: &[Edge]) -> Option<u32>
    ensures { (l : n.Look) → Shows look.now l → result ≡ w.reset_signal l edges.now }
{
    edge_signal(look, reset_edge(look, edges)?)
}

/// The clock's edge: of two edges the one beside the reset's, else the first.
fn clock_edge<'a>(look: &Look, edges: &'a [Edge]) -> Option<&'a Edge>
    ensures { (l : n.Look) → Shows look.now l → option_copied result ≡ w.clock_edge l edges.now }
{
    match edges {
        [one, other] if names_reset(look, one) && !names_reset(look, other) => Some(other),
        _ => edges.first(),
    }
}

/// The reset's edge: of two edges the one that names a reset, where the other one doesn't.
fn reset_edge<'a>(look: &Look, edges: &'a [Edge]) -> Option<&'a Edge>
    ensures { (l : n.Look) → Shows look.now l → option_copied result ≡ w.reset_edge l edges.now }
{
    match edges {
        [one, other] => match (names_reset(look, one), names_reset(look, other)) {
            (true, false) => Some(one),
            (false, true) => Some(other),
            _ => None,
        },
        _ => None,
    }
}

fn names_reset(look: &Look, edge: &Edge) -> bool
    ensures { (l : n.Look) → Shows look.now l → result ≡ w.names_reset l edge.now }
{
    match edge_signal(look, edge) {
        Some(sig) => is_reset(look, sig),
        None => false,
    }
}

/// The signal that an edge names.
fn edge_signal(look: &Look, edge: &Edge) -> Option<u32>
    ensures { (l : n.Look) → Shows look.now l → result ≡ w.edge_signal l edge.now }
{
    match look.meaning(&edge.name) {
        Some(Meaning::Signal(sig)) => Some(sig),
        _ => None,
    }
}

fn has_wide_edge(look: &Look, edges: &[Edge]) -> bool
    ensures { (l : n.Look) → Shows look.now l → IsFit l → result ≡ list_any (w.is_wide l) edges.now }
{
    for edge in edges {
        if is_wide(look, edge) {
            return true;
        }
    }
    false
}

/// Whether the signal of an edge has several bits.
fn is_wide(look: &Look, edge: &Edge) -> bool
    ensures { (l : n.Look) → Shows look.now l → IsFit l → result ≡ w.is_wide l edge.now }
{
    match edge_signal(look, edge) {
        Some(sig) => look.width(sig) != 1,
        None => false,
    }
}

/// Whether the clock's edge falls, where the other one is known to be a reset's.
fn is_clock_falling(look: &Look, edges: &[Edge]) -> bool
    ensures { (l : n.Look) → Shows look.now l → result ≡ w.is_clock_falling l edges.now }
{
    match clock_edge(look, edges) {
        Some(clock) => reset_edge(look, edges).is_some() && clock.kind != EdgeKind::Pos,
        None => false,
    }
}

/// The process of a body whose event has its form.
fn process_with_form(
    look: &Look,
    edges: &[Edge],
    clock: u32,
    body: &Stmt,
    faults: &mut Faults,
    late: &mut Faults,
) -> Result<Clocked, NoMemory>
    ensures { (pins : List ResetPin) (l : n.Look) → Shows look.now l → IsFit l → ArePins pins look.now l → IsStmtFormed (stmt_tree_of body.now)
        → IfOk result (λ p. IsClocked (length l.entries) clock (body_with l (stmt_tree_of body.now) (reset_form_of l (stmt_tree_of body.now))) (reset_with l (w.reset_signal l edges.now) (stmt_tree_of body.now))
        (reset_gives l (reset_form_of l (stmt_tree_of body.now))) (done l clocked_kind (stmt_tree_of body.now)).broken p
        × (faults.new ≡ all_noted faults.old ((done l clocked_kind (stmt_tree_of body.now)).broken ++ w.delay_rules (stmt_tree_of body.now)))
        × (late.new ≡ all_noted late.old (reset_rules l (w.first_edge edges.now) (w.reset_edge l edges.now) (reset_form_of l (stmt_tree_of body.now))))) }
{
    let whole = body_at_edges(look, body, Mode::Clocked, faults)?;
    let form = reset_form(look, body)?;
    note_reset(look, edges, &form, late)?;
    let edge = reset_signal(look, edges);
    with_reset(look, clock, edge, whole, form)
}

/// A body in reset form: the signals of its resets, whether it reads another reset, its first branch, what that gives
/// where it has its form, and what is left of the body.
#[derive(Drop)]
struct ResetForm {
    signals: Vec<u32>,
    reads_other: bool,
    branch: FStmt,
    given: Option<Vec<Given>>,
    rest: FStmt,
}

fn reset_form(look: &Look, body: &Stmt) -> Result<Option<ResetForm>, NoMemory>
    ensures { (l : n.Look) → Shows look.now l → IsFit l → IsStmtFormed (stmt_tree_of body.now)
        → IfOk result (λ o. IsFormIf l (done l clocked_kind (stmt_tree_of body.now)).broken (reset_form_of l (stmt_tree_of body.now)) o) }
{
    let stmt = peeled(body);
    match stmt {
        Stmt::If { cond, yes, .. } => {
            let tested = condition_tested(look, cond)?;
            form_with(look, tested, yes, stmt)
        }
        Stmt::Case {
            masks,
            subject,
            items,
            ..
        } => items_form(look, *masks, subject, items.as_slice(), stmt),
        _ => Ok(None),
    }
}

/// The reset form of a `casez`, which stands for a chain of `if`s; a `case` has none.
fn items_form(
    look: &Look,
    masks: bool,
    subject: &Expr,
    items: &[CaseItem],
    all: &Stmt,
) -> Result<Option<ResetForm>, NoMemory>
    ensures { (l : n.Look) → Shows look.now l → IsFit l → IsFormed (tree_of subject.now) → AreArmsFormed (arms_of (map arm_tree_of items.now)) → IsStmtFormed (stmt_tree_of all.now)
        → IfOk result (λ o. IsFormIf l (done l clocked_kind (stmt_tree_of all.now)).broken (items_form_of l (subject_of masks (tree_of subject.now)) (arms_of (map arm_tree_of items.now)) (stmt_tree_of all.now)) o) }
{
    if !masks {
        return Ok(None);
    }
    let Some((first, _)) = items.split_first() else {
        return Ok(None);
    };
    let tested = item_tested(look, subject, items)?;
    form_with(look, tested, &first.body, all)
}

/// The reset form of a statement with this first branch, whose condition tests resets.
fn form_with(
    look: &Look,
    tested: Option<Tested>,
    branch: &Stmt,
    all: &Stmt,
) -> Result<Option<ResetForm>, NoMemory>
    ensures { (l : n.Look) → Shows look.now l → IsFit l → IsStmtFormed (stmt_tree_of branch.now) → IsStmtFormed (stmt_tree_of all.now)
        → IfOk result (λ o. IsFormIf l (done l clocked_kind (stmt_tree_of all.now)).broken (form_with_of l (option_map tested_of tested) (stmt_tree_of branch.now) (stmt_tree_of all.now)) o) }
{
    let Some(tested) = tested else {
        return Ok(None);
    };
    let reads_other = reads_other(look, all, tested.signals.as_slice())?;
    let given = reset_branch(look, branch)?;
    let branch = branch_body(look, branch)?;
    let whole = branch_body(look, all)?;
    let rest = left(tested.is_alone, whole);
    Ok(Some(ResetForm {
        signals: tested.signals,
        reads_other,
        branch,
        given,
        rest,
    }))
}

/// What reset form leaves: the other branch where the condition tests resets alone, else all.
fn left(is_alone: bool, stmt: FStmt) -> FStmt
    ensures same { stmt_of result ≡ left_of is_alone (stmt_of stmt) }
    ensures sizes { stmt_keeps_sizes stmt ≡ true → stmt_keeps_sizes result ≡ true }
{
    if is_alone { other_branch(stmt) } else { stmt }
}

/// What stands behind the first condition.
fn other_branch(stmt: FStmt) -> FStmt
    ensures same { stmt_of result ≡ other_branch_of (stmt_of stmt) }
    ensures sizes { stmt_keeps_sizes stmt ≡ true → stmt_keeps_sizes result ≡ true }
{
    match stmt {
        FStmt::If { other, .. } => match other {
            Some(other) => Box::into_inner(other),
            None => FStmt::Null,
        },
        stmt => stmt,
    }
}

/// A part of a body in reset form. What it breaks is noted with the whole body.
fn branch_body(look: &Look, branch: &Stmt) -> Result<FStmt, NoMemory>
    ensures { (l : n.Look) → Shows look.now l → IsFit l → IsStmtFormed (stmt_tree_of branch.now) → IfOk result (λ r. IsDone (done l clocked_kind (stmt_tree_of branch.now)) r) }
{
    let mut unheard = Faults::new(look.alloc, Order::Other);
    statement(look, branch, Mode::Clocked, &mut unheard)
}

/// Notes two edges of which not exactly one names a reset, or of which the clock's falls.
fn note_pair(look: &Look, edges: &[Edge], faults: &mut Faults) -> Result<(), NoMemory>
    ensures { (l : n.Look) → Shows look.now l → IfOk result (λ _. faults.new ≡ all_noted faults.old (pair_rules l edges.now)) }
{
    note_lack(look, edges, faults)?;
    note_falling(look, edges, faults)
}

fn note_falling(look: &Look, edges: &[Edge], faults: &mut Faults) -> Result<(), NoMemory>
    ensures { (l : n.Look) → Shows look.now l → IfOk result (λ _. faults.new ≡ all_noted faults.old (breaks_if (w.is_clock_falling l edges.now) 316 (w.first_edge edges.now))) }
{
    if is_clock_falling(look, edges) {
        faults.note(Rule::ClockForm, first_edge(edges))?;
    }
    Ok(())
}

fn note_lack(look: &Look, edges: &[Edge], faults: &mut Faults) -> Result<(), NoMemory>
    ensures { (l : n.Look) → Shows look.now l → IfOk result (λ _. faults.new ≡ all_noted faults.old (breaks_if (lacks_reset l edges.now) 317 (w.first_edge edges.now))) }
{
    if lack_reset(look, edges) {
        faults.note(Rule::ResetForm, first_edge(edges))?;
    }
    Ok(())
}

fn lack_reset(look: &Look, edges: &[Edge]) -> bool
    ensures { (l : n.Look) → Shows look.now l → result ≡ lacks_reset l edges.now }
{
    edges.len() == 2 && reset_edge(look, edges).is_none()
}

/// Notes where the reset's edge isn't that of the signals that reset form tests, where the first branch hasn't its form,
/// or where another reset is read.
fn note_reset(
    look: &Look,
    edges: &[Edge],
    form: &Option<ResetForm>,
    faults: &mut Faults,
) -> Result<(), NoMemory>
    ensures { (pins : List ResetPin) (l : n.Look) (bs : List Broken) (f : Option q.ResetForm) → Shows look.now l → ArePins pins look.now l → IsFormIf l bs f form.now
        → IfOk result (λ _. faults.new ≡ all_noted faults.old (reset_rules l (w.first_edge edges.now) (w.reset_edge l edges.now) f)) }
{
    if breaks_reset(look, edges, form) {
        faults.note(Rule::ResetForm, first_edge(edges))?;
    }
    Ok(())
}

fn breaks_reset(look: &Look, edges: &[Edge], form: &Option<ResetForm>) -> bool
    ensures { (pins : List ResetPin) (l : n.Look) (bs : List Broken) (f : Option q.ResetForm) → Shows look.now l → ArePins pins look.now l → IsFormIf l bs f form.now
        → breaks_if result 317 (w.first_edge edges.now) ≡ reset_rules l (w.first_edge edges.now) (w.reset_edge l edges.now) f }
{
    match form {
        Some(form) => breaks_form(look, edges, form),
        None => reset_edge(look, edges).is_some(),
    }
}

fn breaks_form(look: &Look, edges: &[Edge], form: &ResetForm) -> bool
    ensures { (pins : List ResetPin) (l : n.Look) (bs : List Broken) (f : q.ResetForm) → Shows look.now l → ArePins pins look.now l → IsForm l bs f form.now
        → result ≡ (not (option_map_or (is_edge_of_reset l f.signals) (w.reset_edge l edges.now) true) || is_malformed_of l f) }
{
    !fits_edge(look, edges, form.signals.as_slice()) || is_malformed(form)
}

fn is_malformed(form: &ResetForm) -> bool
    ensures { (l : n.Look) (bs : List Broken) (f : q.ResetForm) → IsForm l bs f form.now → result ≡ is_malformed_of l f }
{
    form.given.is_none() || form.reads_other
}

/// Whether the reset's edge, if there is one, is that of these signals.
fn fits_edge(look: &Look, edges: &[Edge], signals: &[u32]) -> bool
    ensures { (pins : List ResetPin) (l : n.Look) → Shows look.now l → ArePins pins look.now l → result ≡ option_map_or (is_edge_of_reset l signals.now) (w.reset_edge l edges.now) true }
{
    match reset_edge(look, edges) {
        Some(edge) => is_edge_of(look, edge, signals),
        None => true,
    }
}

/// Whether an edge is the one at which the reset with these signals becomes active.
fn is_edge_of(look: &Look, edge: &Edge, signals: &[u32]) -> bool
    ensures { (pins : List ResetPin) (l : n.Look) → Shows look.now l → ArePins pins look.now l → result ≡ is_edge_of_reset l signals.now edge.now }
{
    match look.meaning(&edge.name) {
        Some(Meaning::Signal(sig)) => {
            becomes_active(look, edge.kind, sig) && are_all(signals, sig)
        }
        _ => false,
    }
}

fn are_all(signals: &[u32], sig: u32) -> bool
    ensures { result ≡ list_all (λ t. t == sig) signals.now }
{
    signals.iter().all(|one| *one == sig)
}

/// Whether a reset becomes active at this edge of its signal.
fn becomes_active(look: &Look, kind: EdgeKind, sig: u32) -> bool
    ensures { (pins : List ResetPin) (l : n.Look) → Shows look.now l → ArePins pins look.now l → result ≡ option_map_or (is_active kind) (n.reset_at l.entries sig) false }
{
    match look.reset(sig) {
        Some(reset) => is_active_edge(kind, reset),
        None => false,
    }
}

fn is_active_edge(kind: EdgeKind, reset: Reset) -> bool
    ensures { (pins : List ResetPin) (pin : ResetPin) → IsPin pins reset pin → result ≡ is_active kind pin }
{
    match kind {
        EdgeKind::Pos => reset.is_high,
        EdgeKind::Neg => !reset.is_high,
        EdgeKind::Level => false,
    }
}

/// The process of a body: what reset form leaves of it, behind what the first branch keeps.
fn with_reset(
    look: &Look,
    clock: u32,
    edge: Option<u32>,
    whole: FStmt,
    form: Option<ResetForm>,
) -> Result<Clocked, NoMemory>
    ensures { (l : n.Look) (body : StmtTree) → Shows look.now l → IsDone (done l clocked_kind body) whole → IsFormIf l (done l clocked_kind body).broken (reset_form_of l body) form
        → IfOk result (λ p. IsClocked (length l.entries) clock (body_with l body (reset_form_of l body)) (reset_with l edge body) (reset_gives l (reset_form_of l body)) (done l clocked_kind body).broken p) }
{
    match form {
        Some(form) => {
            let rest = form.rest;
            let body = with_kept(look, &form.branch, rest)?;
            Ok(Clocked {
                clock,
                body,
                reset: FlatReset {
                    edge,
                    branch: form.branch,
                },
                given: form.given.unwrap_or(Vec::new(look.alloc)),
            })
        }
        None => Ok(Clocked {
            clock,
            body: whole,
            reset: FlatReset {
                edge,
                branch: FStmt::Null,
            },
            given: Vec::new(look.alloc),
        }),
    }
}
