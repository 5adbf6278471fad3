//! Start values of registers, by declaration or by `initial`.
ghost use Rattle.std.specs.Prelude.{◌≡◌, ℕ, ◌<◌, ◌++◌, not, ◌||◌, [], false, List, length, Option, Some, None, is_some, slice_get, option_map, map, IfOk, IfErr};
ghost use Rattle.std.specs.Option.{option_map_or};
ghost use Rattle.refusals.specs.Numbers.{HasNumberIn, unfolding_numbers};
ghost use Rattle.cdc_base.specs.declared.signal.ResetPin.{ResetPin};
ghost use Rattle.verilog_reading.specs.ExprTree.{tree_of, target_tree_of};
ghost use Rattle.verilog_reading.specs.StmtTree.{stmt_tree_of, stmt_trees_of, set as set_tree};
ghost use Rattle.flat_form.specs.View.{target_of};
ghost use Rattle.flat_unfolding.specs.Outcome.{Broken, breaks_if};
ghost use Rattle.flat_unfolding.specs.Names as n;
ghost use Rattle.flat_unfolding.specs.Names.{meaning};
ghost use Rattle.flat_unfolding.specs.Expressions.{read};
ghost use Rattle.flat_unfolding.specs.Starts.{Starts, declared_start, initial_item, initial_row, initial_rows, initial_starts, names_register as names_register_of};
ghost use Rattle.flat_unfolding.specs.Targets.{first_name};
ghost use Rattle.flat_unfolding.specs.Design as u;
ghost use Rattle.flat_unfolding.specs.Design.{Stage, look_of};
ghost use Rattle.flat_unfolding.specs.Formed.{IsFormed, IsTargetFormed, IsStmtFormed, AreRowsFormed};
ghost use Rattle.flat_names.specs.Noting.{Noted, noted, all_noted};
ghost use Rattle.flat_names.specs.Looks.{meaning_of, Shows, IsFit};
ghost use Rattle.flat_names.specs.declared.design.Entry.{Entry};
ghost use Rattle.cdc_base.specs.declared.signal.Signal.{Signal};
ghost use Rattle.flat_names.specs.Designs.{ShowsNames, ShowsStage, Meets};
ghost use Rattle.flat_process.specs.Starts.{AreStarts, with_start, IsStart, One, IsOne, with_one, is_reg_at, one_of, one_at, value_broken, row_one, row_broken, declared_one, declared_broken, is_memory_of};

use cdc_base::{Name, NoMemory, Place, Signal, Stop};
use flat_form::flat::FTarget;
use flat_form::value::assigned_value;
use flat_names::design::{Design, Entry};
use flat_names::expr::resolve;
use flat_names::fault::{Faults, Order, Rule};
use flat_names::scope::{Look, Meaning, Names};
use flat_statements::statement::{Mode, statement};
use flat_targets::target::{Assigned, first_text, fixed_target};
use std::alloc::Global;
use verilog_ast::{Decl, Expr, Stmt, Target};

/// A start value for a signal.
#[derive(Clone, Copy, Debug, Drop)]
struct Start {
    sig: u32,
    value: u64,
}

/// The start value of a register's declaration.
pub fn add_declared_start(
    alloc: Global,
    place: Place,
    decl: &Decl,
    value: &Expr,
    names: &Names,
    design: &mut Design,
) -> Result<(), Stop>
    ensures meets { (pins : List ResetPin) (s : Stage) → ShowsStage pins names.now design.old s → IsFit (look_of s) → IsFormed (tree_of value.now)
        → Meets pins names.now (declared_start s place decl.now.name (tree_of value.now)) result design.new }
    ensures numbered { IfErr result (HasNumberIn unfolding_numbers) }
{
    let mut faults = Faults::new(alloc, Order::Other);
    let start = {
        let look = design.look(alloc, names);
        declared(&look, &decl.name, value, &mut faults)?
    };
    set_start(design, start, &mut faults)?;
    faults.raise(place)
}

/// The start value that a declaration gives, where its name is that of a signal.
fn declared(
    look: &Look,
    name: &Name,
    value: &Expr,
    faults: &mut Faults,
) -> Result<Option<Start>, NoMemory>
    ensures { (l : n.Look) → Shows look.now l → IsFit l → IsFormed (tree_of value.now)
        → IfOk result (λ o. IsOne (declared_one l (meaning l name.now) (read l (tree_of value.now))) (declared_broken l name.now (meaning l name.now) (read l (tree_of value.now))) o
        × (faults.new ≡ all_noted faults.old (declared_broken l name.now (meaning l name.now) (read l (tree_of value.now))))) }
{
    if let Some(Meaning::Signal(sig)) = look.meaning(name) {
        let start = start_value(look, sig, name.as_str(), value, faults)?;
        return Ok(Some(start));
    }
    resolve(look, value, faults)?;
    Ok(None)
}

/// A start value has to be a constant.
fn start_value(
    look: &Look,
    sig: u32,
    name: &str,
    value: &Expr,
    faults: &mut Faults,
) -> Result<Start, NoMemory>
    ensures { (l : n.Look) → Shows look.now l → IsFit l → IsFormed (tree_of value.now) → sig < length l.entries
        → IfOk result (λ b. IsStart sig (one_of l sig (read l (tree_of value.now))).1 (read l (tree_of value.now)).broken b
        × (faults.new ≡ all_noted faults.old ((read l (tree_of value.now)).broken ++ breaks_if (not (read l (tree_of value.now)).is_constant) 313 name.now))) }
{
    let value = resolve(look, value, faults)?;
    note_variable(value.is_constant, name, faults)?;
    let value = assigned_value(&value.expr, look.width(sig));
    Ok(Start { sig, value })
}

/// Notes a start value that isn't a constant.
fn note_variable(is_constant: bool, name: &str, faults: &mut Faults) -> Result<(), NoMemory>
    ensures { IfOk result (λ _. faults.new ≡ all_noted faults.old (breaks_if (not is_constant) 313 name.now)) }
{
    if !is_constant {
        faults.note(Rule::WrongAssignment, name)?;
    }
    Ok(())
}

/// Gives a signal its start value. A second one is refused, at the declaration of the signal.
fn set_start(design: &mut Design, start: Option<Start>, faults: &mut Faults) -> Result<(), NoMemory>
    ensures { (pins : List ResetPin) (e : u.Design) (a : Starts) (o : One) (bs : List Broken) (f : Noted) → AreStarts pins design.old e a → IsOne o bs start
        → ((p : ℕ × ℕ) → o ≡ Some p → p.0 < length e.entries) → faults.old ≡ all_noted f (a.broken ++ bs)
        → IfOk result (λ _. AreStarts pins design.new e (with_one e.entries o bs a) × (faults.new ≡ all_noted f (with_one e.entries o bs a).broken)) }
{
    match start {
        Some(start) => add_start(design, start, faults),
        None => Ok(()),
    }
}

fn add_start(design: &mut Design, start: Start, faults: &mut Faults) -> Result<(), NoMemory>
    ensures { (pins : List ResetPin) (e : u.Design) (a : Starts) (p : ℕ × ℕ) (bs : List Broken) (f : Noted) → AreStarts pins design.old e a → IsStart p.0 p.1 bs start
        → p.0 < length e.entries → faults.old ≡ all_noted f (a.broken ++ bs)
        → IfOk result (λ _. AreStarts pins design.new e (with_one e.entries (Some p) bs a) × (faults.new ≡ all_noted f (with_one e.entries (Some p) bs a).broken)) }
{
    let place = usize::try_from(start.sig).unwrap_or(usize::MAX);
    if has_start(design.entries.as_slice(), place) {
        return note_second(design.signals.as_slice(), place, faults);
    }
    write_start(&mut design.entries, place, start.value);
    Ok(())
}

/// Whether a signal has a start value already.
fn has_start(entries: &[Entry], place: usize) -> bool
    ensures { result ≡ option_map_or (λ (x : Entry). is_some x.start) (slice_get entries.now place) false }
{
    match entries.get(place) {
        Some(entry) => entry.start.is_some(),
        None => false,
    }
}

fn write_start(entries: &mut Vec<Entry>, place: usize, value: u64)
    ensures { entries.new.items ≡ with_start place value entries.old.items }
{
    if let Some(entry) = entries.get_mut(place) {
        entry.start = Some(value);
    }
}

/// Notes a second start value, at the declaration of its signal.
fn note_second(signals: &[Signal], place: usize, faults: &mut Faults) -> Result<(), NoMemory>
    ensures { (x : Signal) → slice_get signals.now place ≡ Some x → IfOk result (λ _. faults.new ≡ noted faults.old (record { number = 309; name = x.name; place = Some x.place })) }
{
    match signals.get(place) {
        Some(signal) => {
            faults.note_at(Rule::TwoDrivers, signal.name.as_str(), Some(signal.place))
        }
        None => Ok(()),
    }
}

/// `initial`: one assignment of a constant to a whole register, or one block of these.
pub fn add_initial(
    alloc: Global,
    place: Place,
    body: &Stmt,
    names: &Names,
    design: &mut Design,
) -> Result<(), Stop>
    ensures meets { (pins : List ResetPin) (s : Stage) → ShowsStage pins names.now design.old s → IsFit (look_of s) → IsStmtFormed (stmt_tree_of body.now)
        → Meets pins names.now (initial_item s place (stmt_tree_of body.now)) result design.new }
    ensures numbered { IfErr result (HasNumberIn unfolding_numbers) }
{
    let mut faults = Faults::new(alloc, Order::Other);
    initial_statements(alloc, body, names, design, &mut faults)?;
    faults.raise(place)
}

fn initial_statements(
    alloc: Global,
    body: &Stmt,
    names: &Names,
    design: &mut Design,
    faults: &mut Faults,
) -> Result<(), NoMemory>
    ensures { (pins : List ResetPin) (s : Stage) (a : Starts) (f : Noted) → ShowsNames names.now s.names → AreStarts pins design.old s.design a → IsFit (look_of s) → IsStmtFormed (stmt_tree_of body.now) → faults.old ≡ all_noted f a.broken
        → IfOk result (λ _. AreStarts pins design.new s.design (initial_starts (look_of s) a (stmt_tree_of body.now)) × (faults.new ≡ all_noted f (initial_starts (look_of s) a (stmt_tree_of body.now)).broken)) }
{
    match body {
        Stmt::Block(stmts) => initial_block(alloc, stmts.as_slice(), names, design, faults),
        stmt => initial_statement(alloc, stmt, names, design, faults),
    }
}

fn initial_block(
    alloc: Global,
    stmts: &[Stmt],
    names: &Names,
    design: &mut Design,
    faults: &mut Faults,
) -> Result<(), NoMemory>
    ensures { (pins : List ResetPin) (s : Stage) (a : Starts) (f : Noted) → ShowsNames names.now s.names → AreStarts pins design.old s.design a → IsFit (look_of s) → AreRowsFormed (stmt_trees_of (map stmt_tree_of stmts.now)) → faults.old ≡ all_noted f a.broken
        → IfOk result (λ _. AreStarts pins design.new s.design (initial_rows (look_of s) a (stmt_trees_of (map stmt_tree_of stmts.now))) × (faults.new ≡ all_noted f (initial_rows (look_of s) a (stmt_trees_of (map stmt_tree_of stmts.now))).broken)) }
{
    for stmt in stmts {
        initial_statement(alloc, stmt, names, design, faults)?;
    }
    Ok(())
}

fn initial_statement(
    alloc: Global,
    stmt: &Stmt,
    names: &Names,
    design: &mut Design,
    faults: &mut Faults,
) -> Result<(), NoMemory>
    ensures { (pins : List ResetPin) (s : Stage) (a : Starts) (f : Noted) → ShowsNames names.now s.names → AreStarts pins design.old s.design a → IsFit (look_of s) → IsStmtFormed (stmt_tree_of stmt.now) → faults.old ≡ all_noted f a.broken
        → IfOk result (λ _. AreStarts pins design.new s.design (initial_row (look_of s) a (stmt_tree_of stmt.now)) × (faults.new ≡ all_noted f (initial_row (look_of s) a (stmt_tree_of stmt.now)).broken)) }
{
    let start = {
        let look = design.look(alloc, names);
        row_start(&look, stmt, faults)?
    };
    set_start(design, start, faults)
}

/// The start value that a statement gives.
fn row_start(look: &Look, stmt: &Stmt, faults: &mut Faults) -> Result<Option<Start>, NoMemory>
    ensures { (l : n.Look) → Shows look.now l → IsFit l → IsStmtFormed (stmt_tree_of stmt.now)
        → IfOk result (λ o. IsOne (row_one l (stmt_tree_of stmt.now)) (row_broken l (stmt_tree_of stmt.now)) o × (faults.new ≡ all_noted faults.old (row_broken l (stmt_tree_of stmt.now)))) }
{
    match stmt {
        Stmt::Set {
            blocking,
            target,
            value,
            ..
        } => initial_start(look, *blocking, target, value, faults),
        other => {
            faults.note(Rule::WrongAssignment, "")?;
            statement(look, other, Mode::Neither, faults)?;
            Ok(None)
        }
    }
}

fn initial_start(
    look: &Look,
    is_blocking: bool,
    target: &Target,
    value: &Expr,
    faults: &mut Faults,
) -> Result<Option<Start>, NoMemory>
    ensures { (l : n.Look) → Shows look.now l → IsFit l → IsTargetFormed (target_tree_of target.now) → IsFormed (tree_of value.now)
        → IfOk result (λ o. IsOne (row_one l (set_tree is_blocking None (target_tree_of target.now) (tree_of value.now))) (row_broken l (set_tree is_blocking None (target_tree_of target.now) (tree_of value.now))) o
        × (faults.new ≡ all_noted faults.old (row_broken l (set_tree is_blocking None (target_tree_of target.now) (tree_of value.now))))) }
{
    let fixed = fixed_target(look, target, Assigned::Registers, faults)?;
    note_register(look, is_blocking, target, faults)?;
    start_at(look, &fixed.target, first_text(target), value, faults)
}

/// Notes an assignment that isn't blocking, or whose target isn't a register by its name.
fn note_register(
    look: &Look,
    is_blocking: bool,
    target: &Target,
    faults: &mut Faults,
) -> Result<(), NoMemory>
    ensures { (l : n.Look) → Shows look.now l → IsFit l → IsTargetFormed (target_tree_of target.now)
        → IfOk result (λ _. faults.new ≡ all_noted faults.old (breaks_if (not is_blocking || not (names_register_of l (target_tree_of target.now))) 313 (first_name (target_tree_of target.now)))) }
{
    let is_register = names_register(look, target)?;
    if !is_blocking || !is_register {
        faults.note(Rule::WrongAssignment, first_text(target))?;
    }
    Ok(())
}

/// The start value of a whole register.
fn start_at(
    look: &Look,
    target: &FTarget,
    first: &str,
    value: &Expr,
    faults: &mut Faults,
) -> Result<Option<Start>, NoMemory>
    ensures { (l : n.Look) → Shows look.now l → IsFit l → IsFormed (tree_of value.now)
        → IfOk result (λ o. IsOne (one_at l (read l (tree_of value.now)) (target_of target.now)) (value_broken l first.now (read l (tree_of value.now)) (target_of target.now)) o
        × (faults.new ≡ all_noted faults.old (value_broken l first.now (read l (tree_of value.now)) (target_of target.now)))) }
{
    if let FTarget::Whole { sig } = target {
        if is_register(look, *sig) {
            let start = start_value(look, *sig, first, value, faults)?;
            return Ok(Some(start));
        }
    }
    resolve(look, value, faults)?;
    Ok(None)
}

fn is_register(look: &Look, sig: u32) -> bool
    ensures { (l : n.Look) → Shows look.now l → result ≡ is_reg_at l sig }
{
    match look.entry(sig) {
        Some(entry) => entry.is_reg,
        None => false,
    }
}

/// Whether a target is a name alone that is no memory, or a word of a memory with a constant index.
fn names_register(look: &Look, target: &Target) -> Result<bool, NoMemory>
    ensures { (l : n.Look) → Shows look.now l → IsFit l → IsTargetFormed (target_tree_of target.now) → IfOk result (λ b. b ≡ names_register_of l (target_tree_of target.now)) }
{
    match target {
        Target::Whole(name) => Ok(!is_memory(look.meaning(name))),
        Target::At { name, index } => {
            if !is_memory(look.meaning(name)) {
                return Ok(false);
            }
            let mut unheard = Faults::new(look.alloc, Order::Other);
            let index = resolve(look, index, &mut unheard)?;
            Ok(index.is_constant)
        }
        _ => Ok(false),
    }
}

fn is_memory(meaning: Option<Meaning>) -> bool
    ensures { result ≡ is_memory_of (option_map meaning_of meaning) }
{
    matches!(meaning, Some(Meaning::Memory(_)))
}
