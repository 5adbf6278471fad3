//! The rule of target concatenations: the order in which their parts are assigned doesn't count.
ghost use Rattle.std.specs.Prelude.{◌≡◌, ℕ, ◌++◌, List, [], map, length, Some, IfOk};
ghost use Rattle.verilog_reading.specs.ExprTree.{TargetTree, TargetTrees, tree_of, trees_of, target_tree_of};
ghost use Rattle.flat_form.specs.View.{target_of};
ghost use Rattle.flat_unfolding.specs.Names as definition;
ghost use Rattle.flat_unfolding.specs.Targets.{Use, of_wires, aim, piece_rules, as_target, as_targets};
ghost use Rattle.flat_unfolding.specs.Formed.{IsTargetFormed, AreTargetsFormed};
ghost use Rattle.flat_names.specs.Noting.{all_noted};
ghost use Rattle.flat_names.specs.Looks.{Shows, IsFit};
ghost use Rattle.flat_targets.specs.Aims.{trees_in};
ghost use Rattle.flat_targets.specs.Pieces.{part_names, part_names_in, first_noted};
ghost use Rattle.flat_targets.specs.Parts.{first_met, parts};

use crate::parts::first_meeting;
use cdc_base::NoMemory;
use flat_form::flat::FTarget;
use flat_form::memory::push;
use flat_names::fault::{Faults, Rule};
use flat_names::scope::Look;
use verilog_ast::{Expr, Target};

/// Notes the first part of a target concatenation that may assign a bit which an earlier part may assign, or whose index
/// reads a signal that the concatenation assigns. `resolved` is the target with its names resolved.
pub fn note_pieces(
    look: &Look,
    target: &Target,
    resolved: &FTarget,
    faults: &mut Faults,
) -> Result<(), NoMemory>
    ensures { (l : definition.Look) (u : Use) → Shows look.now l → IsFit l → IsTargetFormed (target_tree_of target.now) → target_of resolved.now ≡ (aim l u (target_tree_of target.now)).target
        → IfOk result (λ _. faults.new ≡ all_noted faults.old (piece_rules l u (target_tree_of target.now))) }
{
    match target {
        Target::Whole(_) => Ok(()),
        Target::At { .. } => Ok(()),
        Target::Part { .. } => Ok(()),
        Target::Join(parts) => {
            let mut names = Vec::new(look.alloc);
            add_names_of(parts.as_slice(), &mut names)?;
            note_first(look, names.as_slice(), resolved, faults)
        }
    }
}

/// The same of an expression that is taken as the target that it reads as.
pub fn note_expr_pieces(
    look: &Look,
    expr: &Expr,
    resolved: &FTarget,
    faults: &mut Faults,
) -> Result<(), NoMemory>
    ensures { (l : definition.Look) (t : TargetTree) → Shows look.now l → IsFit l → IsTargetFormed t → as_target (tree_of expr.now) ≡ Some t → target_of resolved.now ≡ (aim l of_wires t).target
        → IfOk result (λ _. faults.new ≡ all_noted faults.old (piece_rules l of_wires t)) }
{
    match expr {
        Expr::Ident(_) => Ok(()),
        Expr::At { .. } => Ok(()),
        Expr::Part { .. } => Ok(()),
        Expr::Join(parts) => {
            let mut names = Vec::new(look.alloc);
            add_expr_names_of(parts.as_slice(), &mut names)?;
            note_first(look, names.as_slice(), resolved, faults)
        }
        _ => Ok(()),
    }
}

/// Notes the first part that is met, by its name.
fn note_first(
    look: &Look,
    names: &[&str],
    resolved: &FTarget,
    faults: &mut Faults,
) -> Result<(), NoMemory>
    ensures { (l : definition.Look) → Shows look.now l → IsFit l
        → IfOk result (λ _. faults.new ≡ first_noted faults.old (map (λ n. n.now) names.now) (first_met (definition.width_at l.entries) (length l.entries) (parts (target_of resolved.now)) [] (parts (target_of resolved.now)))) }
{
    match first_meeting(look.alloc, look.entries, resolved)? {
        Some(place) => note_named(names, place, faults),
        None => Ok(()),
    }
}

fn note_named(names: &[&str], place: usize, faults: &mut Faults) -> Result<(), NoMemory>
    ensures { IfOk result (λ _. faults.new ≡ first_noted faults.old (map (λ n. n.now) names.now) (Some place)) }
{
    match names.get(place) {
        Some(name) => faults.note(Rule::WrongAssignment, name),
        None => Ok(()),
    }
}

/// Adds the names in the parts of a target.
#[cycle(add_names)]
fn add_names<'a>(target: &'a Target, names: &mut Vec<&'a str>) -> Result<(), NoMemory>
    ensures { IfOk result (λ _. map (λ n. n.now) names.new.items ≡ map (λ n. n.now) names.old.items ++ part_names (target_tree_of target.now)) }
{
    match target {
        Target::Whole(name) => push(names, name.as_str()),
        Target::At { name, .. } => push(names, name.as_str()),
        Target::Part { name, .. } => push(names, name.as_str()),
        Target::Join(parts) => add_names_of(parts.as_slice(), names),
    }
}

#[cycle(add_names)]
fn add_names_of<'a>(targets: &'a [Target], names: &mut Vec<&'a str>) -> Result<(), NoMemory>
    ensures { IfOk result (λ _. map (λ n. n.now) names.new.items ≡ map (λ n. n.now) names.old.items ++ part_names_in (trees_in targets.now)) }
{
    for target in targets {
        add_names(target, names)?;
    }
    Ok(())
}

/// Adds the names in the parts of an expression that is taken as a target.
#[cycle(add_expr_names)]
fn add_expr_names<'a>(expr: &'a Expr, names: &mut Vec<&'a str>) -> Result<(), NoMemory>
    ensures { (t : TargetTree) → as_target (tree_of expr.now) ≡ Some t
        → IfOk result (λ _. map (λ n. n.now) names.new.items ≡ map (λ n. n.now) names.old.items ++ part_names t) }
{
    match expr {
        Expr::Ident(name) => push(names, name.as_str()),
        Expr::At { name, .. } => push(names, name.as_str()),
        Expr::Part { name, .. } => push(names, name.as_str()),
        Expr::Join(parts) => add_expr_names_of(parts.as_slice(), names),
        _ => Ok(()),
    }
}

#[cycle(add_expr_names)]
fn add_expr_names_of<'a>(exprs: &'a [Expr], names: &mut Vec<&'a str>) -> Result<(), NoMemory>
    ensures { (ts : TargetTrees) → as_targets (trees_of (map tree_of exprs.now)) ≡ Some ts
        → IfOk result (λ _. map (λ n. n.now) names.new.items ≡ map (λ n. n.now) names.old.items ++ part_names_in ts) }
{
    for expr in exprs {
        add_expr_names(expr, names)?;
    }
    Ok(())
}
