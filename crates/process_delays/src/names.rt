//! The names that a target assigns, from the left.
ghost use Rattle.std.specs.Prelude.{◌≡◌, ◌++◌, ◌∷◌, [], map, IfOk};
ghost use Rattle.verilog_reading.specs.ExprTree.{target_tree_of, target_trees_of};
ghost use Rattle.flat_unfolding.specs.Mentions.{aimed_names, all_aimed_names};

use cdc_base::{Name, NoMemory};
use verilog_ast::Target;

#[cycle(add_names)]
pub fn add_names<'a>(target: &'a Target, names: &mut Vec<&'a str>) -> Result<(), NoMemory>
    ensures { IfOk result (λ _. map (λ n. n.now) names.new.items ≡ map (λ n. n.now) names.old.items ++ aimed_names (target_tree_of target.now)) }
{
    match target {
        Target::Whole(name) => add(name, names),
        Target::At { name, .. } => add(name, names),
        Target::Part { name, .. } => add(name, names),
        Target::Join(parts) => add_names_of(parts.as_slice(), names),
    }
}

#[cycle(add_names)]
fn add_names_of<'a>(targets: &'a [Target], names: &mut Vec<&'a str>) -> Result<(), NoMemory>
    ensures { IfOk result (λ _. map (λ n. n.now) names.new.items ≡ map (λ n. n.now) names.old.items ++ all_aimed_names (target_trees_of (map target_tree_of targets.now))) }
{
    for target in targets {
        add_names(target, names)?;
    }
    Ok(())
}

fn add<'a>(name: &'a Name, names: &mut Vec<&'a str>) -> Result<(), NoMemory>
    ensures { IfOk result (λ _. map (λ n. n.now) names.new.items ≡ map (λ n. n.now) names.old.items ++ name.now ∷ []) }
{
    match names.push(name.as_str()) {
        Ok(()) => Ok(()),
        Err(_) => Err(NoMemory),
    }
}
