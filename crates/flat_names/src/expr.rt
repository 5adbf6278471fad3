//! Expressions: names resolved, sizes computed, constants judged.
ghost use Rattle.std.specs.Prelude.{◌≡◌, Some, map, is_some, IfOk};
ghost use Rattle.verilog_reading.specs.ExprTree.{tree_of, trees_of, number as number_tree, name as name_tree};
ghost use Rattle.flat_unfolding.specs.Outcome.{Text};
ghost use Rattle.flat_unfolding.specs.Names as meanings;
ghost use Rattle.flat_unfolding.specs.Names.{unknown};
ghost use Rattle.flat_unfolding.specs.Constants.{is_counted};
ghost use Rattle.flat_unfolding.specs.Expressions.{all_broken, as_constant, read as read_tree, read_parts};
ghost use Rattle.flat_unfolding.specs.Formed.{IsFormed, AreFormed};
ghost use Rattle.flat_names.specs.Noting.{all_noted};
ghost use Rattle.flat_names.specs.Looks.{param_of, Shows, IsFitParam, IsFit};
ghost use Rattle.flat_names.specs.Pieces.{piece, IsPiece, IsRead, AreRead, at_once};
ghost use Rattle.flat_names.specs.Selects.{name_piece};
ghost use Rattle.flat_names.specs.Signs.{signs_of as signs_in};

use crate::fault::{Faults, Rule};
use crate::resolved::{
    Parts, Resolved, binary, choose, counted_number, join, nothing, repeat, settled,
    settled_constant, settled_part, unary,
};
use crate::scope::{Look, Meaning, Param};
use crate::select::{index_read, part_read};
use crate::signs::Signs;
use cdc_base::{Name, NoMemory, NumberSize};
use flat_form::flat::FExpr;
use verilog_ast::Expr;

/// The expression as a part of another one: if it is counted it has yet to be judged.
#[cycle(resolve)]
pub fn part_of(look: &Look, expr: &Expr, faults: &mut Faults) -> Result<Resolved, NoMemory>
    ensures { (l : meanings.Look) → Shows look.now l → IsFit l → IsFormed (tree_of expr.now)
        → IfOk result (λ r. IsPiece (piece l (tree_of expr.now)) r × (faults.new ≡ all_noted faults.old (at_once (piece l (tree_of expr.now))))) }
{
    match expr {
        Expr::Number { value, width, size } => Ok(number(*value, *width, *size)),
        Expr::Ident(name) => named(look, name, faults),
        Expr::At { name, index } => {
            note_unknown(look, name, faults)?;
            let index = settled(part_of(look, index, faults)?, faults)?;
            index_read(look, name, index, faults)
        }
        Expr::Part {
            name,
            kind,
            left,
            right,
        } => {
            note_unknown(look, name, faults)?;
            let left = settled_constant(part_of(look, left, faults)?, faults)?;
            let right = settled_constant(part_of(look, right, faults)?, faults)?;
            part_read(look, name, *kind, &left, &right, faults)
        }
        Expr::Unary { op, a } => {
            let a = part_of(look, a, faults)?;
            unary(look.alloc, *op, a)
        }
        Expr::Binary { op, a, b } => {
            let a = part_of(look, a, faults)?;
            let b = part_of(look, b, faults)?;
            binary(look.alloc, *op, a, b, faults)
        }
        Expr::Choose { cond, yes, other } => {
            let cond = part_of(look, cond, faults)?;
            let yes = part_of(look, yes, faults)?;
            let other = part_of(look, other, faults)?;
            choose(look.alloc, cond, yes, other, faults)
        }
        Expr::Join(parts) => {
            let parts = parts_of(look, parts.as_slice(), faults)?;
            join(parts, faults)
        }
        Expr::Repeat { count, parts } => {
            let count = settled_constant(part_of(look, count, faults)?, faults)?;
            let parts = parts_of(look, parts.as_slice(), faults)?;
            repeat(count, parts, faults)
        }
        Expr::Paren(inner) => part_of(look, inner, faults),
    }
}

#[cycle(resolve)]
fn parts_of(look: &Look, exprs: &[Expr], faults: &mut Faults) -> Result<Parts, NoMemory>
    ensures { (l : meanings.Look) → Shows look.now l → IsFit l → AreFormed (trees_of (map tree_of exprs.now))
        → IfOk result (λ p. AreRead (read_parts l (trees_of (map tree_of exprs.now))) p × (faults.new ≡ all_noted faults.old (all_broken (read_parts l (trees_of (map tree_of exprs.now)))))) }
{
    let mut parts = Parts::new(look.alloc);
    for expr in exprs {
        let part = settled_part(part_of(look, expr, faults)?, faults)?;
        parts.add(part)?;
    }
    Ok(parts)
}

/// The expression by itself.
pub fn resolve(look: &Look, expr: &Expr, faults: &mut Faults) -> Result<Resolved, NoMemory>
    ensures { (l : meanings.Look) → Shows look.now l → IsFit l → IsFormed (tree_of expr.now)
        → IfOk result (λ r. IsRead (read_tree l (tree_of expr.now)) r × (faults.new ≡ all_noted faults.old (read_tree l (tree_of expr.now)).broken) × (is_some r.count ≡ is_counted l.names (tree_of expr.now)) × (r.signs ≡ signs_in l.names (tree_of expr.now))) }
{
    let resolved = part_of(look, expr, faults)?;
    settled(resolved, faults)
}

/// The expression by itself, which has to be a constant.
pub fn resolve_constant(look: &Look, expr: &Expr, faults: &mut Faults) -> Result<Resolved, NoMemory>
    ensures { (l : meanings.Look) → Shows look.now l → IsFit l → IsFormed (tree_of expr.now)
        → IfOk result (λ r. IsRead (as_constant (read_tree l (tree_of expr.now))) r × (faults.new ≡ all_noted faults.old (as_constant (read_tree l (tree_of expr.now))).broken) × (is_some r.count ≡ is_counted l.names (tree_of expr.now)) × (r.signs ≡ signs_in l.names (tree_of expr.now))) }
{
    let resolved = part_of(look, expr, faults)?;
    settled_constant(resolved, faults)
}

fn number(value: u64, width: u8, size: NumberSize) -> Resolved
    ensures { (l : meanings.Look) → IsFormed (number_tree value width size) → IsPiece (piece l (number_tree value width size)) result }
{
    match size {
        NumberSize::Plain => counted_number(value, width, Signs::of_number()),
        NumberSize::Unsized => Resolved::constant(FExpr::Number { value, width }, Signs::based()),
        NumberSize::Sized => Resolved::constant(FExpr::Number { value, width }, Signs::none()),
    }
}

/// Notes a name that stands for nothing.
pub fn note_unknown(look: &Look, name: &Name, faults: &mut Faults) -> Result<(), NoMemory>
    ensures { (l : meanings.Look) → Shows look.now l → IfOk result (λ _. faults.new ≡ all_noted faults.old (unknown l name.now)) }
{
    if look.meaning(name).is_none() {
        faults.note(Rule::UnknownName, name.as_str())?;
    }
    Ok(())
}

/// A name alone.
fn named(look: &Look, name: &Name, faults: &mut Faults) -> Result<Resolved, NoMemory>
    ensures { (l : meanings.Look) → Shows look.now l → IsFit l
        → IfOk result (λ r. IsPiece (piece l (name_tree name.now)) r × (faults.new ≡ all_noted faults.old (at_once (piece l (name_tree name.now))))) }
{
    match look.meaning(name) {
        Some(Meaning::Param(param)) => Ok(parameter(param)),
        Some(Meaning::Signal(sig)) => { Ok(Resolved::variable(look.read(sig, 0, look.width(sig)))) }
        Some(Meaning::Memory(_)) => {
            faults.note(Rule::Memory, name.as_str())?;
            Ok(Resolved::broken(nothing(), false))
        }
        Some(Meaning::NoValue) | None => {
            faults.note(Rule::UnknownName, name.as_str())?;
            Ok(Resolved::broken(nothing(), false))
        }
    }
}

fn parameter(param: Param) -> Resolved
    ensures { (l : meanings.Look) (x : Text) → IsFitParam (param_of param) → IsPiece (name_piece l x (Some (meanings.a_param (param_of param)))) result }
{
    if param.counted {
        counted_number(param.value, param.width, signs_of(param))
    } else {
        let number = FExpr::Number {
            value: param.value,
            width: param.width,
        };
        Resolved::constant(number, signs_of(param))
    }
}

/// A parameter that is counted with the size 32 is a number without a size.
fn signs_of(param: Param) -> Signs
    ensures { (l : meanings.Look) (x : Text) → result ≡ (name_piece l x (Some (meanings.a_param (param_of param)))).signs }
{
    Signs {
        is_signed: param.signed,
        leans: false,
        is_unsized: param.counted && param.width == 32,
    }
}
