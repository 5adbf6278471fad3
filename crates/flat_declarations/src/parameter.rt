//! Parameters of a module.
ghost use Rattle.std.specs.Prelude.{◌≡◌, ◌^◌, ◌≤◌, ◌&&◌, ◌++◌, ◌∷◌, [], true, cond, nat_le, is_none, List, Some, None, IfOk, IfErr, option_map, option_copied};
ghost use Rattle.refusals.specs.Numbers.{HasNumberIn, unfolding_numbers};
ghost use Rattle.cdc_base.specs.declared.signal.ResetPin.{ResetPin};
ghost use Rattle.cdc_base.specs.Words.{found_in};
ghost use Rattle.verilog_reading.specs.SourceTree.{maybe, bounds_of as tree_of_range, param_of as tree_of_param, module_of};
ghost use Rattle.flat_form.specs.View.{expr_of};
ghost use Rattle.flat_form.specs.Sizes.{is_sized};
ghost use Rattle.flat_unfolding.specs.Constants as constant;
ghost use Rattle.flat_unfolding.specs.Names as meanings;
ghost use Rattle.flat_unfolding.specs.Parameters as law;
ghost use Rattle.flat_unfolding.specs.Parameters.{Overrides as Given, range_read, bounds_read};
ghost use Rattle.flat_unfolding.specs.Outcome.{breaks_if};
ghost use Rattle.flat_unfolding.specs.Design.{Stage, look_of};
ghost use Rattle.flat_unfolding.specs.Formed.{IsRangeFormed, IsParamFormed, IsModuleFormed};
ghost use Rattle.flat_names.specs.Noting.{all_noted};
ghost use Rattle.flat_names.specs.Looks.{Shows, IsFit, range_of, param_of};
ghost use Rattle.flat_names.specs.Designs.{ShowsStage};
ghost use Rattle.flat_declarations.specs.Declaring.{MeetsFit, override_of, IsGivenSized, ShowsOverrides, AreFitOverrides, parameter_rules, parameter_held, IsHeld};

use cdc_base::limits::MAX_WIDTH;
use cdc_base::{Name, NoMemory, Place, Stop};
use flat_form::flat::FExpr;
use flat_form::memory::push;
use flat_form::size::width_of;
use flat_form::value::{assigned_value, own_value};
use flat_form::whole::MAX_WHOLE;
use flat_names::design::Design;
use flat_names::expr::resolve_constant;
use flat_names::fault::{Faults, Order, Rule};
use flat_names::scope::{Bounds, Look, Meaning, Names, Param, define};
use flat_names::select::bounds_of;
use indexmap::IndexMap;
use std::alloc::Global;
use verilog_ast::{ItemBody, Module, ParamDecl, Range};

/// A constant that an instance gives in place of a parameter's value.
#[derive(Drop)]
pub struct Override {
    pub value: FExpr,
    pub is_counted: bool,
    pub is_signed: bool,
}

/// The overrides of an instance, by the names of parameters.
pub type Overrides = IndexMap<Name, Override>;

/// The value of a range's bounds. Notes a range of more than 64 indices under the declared name.
pub fn declared_bounds(
    look: &Look,
    range: &Option<Range>,
    name: &Name,
    faults: &mut Faults,
) -> Result<Option<Bounds>, NoMemory>
    ensures { (l : meanings.Look) → Shows look.now l → IsFit l → IsRangeFormed (maybe tree_of_range range.now)
        → IfOk result (λ b. (option_map range_of b ≡ (range_read l name.now (maybe tree_of_range range.now)).range)
        × (faults.new ≡ all_noted faults.old (range_read l name.now (maybe tree_of_range range.now)).broken)) }
{
    let Some(range) = range else {
        return Ok(None);
    };
    let bounds = range_bounds(look, range, faults)?;
    if is_wide(bounds) {
        faults.note(Rule::Width, name.as_str())?;
    }
    Ok(bounds)
}

/// Whether a range has more than 64 indices.
fn is_wide(bounds: Option<Bounds>) -> bool
    ensures { result ≡ law.is_wide (option_map range_of bounds) }
{
    match bounds {
        Some(bounds) => bounds.width() > u64::from(MAX_WIDTH),
        None => false,
    }
}

/// The values of two bounds.
pub fn range_bounds(
    look: &Look,
    range: &Range,
    faults: &mut Faults,
) -> Result<Option<Bounds>, NoMemory>
    ensures { (l : meanings.Look) → Shows look.now l → IsFit l → IsRangeFormed (Some (tree_of_range range.now))
        → IfOk result (λ b. (option_map range_of b ≡ (bounds_read l (tree_of_range range.now)).range)
        × (faults.new ≡ all_noted faults.old (bounds_read l (tree_of_range range.now)).broken)) }
{
    let left = resolve_constant(look, &range.left, faults)?;
    let right = resolve_constant(look, &range.right, faults)?;
    bounds_of(&left, &right, faults)
}

/// The width of a signal or a parameter with these bounds; without any it is 1.
pub fn declared_width(bounds: Option<Bounds>) -> u8
    ensures { meanings.width_of (option_map range_of bounds) ≤ 64 → result ≡ meanings.width_of (option_map range_of bounds) }
{
    match bounds {
        Some(bounds) => u8::try_from(bounds.width()).unwrap_or(MAX_WIDTH),
        None => 1,
    }
}

/// Adds the parameters of a module to its names, those of the header first.
pub fn add_parameters(
    alloc: Global,
    module: &Module,
    overrides: &Overrides,
    names: &mut Names,
    design: &Design,
) -> Result<(), Stop>
    ensures exact { (pins : List ResetPin) (s : Stage) (given : Given) → ShowsStage pins names.old design.now s → IsFit (look_of s) → ShowsOverrides overrides.now given → AreFitOverrides given
        → IsModuleFormed (module_of «module».now) → MeetsFit pins names.new (law.parameters given (module_of «module».now) s) result design.now }
    ensures numbered { IfErr result (HasNumberIn unfolding_numbers) }
{
    for param in module.params.as_slice() {
        let outer = overrides.get(&param.name);
        add_parameter(alloc, module.place, param, outer, names, design)?;
    }
    for item in module.items.as_slice() {
        if let ItemBody::Param(param) = &item.body {
            let outer = overrides.get(&param.name);
            add_parameter(alloc, item.place, param, outer, names, design)?;
        }
    }
    Ok(())
}

fn add_parameter(
    alloc: Global,
    place: Place,
    param: &ParamDecl,
    outer: Option<&Override>,
    names: &mut Names,
    design: &Design,
) -> Result<(), Stop>
    ensures exact { (pins : List ResetPin) (s : Stage) (given : Given) → ShowsStage pins names.old design.now s → IsFit (look_of s) → AreFitOverrides given → IsParamFormed (tree_of_param param.now)
        → option_map override_of (option_copied outer.entry) ≡ found_in given param.now.name → IsGivenSized (option_copied outer.entry)
        → MeetsFit pins names.new (law.parameter given s (place, tree_of_param param.now)) result design.now }
    ensures numbered { IfErr result (HasNumberIn unfolding_numbers) }
{
    let mut faults = Faults::new(alloc, Order::Parameter);
    let meaning = {
        let look = design.look(alloc, names);
        parameter_meaning(&look, param, override_for(param, outer), &mut faults)?
    };
    faults.raise(place)?;
    define(alloc, names, param.name.as_str(), Meaning::Param(meaning))?;
    Ok(())
}

/// What a parameter stands for.
fn parameter_meaning(
    look: &Look,
    param: &ParamDecl,
    outer: Option<&Override>,
    faults: &mut Faults,
) -> Result<Param, NoMemory>
    ensures { (l : meanings.Look) (given : Given) → Shows look.now l → IsFit l → IsParamFormed (tree_of_param param.now)
        → option_map override_of (option_copied outer.entry) ≡ law.override_of given (tree_of_param param.now) → IsGivenSized (option_copied outer.entry)
        → IfOk result (λ r. (faults.new ≡ all_noted faults.old (parameter_rules given l (tree_of_param param.now)))
        × (parameter_rules given l (tree_of_param param.now) ≡ [] → (param_of r ≡ parameter_held given l (tree_of_param param.now)) × IsHeld (param_of r))) }
{
    note_declared(look, &param.name, faults)?;
    let bounds = declared_bounds(look, &param.range, &param.name, faults)?;
    match outer {
        Some(outer) => {
            note_sign(&param.range, outer.is_signed, &outer.value, faults)?;
            Ok(held(bounds, &outer.value, outer.is_counted, outer.is_signed))
        }
        None => {
            let value = resolve_constant(look, &param.value, faults)?;
            let is_signed = value.is_sound && value.signs.is_signed;
            note_sign(&param.range, is_signed, &value.expr, faults)?;
            let is_counted = value.count.is_some();
            Ok(held(bounds, &value.expr, is_counted, value.signs.is_signed))
        }
    }
}

/// Notes a signed value of 2^31 or more, where no range cuts it to its own size.
fn note_sign(
    range: &Option<Range>,
    is_signed: bool,
    value: &FExpr,
    faults: &mut Faults,
) -> Result<(), NoMemory>
    ensures { (is_signed ≡ true → is_sized value.now ≡ true)
        → IfOk result (λ _. faults.new ≡ all_noted faults.old (breaks_if (is_none range.now && is_signed && nat_le (2 ^ 31) (constant.own_value (expr_of value.now))) 307 [])) }
{
    if range.is_none() && is_signed && is_past_whole(value) {
        faults.note(Rule::ConstantOutOfRange, "")?;
    }
    Ok(())
}

/// Whether the value of a constant is 2^31 or more.
fn is_past_whole(value: &FExpr) -> bool
    ensures { is_sized value.now ≡ true → result ≡ nat_le (2 ^ 31) (constant.own_value (expr_of value.now)) }
{
    own_value(value) > MAX_WHOLE
}

/// The override of a parameter, which a local one has none of.
fn override_for<'a>(param: &ParamDecl, outer: Option<&'a Override>) -> Option<&'a Override>
    ensures { option_copied result ≡ cond param.now.local None (option_copied outer.entry) }
{
    if param.local { None } else { outer }
}

/// Notes a name that is declared already.
pub fn note_declared(look: &Look, name: &Name, faults: &mut Faults) -> Result<(), NoMemory>
    ensures { (l : meanings.Look) → Shows look.now l → IfOk result (λ _. faults.new ≡ all_noted faults.old (breaks_if (meanings.is_declared l.names name.now) 304 name.now)) }
{
    if look.names.contains_key(name) {
        faults.note(Rule::DeclaredTwice, name.as_str())?;
    }
    Ok(())
}

/// A value as a parameter keeps it: cut to its range where it has one, and else of its own size.
fn held(bounds: Option<Bounds>, value: &FExpr, is_counted: bool, is_signed: bool) -> Param
    ensures { is_sized value.now ≡ true → meanings.width_of (option_map range_of bounds) ≤ 64
        → (param_of result ≡ law.held (option_map range_of bounds) (expr_of value.now) is_counted is_signed) × IsHeld (param_of result) }
{
    match bounds {
        Some(_) => {
            let width = declared_width(bounds);
            Param {
                value: assigned_value(value, width),
                width,
                counted: false,
                signed: false,
                bounds,
            }
        }
        None => {
            let width = width_of(value);
            Param {
                value: assigned_value(value, width),
                width,
                counted: is_counted,
                signed: is_signed,
                bounds,
            }
        }
    }
}

/// The names of the parameters that an instance may override, in textual order.
pub fn overridable(alloc: Global, module: &Module) -> Result<Vec<Name>, NoMemory>
    ensures { IfOk result (λ names. names.items ≡ law.overridable (module_of «module».now)) }
{
    let mut names = Vec::new(alloc);
    for param in module.params.as_slice() {
        add_overridable(alloc, param, &mut names)?;
    }
    for item in module.items.as_slice() {
        if let ItemBody::Param(param) = &item.body {
            add_overridable(alloc, param, &mut names)?;
        }
    }
    Ok(names)
}

fn add_overridable(alloc: Global, param: &ParamDecl, names: &mut Vec<Name>) -> Result<(), NoMemory>
    ensures { IfOk result (λ _. names.new.items ≡ names.old.items ++ cond param.now.local [] (param.now.name ∷ [])) }
{
    if param.local {
        return Ok(());
    }
    push(names, param.name.copy(alloc)?)
}
